// The caller's tables of objects and images, and the tests of a draw that ask for them.
ghost use Rattle.std.specs.Prelude.{◌≡◌, ℕ, ◌≤◌, ◌<◌, List, length};
ghost use Rattle.scene.specs.Steps.{allowed, same_box};
ghost use Rattle.replay.specs.Tables.{cell_of, verdict_of, room_of_tables, Sizes, objects_length, verdicts_length};

use crate::{Size, Spot};
use scene::Entry;

// An object's row of 8 numbers: where its image's home stands, and the image's size.
const ROW_LENGTH: usize = 8;

pub const HOME_X: usize = 1;

pub const HOME_Y: usize = 2;

pub const WIDTH: usize = 3;

pub const HEIGHT: usize = 4;

// Its row of 10 verdicts, by state.
const VERDICT_ROW_LENGTH: usize = 10;

// Number `field` of an object's row, 0 for an object that is not there.
#[tactic(auto, unfolding(crate::specs::Tables::cell_of))]
pub fn cell(objects: &[u32], size: Size, object: u32, field: usize) -> usize
    requires { (objects_length ≤ length objects.now) × Sizes size × (field < 8) }
    ensures { (result ≡ cell_of objects.now size.count object field) × (result < 4294967296) }
{
    let o = object as usize;
    if o == 0 || size.count < o {
        return 0;
    }
    objects[ROW_LENGTH * o + field] as usize
}

// 11 for an image that is not there, else what testing the image gave.
#[tactic(auto, unfolding(crate::specs::Tables::verdict_of))]
pub fn verdict(verdicts: &[u8], size: Size, object: u32, state: u32) -> u8
    requires { (verdicts_length ≤ length verdicts.now) × Sizes size }
    ensures { result ≡ verdict_of verdicts.now size.count object state }
{
    let o = object as usize;
    let s = state as usize;
    if o == 0 || size.count < o || s == 0 || 9 < s {
        return 11;
    }
    verdicts[VERDICT_ROW_LENGTH * o + s]
}

// The rows of a room's objects, 8 numbers of each, with the room's sizes.
#[derive(Clone, Copy, Debug, PartialEq, Eq)]
pub struct Objects<'a> {
    pub rows: &'a [u32],
    pub size: Size,
    ghost rows_fit: { objects_length ≤ length rows.now },
    ghost sizes: { Sizes size },
}

impl Objects<'_> {
    pub fn cell(self, object: u32, field: usize) -> usize
        requires { field < 8 }
        ensures { (result ≡ cell_of self.entry.rows.now self.entry.size.count object field) × (result < 4294967296) }
    {
        cell(self.rows, self.size, object, field)
    }

    #[tactic(auto, unfolding(scene::specs::Steps::same_box, crate::specs::Tables::room_of_tables))]
    pub fn same_box(self, e: Entry, f: Entry) -> bool
        ensures { (v : List ℕ) → result ≡ same_box (room_of_tables self.entry.rows.now v self.entry.size) e f }
    {
        let same_width = self.cell(e.object, WIDTH) == self.cell(f.object, WIDTH);
        let same_height = self.cell(e.object, HEIGHT) == self.cell(f.object, HEIGHT);
        e.x == f.x && e.y == f.y && same_width && same_height
    }

    // Refusal 12 is given unless this holds of the place that an object is drawn at.
    pub fn fits(self, object: u32, at: Spot) -> bool
        requires { (at.x < 68719476736) × (at.y < 68719476736) }
        ensures { (v : List ℕ) (s : ℕ) → result ≡ allowed (room_of_tables self.entry.rows.now v self.entry.size)
            (record { object = object; state = s; x = at.x; y = at.y }) }
    {
        let w = self.cell(object, WIDTH);
        let h = self.cell(object, HEIGHT);
        at.x % 8 == 0
            && w % 8 == 0
            && 0 < w
            && 0 < h
            && at.x + w <= 8 * self.size.strips
            && at.y + h <= self.size.height
    }
}

// What a caller has gathered of a room: of each object its row, and its images' verdicts.
#[derive(Clone, Copy, Debug, PartialEq, Eq)]
pub struct Tables<'a> {
    pub objects: Objects<'a>,
    pub verdicts: &'a [u8],
    ghost verdicts_fit: { verdicts_length ≤ length verdicts.now },
}

impl<'a> Tables<'a> {
    ghost use Rattle.replay.specs.Replay.{room_of};

    pub fn new(objects: &'a [u32], verdicts: &'a [u8], size: Size) -> Self
        requires { (objects_length ≤ length objects.now) × (verdicts_length ≤ length verdicts.now) × Sizes size }
        ensures { room_of result ≡ room_of_tables objects.now verdicts.now size }
    {
        let objects = Objects {
            rows: objects,
            size,
        };
        Tables { objects, verdicts }
    }

    pub fn verdict(self, object: u32, state: u32) -> u8
        ensures { result ≡ verdict_of self.entry.verdicts.now self.entry.objects.size.count object state }
    {
        verdict(self.verdicts, self.objects.size, object, state)
    }
}
