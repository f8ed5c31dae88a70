// Strips of lent surfaces rebuilt over their full height from the room's bytes and a shown list (document 01, "Sessions", "Painting
// afresh"). The room passes its test, and each entry of the list could be drawn (crate layers, specs/Ready.antt). A shown list is lent as
// numbers, four for each entry: object, state, x, y. Strip k of the pixels and of the masks is rebuilt together.
#![tactic(auto)]

pub mod entries;
pub mod picture;

ghost use Rattle.std.specs.Prelude.{◌≡◌, not, ◌*◌, ◌≤◌, ◌<◌, eqb, length, get_or};
ghost use Rattle.room.specs.Test.{strips};
ghost use Rattle.scene.specs.Painting.{pixel_layout, mask_layout, rebuilt_bytes};
ghost use Rattle.layers.specs.Decoded.{decoded, entries_of};
ghost use Rattle.layers.specs.Ready.{Ready, Listed};

use crate::entries::entries_strip;
use crate::picture::room_strip;
use room::Room;

// What is painted: a room's bytes with its sizes and the table of its objects, and the first n entries of a shown list, each of which
// could be drawn.
#[derive(Clone, Copy, Debug, PartialEq, Eq)]
pub struct Painting<'a> {
    pub bytes: &'a [u8],
    pub room: Room,
    pub table: &'a [u32],
    pub shown: &'a [u32],
    pub n: usize,
    ghost ready: { Ready bytes.now room table.now },
    ghost listed: { Listed bytes.now room shown.now n },
}

// Rebuilds strip k: the room's own, then the entries over it.
fn rebuild_strip(painting: Painting<'_>, k: usize, pixels: &mut [u8], masks: &mut [u8])
    requires strip_in_room { k < strips painting.room }
    requires surfaces_fit { (painting.room.width * painting.room.height ≤ length pixels.old)
        × (strips painting.room * (painting.room.planes * painting.room.height) ≤ length masks.old) }
    ensures pixels_after { pixels.new
        ≡ rebuilt_bytes (pixel_layout (decoded painting.entry.bytes.now painting.entry.room))
        (entries_of painting.entry.shown.now painting.entry.n) (λ t. eqb t k) pixels.old }
    ensures masks_after { masks.new
        ≡ rebuilt_bytes (mask_layout (decoded painting.entry.bytes.now painting.entry.room))
        (entries_of painting.entry.shown.now painting.entry.n) (λ t. eqb t k) masks.old }
{
    room_strip(painting.bytes, painting.room, k, pixels, masks);
    entries_strip(painting, k, pixels, masks);
}

// Rebuilds the strips of both surfaces whose byte in `touched` is not 0; every other byte stays.
pub fn rebuild(
    room: &[u8],
    r: Room,
    table: &[u32],
    shown: &[u32],
    n: usize,
    touched: &[u8],
    pixels: &mut [u8],
    masks: &mut [u8],
)
    requires entries_ready { Ready room.now r table.now × Listed room.now r shown.now n × (strips r ≤ length touched.now) }
    requires surfaces_fit { (r.width * r.height ≤ length pixels.old) × (strips r * (r.planes * r.height) ≤ length masks.old) }
    ensures pixels_after { pixels.new
        ≡ rebuilt_bytes (pixel_layout (decoded room.now r)) (entries_of shown.now n)
        (λ t. not (eqb (get_or touched.now t 0) 0)) pixels.old }
    ensures masks_after { masks.new
        ≡ rebuilt_bytes (mask_layout (decoded room.now r)) (entries_of shown.now n)
        (λ t. not (eqb (get_or touched.now t 0) 0)) masks.old }
{
    let painting = Painting {
        bytes: room,
        room: r,
        table,
        shown,
        n,
    };
    for k in 0..r.width / 8 {
        if touched[k] != 0 {
            rebuild_strip(painting, k, pixels, masks);
        }
    }
}
