// The table of last places: for each object from 0 to 128 its x, its y, and 1 where a strip position set them, at 3 times its number.
ghost use Rattle.std.specs.Prelude.{◌≡◌, ℕ, ◌≤◌, ◌<◌, cond, List, eqb, length};
ghost use Rattle.scene.specs.declared.Entry.{Entry};
ghost use Rattle.scene.specs.Steps as steps;
ghost use Rattle.replay.specs.Tables.{room_of_tables, places_length};
ghost use Rattle.replay.specs.Places.{places_in, scene_in, IsAt, NearPlace, Near};

use crate::tables::{HOME_X, HOME_Y, Objects};
use crate::{NOWHERE, Spot};
use scene::{Place, Step};

// Objects 0 to 128 have a row each.
const OBJECTS: u32 = 129;

const ROW_LENGTH: usize = 3;

// Where an object last was.
#[tactic(auto, unfolding(crate::specs::Places::places_in))]
pub fn place_of(places: &[u32], object: u32) -> Spot
    requires { places_length ≤ length places.now }
    ensures { IsAt result (places_in places.now object) × (result.x < 4294967296) × (result.y < 4294967296) }
{
    if OBJECTS <= object {
        return NOWHERE;
    }
    let at = ROW_LENGTH * object as usize;
    Spot {
        x: places[at] as usize,
        y: places[at + 1] as usize,
        set: places[at + 2] == 1,
    }
}

// Where a draw of the object at the place puts it.
#[tactic(auto, unfolding(scene::specs::Steps::spot_of))]
pub fn spot_of(places: &[u32], object: u32, place: Place) -> Spot
    requires { places_length ≤ length places.now }
    ensures spot { (es : List Entry) → IsAt result (steps.spot_of (scene_in places.now es) object place) }
    ensures stays_near { NearPlace place → (result.x < 4294967296) × (result.y < 4294967296) }
{
    match place {
        Place::Last => place_of(places, object),
        Place::Strip(a, b) => Spot {
            x: 8 * a as usize,
            y: 8 * b as usize,
            set: true,
        },
    }
}

fn store_place(places: &mut [u32], object: u32, at: Spot)
    requires { (places_length ≤ length places.old) × (object ≤ 128) × (at.x < 4294967296) × (at.y < 4294967296) }
    ensures { (p : steps.Spot) → IsAt at p
        → places_in places.new ≡ (λ q. cond (eqb q object) p (places_in places.old q)) }
{
    let i = ROW_LENGTH * object as usize;
    places[i] = at.x as u32;
    places[i + 1] = at.y as u32;
    places[i + 2] = u32::from(at.set);
}

// The table after an accepted step: a draw's object is where the draw put it.
pub fn store_step(places: &mut [u32], step: Step)
    requires { (places_length ≤ length places.old) × Near step }
    ensures { (es : List Entry) → places_in places.new ≡ steps.moves (scene_in places.old es) step }
{
    match step {
        Step::Hide(_) => {}
        Step::Draw(object, _, place) => {
            let at = spot_of(&places[..], object, place);
            store_place(places, object, at);
        }
    }
}

// Each object at the place of its IMHD; one that is not there at 0, 0.
pub fn fill_homes(places: &mut [u32], objects: Objects<'_>)
    requires { places_length ≤ length places.old }
    ensures { (v : List ℕ) → places_in places.new
        ≡ (steps.bare (room_of_tables objects.entry.rows.now v objects.entry.size)).last }
{
    for o in 0..OBJECTS {
        let x = objects.cell(o, HOME_X);
        let y = objects.cell(o, HOME_Y);
        let at = Spot { x, y, set: false };
        store_place(places, o, at);
    }
}
