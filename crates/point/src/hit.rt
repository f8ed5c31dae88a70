// The hit test of one object, and the lowest-numbered object that passes it.
ghost use Rattle.std.specs.Prelude.{◌≡◌, ◌≤◌, ◌<◌, [], length, Ok};
ghost use Rattle.replay.specs.Tables.{Sizes, objects_length, places_length};
ghost use Rattle.replay.specs.Places.{scene_in};
ghost use Rattle.climb.specs.Tables.{boxes_of};
ghost use Rattle.point.specs.Call.{found};
ghost use Rattle.point.specs.Point.{left, top, lowest};
ghost use Rattle.point.specs.Tables.{holds_in, hit_in};

use climb::chain::is_open;
use replay::places::place_of;
use replay::tables::{HEIGHT, HOME_X, HOME_Y, WIDTH, cell};
use replay::{Size, Spot};

// Whether n pixels from `from` on hold the pixel p.
fn spans(from: usize, n: usize, p: usize) -> bool
    requires { (from < 4294967296) × (n < 4294967296) }
    ensures { result ≡ Rattle.point.specs.Point.spans from n p }
{
    (from..from + n).contains(&p)
}

// Where the box of object o stands: at the object's newest strip position, else at CDHD's place.
fn box_at(boxes: &[u32], places: &[u32], size: Size, o: u32) -> Spot
    requires { (objects_length ≤ length boxes.now) × (places_length ≤ length places.now) × Sizes size × (1 ≤ o) × (o ≤ size.count) }
    ensures { (result.x ≡ left (boxes_of boxes.now size.count) (scene_in places.now []) o)
        × (result.y ≡ top (boxes_of boxes.now size.count) (scene_in places.now []) o)
        × (result.x < 4294967296) × (result.y < 4294967296) }
{
    let at = place_of(places, o);
    if at.set {
        return at;
    }
    let x = cell(boxes, size, o, HOME_X);
    let y = cell(boxes, size, o, HOME_Y);
    Spot { x, y, set: false }
}

// Whether the box of object o holds the point.
fn holds(boxes: &[u32], places: &[u32], size: Size, x: usize, y: usize, o: u32) -> bool
    requires { (objects_length ≤ length boxes.now) × (places_length ≤ length places.now) × Sizes size × (1 ≤ o) × (o ≤ size.count) }
    ensures { result ≡ holds_in boxes.now places.now size x y o }
{
    let at = box_at(boxes, places, size, o);
    let width = cell(boxes, size, o, WIDTH);
    let height = cell(boxes, size, o, HEIGHT);
    spans(at.x, width, x) && spans(at.y, height, y)
}

// Whether object o is the one that the point means, but for lower-numbered ones.
fn is_hit(
    boxes: &[u32],
    states: &[u32],
    places: &[u32],
    flags: &[u8],
    size: Size,
    x: usize,
    y: usize,
    o: usize,
) -> bool
    requires { (objects_length ≤ length boxes.now) × (129 ≤ length states.now) × (places_length ≤ length places.now)
        × Sizes size × (1 ≤ o) × (o ≤ size.count) × (size.count ≤ length flags.now) }
    ensures { result ≡ hit_in boxes.now states.now places.now size flags.now x y o }
{
    holds(boxes, places, size, x, y, o as u32)
        && flags[o - 1] == 0
        && is_open(boxes, states, size.count, size.count, o)
}

// The lowest-numbered object that the point hits.
pub fn lowest_hit(
    boxes: &[u32],
    states: &[u32],
    places: &[u32],
    flags: &[u8],
    size: Size,
    x: usize,
    y: usize,
) -> Option<u32>
    requires { (objects_length ≤ length boxes.now) × (129 ≤ length states.now) × (places_length ≤ length places.now)
        × Sizes size × (size.count ≤ length flags.now) }
    ensures { Ok result ≡ found (lowest
        (hit_in boxes.now states.now places.now size flags.now x y) 1 size.count) }
{
    for o in 1..size.count + 1 {
        if is_hit(boxes, states, places, flags, size, x, y, o) {
            return Some(o as u32);
        }
    }
    None
}
