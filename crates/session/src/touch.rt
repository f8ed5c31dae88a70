// The strips that a step touches: those covered by the entries that it removes or adds.
ghost use Rattle.std.specs.Prelude.{◌≡◌, ℕ, ◌≤◌, Bool, ◌&&◌, ◌||◌, List, length};
ghost use Rattle.scene.specs.Painting.{covers};
ghost use Rattle.scene.specs.Steps.{touches};
ghost use Rattle.replay.specs.Tables.{room_of_tables, places_length};
ghost use Rattle.stored.specs.Bytes.{entries};
ghost use Rattle.stored.specs.Layout.{most_shown};
ghost use Rattle.replay.specs.Places.{scene_in, Near};
ghost use Rattle.session.specs.Plans.{marks, leaves, changed, flag, flagged};

use replay::NOWHERE;
use replay::list::{entry_at, goes};
use replay::places::spot_of;
use replay::tables::{Objects, WIDTH};
use scene::{Entry, Step};
use stored::Shown;

// The most strips of a room.
const MOST_STRIPS: usize = 128;

#[tactic(auto, unfolding(scene::specs::Painting::covers, replay::specs::Tables::room_of_tables))]
fn is_covered(objects: Objects<'_>, e: Entry, strip: usize) -> bool
    ensures { (v : List ℕ) → result ≡ covers (room_of_tables objects.entry.rows.now v objects.entry.size) e strip }
{
    let first = e.x as usize / 8;
    let strips = objects.cell(e.object, WIDTH) / 8;
    first <= strip && strip < first + strips
}

// A byte for each of 128 strips: 1 where e covers it and is wanted, or, where the old marks are kept, where it was 1; else 0.
fn mark_strips(strips: &mut [u8], objects: Objects<'_>, keep: bool, wanted: bool, e: Entry)
    requires { 128 ≤ length strips.old }
    ensures { (v : List ℕ) → strips.new ≡ flagged (marks strips.old keep
        (λ k. wanted && covers (room_of_tables objects.entry.rows.now v objects.entry.size) e k)) 128 strips.old }
{
    for k in 0..MOST_STRIPS {
        let marked = (keep & (strips[k] == 1)) | (wanted & is_covered(objects, e, k));
        strips[k] = u8::from(marked);
    }
}

// Marks beside the others, where f goes when e is drawn (boxes true) or e's object is hidden: the strips that f covers.
fn mark_gone(strips: &mut [u8], objects: Objects<'_>, boxes: bool, e: Entry, f: Entry)
    requires { 128 ≤ length strips.old }
    ensures { (v : List ℕ) (g : ℕ → Bool) (l : List ℕ) → strips.old ≡ flagged g 128 l
        → strips.new ≡ flagged (λ k. g k || leaves (room_of_tables objects.entry.rows.now v objects.entry.size) boxes e k f) 128 l }
{
    if goes(objects, boxes, e, f) {
        mark_strips(strips, objects, true, true, f);
    }
}

// A byte for each of 128 strips: 1 where e, if it is drawn (boxes true), covers it, or an entry of the list s that then goes; else 0.
fn mark_changes(strips: &mut [u8], objects: Objects<'_>, boxes: bool, s: Shown, e: Entry)
    requires { (128 ≤ length strips.old) × (s.n ≤ most_shown) }
    ensures { (v : List ℕ) → strips.new ≡ flagged
        (changed (room_of_tables objects.entry.rows.now v objects.entry.size) boxes e (entries s)) 128 strips.old }
{
    mark_strips(strips, objects, false, boxes, e);
    for f in &s.list[..s.n] {
        mark_gone(strips, objects, boxes, e, *f);
    }
}

// A byte for each of 128 strips: 1 where the step touches it, else 0. The list s and the table of last places stand before the step; the
// step is one that is accepted there.
pub fn touched(strips: &mut [u8], objects: Objects<'_>, places: &[u32], s: Shown, step: Step)
    requires { (128 ≤ length strips.old) × (places_length ≤ length places.now)
        × (s.n ≤ most_shown) × Near step }
    ensures { (v : List ℕ) → strips.new ≡ flagged (touches (room_of_tables objects.entry.rows.now v objects.entry.size)
        (scene_in places.now (entries s)) step) 128 strips.old }
{
    match step {
        Step::Hide(object) => {
            let e = entry_at(object, 0, NOWHERE);
            mark_changes(strips, objects, false, s, e);
        }
        Step::Draw(object, state, place) => {
            let at = spot_of(places, object, place);
            let e = entry_at(object, state, at);
            mark_changes(strips, objects, true, s, e);
        }
    }
}
