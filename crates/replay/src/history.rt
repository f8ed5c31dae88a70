// A history replayed: one step on a shown list, all steps, and where each object last was.
ghost use Rattle.std.specs.Prelude.{◌≡◌, ℕ, ◌+◌, ◌≤◌, ◌<◌, List, ◌∷◌, length};
ghost use Rattle.scene.specs.declared.Step as steps;
ghost use Rattle.scene.specs.Steps.{Scene, bare, most_steps};
ghost use Rattle.replay.specs.Tables.{room_of_tables, places_length};
ghost use Rattle.replay.specs.Places.{scene_in};
ghost use Rattle.stored.specs.Bytes.{step_at, down, entries};
ghost use Rattle.stored.specs.Layout.{most_shown, session_size};
ghost use Rattle.replay.specs.Replay.{room_of, plan_of, judged, entry_at, drawn_on, hidden_on, Replayed};

use crate::list::{empty, entry_at, is_shown, kept, push, refused};
use crate::places::{fill_homes, spot_of, store_step};
use crate::tables::{Objects, Tables};
use crate::{NOWHERE, Spot};
use scene::Step;
use stored::Shown;
use stored::bytes::step_at;

// The image of an object, whose own refusal is `refusal` if not 0, drawn at a place over a shown list.
fn drawn(objects: Objects<'_>, s: Shown, object: u32, state: u32, at: Spot, refusal: u8) -> Shown
    requires { (s.n < most_shown) × (at.x < 68719476736) × (at.y < 68719476736) }
    ensures { ((v : List ℕ) → plan_of result ≡ drawn_on (room_of_tables objects.entry.rows.now v objects.entry.size) refusal
        (entry_at object state at) (entries s)) × (result.n ≤ s.n + 1) }
{
    if !objects.fits(object, at) {
        return refused(s, 12);
    }
    if refusal != 0 {
        return refused(s, refusal);
    }
    let e = entry_at(object, state, at);
    push(kept(objects, true, s, e), e)
}

fn hidden(objects: Objects<'_>, s: Shown, object: u32) -> Shown
    requires { s.n < most_shown }
    ensures { (plan_of result ≡ hidden_on object (entries s)) × (result.n ≤ s.n + 1) }
{
    if !is_shown(s, object) {
        return refused(s, 11);
    }
    kept(objects, false, s, entry_at(object, 0, NOWHERE))
}

// One step on a shown list, with the table of last places as it stands before the step: the list after it, or its refusal.
pub fn step_on(tables: Tables<'_>, places: &[u32], s: Shown, step: Step) -> Shown
    requires { (places_length ≤ length places.now) × (s.n < most_shown) }
    ensures { ((n : ℕ) → n < most_steps → plan_of result ≡ judged (room_of tables.entry) n
        (scene_in places.now (entries s)) step) × (result.n ≤ s.n + 1) }
{
    match step {
        Step::Hide(object) => hidden(tables.objects, s, object),
        Step::Draw(object, state, place) => {
            let v = tables.verdict(object, state);
            if v == 11 {
                return refused(s, 11);
            }
            let at = spot_of(places, object, place);
            drawn(tables.objects, s, object, state, at, v)
        }
    }
}

// The next step of a replay, whose place is stored if it is accepted: after a refusal the replay stays refused.
fn next(tables: Tables<'_>, places: &mut [u32], s: Shown, step: Step) -> Shown
    requires { (places_length ≤ length places.old) × (s.n < most_shown) }
    ensures { (g : Scene) (h : List steps.Step) → length h < most_steps
        → Replayed (room_of tables.entry) g h places.old s
        → Replayed (room_of tables.entry) g (step ∷ h) places.new result }
{
    if s.refusal != 0 {
        return s;
    }
    let t = step_on(tables, &places[..], s, step);
    if t.refusal == 0 {
        store_step(places, step);
    }
    t
}

// The first `upto` steps of the history, from an empty list and each object at home; the table is left as the last places.
pub fn replayed(session: &[u8], tables: Tables<'_>, upto: usize, places: &mut [u32]) -> Shown
    requires { (session_size ≤ length session.now) × (places_length ≤ length places.old) × (upto ≤ most_steps) }
    ensures { Replayed (room_of tables.entry)
        (bare (room_of tables.entry)) (down (step_at session.now) upto)
        places.new result }
{
    fill_homes(places, tables.objects);
    let mut s = empty();
    for i in 0..upto {
        s = next(tables, places, s, step_at(session, i));
    }
    s
}
