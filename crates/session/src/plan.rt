// What a draw, a hide or a take-back comes to, before anything is written.
ghost use Rattle.std.specs.Prelude.{◌≡◌, ◌-◌, ◌≤◌, ◌<◌, length, get_or};
ghost use Rattle.scene.specs.declared.Call.TheVariants.{Make, TakeBack};
ghost use Rattle.scene.specs.Steps.{most_steps};
ghost use Rattle.stored.specs.Layout.{most_shown, session_size};
ghost use Rattle.replay.specs.Tables.{room_of_tables, LongEnough, places_length};
ghost use Rattle.replay.specs.Replay.{plan_of, room_of};
ghost use Rattle.session.specs.Plans.{LastPlaces, ValidList, planned, Planned};

use crate::touch::touched;
use replay::history::{replayed, step_on};
use replay::list::{empty, refused};
use replay::tables::Tables;
use replay::{PLACES_LENGTH, Size};
use scene::{Call, MOST_STEPS, Step};
use stored::Shown;
use stored::bytes::{agrees, step_at};

// The list of a session that is right for the room, and the table of its last places; else refusal 9.
fn valid_list(session: &[u8], tables: Tables<'_>, places: &mut [u32]) -> Shown
    requires session_fits { session_size ≤ length session.now }
    requires places_fit { places_length ≤ length places.old }
    ensures { ValidList (room_of tables.entry) session.now places.new result }
{
    let n = usize::from(session[0]);
    if MOST_STEPS < n {
        return refused(empty(), 9);
    }
    let s = replayed(session, tables, n, places);
    if s.refusal != 0 || !agrees(session, s) {
        return refused(s, 9);
    }
    s
}

// The list of a session that is right for the room, and the table of its last places; else refusal 9.
pub fn valid_shown(
    session: &[u8],
    objects: &[u32],
    verdicts: &[u8],
    size: Size,
    places: &mut [u32],
) -> Shown
    requires long_enough { LongEnough session.now objects.now verdicts.now size }
    requires places_fit { places_length ≤ length places.old }
    ensures { ValidList (room_of_tables objects.now verdicts.now size) session.now places.new result }
{
    let tables = Tables::new(objects, verdicts, size);
    valid_list(session, tables, places)
}

// A draw or a hide of a session whose list is s, or its refusal 9.
fn plan_on(session: &[u8], tables: Tables<'_>, places: &[u32], s: Shown, step: Step) -> Shown
    requires session_fits { session_size ≤ length session.now }
    requires places_fit { places_length ≤ length places.now }
    requires valid_list { ValidList (room_of tables) session.now places.now s }
    ensures plan { plan_of result ≡ planned (room_of tables.entry) session.now (Make step) }
    ensures few_shown { result.n ≤ most_shown }
{
    if s.refusal != 0 {
        return s;
    }
    if usize::from(session[0]) == MOST_STEPS {
        return refused(s, 10);
    }
    step_on(tables, places, s, step)
}

// A take-back: the shown list of all steps but the newest, with the table of their last places, or its refusal.
fn plan_back(session: &[u8], tables: Tables<'_>, places: &mut [u32]) -> Shown
    requires session_fits { session_size ≤ length session.now }
    requires places_fit { places_length ≤ length places.old }
    ensures plan { plan_of result ≡ planned (room_of tables.entry) session.now TakeBack }
    ensures few_shown { (result.n ≤ most_shown) × (result.refusal ≡ 0 → (get_or session.now 0 0 ≤ most_steps) × (result.n < get_or session.now 0 0)) }
    ensures last_places { result.refusal ≡ 0 → LastPlaces (room_of tables.entry) session.now
        (get_or session.now 0 0 - 1) places.new }
{
    let s = valid_list(session, tables, places);
    if s.refusal != 0 {
        return s;
    }
    let n = usize::from(session[0]);
    if n == 0 {
        return refused(s, 13);
    }
    replayed(session, tables, n - 1, places)
}

// A draw or a hide: the list after it, or its refusal. Where it is accepted, the strips that it touches are marked.
fn plan_step(
    session: &[u8],
    tables: Tables<'_>,
    step: Step,
    strips: &mut [u8],
    places: &mut [u32],
) -> Shown
    requires session_fits { session_size ≤ length session.now }
    requires strips_and_places_fit { (128 ≤ length strips.old) × (places_length ≤ length places.old) }
    ensures { Planned (room_of tables.entry) session.now (Make step)
        strips.old strips.new result }
{
    let before = valid_list(session, tables, places);
    let after = plan_on(session, tables, &places[..], before, step);
    if after.refusal == 0 {
        touched(strips, tables.objects, &places[..], before, step);
    }
    after
}

// A take-back: the list before the newest step, or its refusal. Where it is accepted, the strips that the step touched are marked.
fn plan_undo(session: &[u8], tables: Tables<'_>, strips: &mut [u8], places: &mut [u32]) -> Shown
    requires session_fits { session_size ≤ length session.now }
    requires strips_and_places_fit { (128 ≤ length strips.old) × (places_length ≤ length places.old) }
    ensures { Planned (room_of tables.entry) session.now TakeBack
        strips.old strips.new result }
{
    let after = plan_back(session, tables, places);
    if after.refusal == 0 {
        let newest = usize::from(session[0]) - 1;
        let step = step_at(session, newest);
        touched(strips, tables.objects, &places[..], after, step);
    }
    after
}

// A call: the list after it, or its refusal. Where it is accepted, the strips to rebuild are marked.
pub fn plan(
    session: &[u8],
    objects: &[u32],
    verdicts: &[u8],
    size: Size,
    call: Call,
    strips: &mut [u8],
) -> Shown
    requires long_enough { LongEnough session.now objects.now verdicts.now size }
    requires strips_fit { 128 ≤ length strips.old }
    ensures { Planned (room_of_tables objects.now verdicts.now size) session.now call
        strips.old strips.new result }
{
    let tables = Tables::new(objects, verdicts, size);
    let mut places = [0u32; PLACES_LENGTH];
    match call {
        Call::Make(step) => plan_step(session, tables, step, strips, &mut places),
        Call::TakeBack => plan_undo(session, tables, strips, &mut places),
    }
}
