// Steps and shown lists in the session's bytes.
ghost use Rattle.std.specs.Prelude.{◌≡◌, ◌+◌, ◌≤◌, ◌<◌, length, get_or};
ghost use Rattle.scene.specs.Steps.{most_steps};
ghost use Rattle.stored.specs.Bytes.{step_at, put_step, Small, Storable, put_history, put_shown, marks_from, same_marks, is_mark, mark};
ghost use Rattle.stored.specs.Bytes.{All, SmallEntry, entries};
ghost use Rattle.stored.specs.Layout.{session_size, step_size, shown_from, most_shown};

use crate::{MARK_SIZE, SHOWN_FROM, STEP_SIZE, STEPS_FROM, Shown};
use scene::{Call, Entry, Place, Step};

pub fn count(x: u8) -> usize
    ensures { (result ≡ x) × (result < 256) }
{
    usize::from(x)
}

pub fn step_at(session: &[u8], i: usize) -> Step
    requires { (i < most_steps) × (session_size ≤ length session.now) }
    ensures { result ≡ step_at session.now i }
{
    let at = STEPS_FROM + STEP_SIZE * i;
    let object = u32::from(session[at + 1]);
    match session[at] {
        0 => Step::Hide(object),
        1 => Step::Draw(object, u32::from(session[at + 2]), Place::Last),
        _ => {
            let a = u32::from(session[at + 3]);
            let b = u32::from(session[at + 4]);
            Step::Draw(object, u32::from(session[at + 2]), Place::Strip(a, b))
        }
    }
}

fn put5(session: &mut [u8], at: usize, kind: u8, object: u8, state: u8, a: u8, b: u8)
    requires { at + step_size ≤ length session.old }
    ensures { session.new ≡ Rattle.stored.specs.Bytes.put5 session.old at kind object state a b }
{
    session[at] = kind;
    session[at + 1] = object;
    session[at + 2] = state;
    session[at + 3] = a;
    session[at + 4] = b;
}

fn put_step(session: &mut [u8], i: usize, step: Step)
    requires { (i < most_steps) × (session_size ≤ length session.old) × Small step }
    ensures { session.new ≡ put_step session.old i step }
{
    let at = STEPS_FROM + STEP_SIZE * i;
    match step {
        Step::Hide(o) => put5(session, at, 0, o as u8, 0, 0, 0),
        Step::Draw(o, s, place) => match place {
            Place::Last => put5(session, at, 1, o as u8, s as u8, 0, 0),
            Place::Strip(a, b) => put5(session, at, 2, o as u8, s as u8, a as u8, b as u8),
        },
    }
}

// The history after a call: its step is put after the others, or the newest is dropped, whose record's bytes stay.
pub fn store_history(session: &mut [u8], call: Call)
    requires { (session_size ≤ length session.old) × Storable session.old call }
    ensures { session.new ≡ put_history session.old call }
{
    let n = usize::from(session[0]);
    match call {
        Call::Make(step) => {
            put_step(session, n, step);
            session[0] = (n + 1) as u8;
        }
        Call::TakeBack => {
            session[0] = (n - 1) as u8;
        }
    }
}

pub fn store_shown(session: &mut [u8], s: Shown)
    requires { (session_size ≤ length session.old) × (s.n ≤ most_shown) × All SmallEntry (entries s) }
    ensures { session.new ≡ put_shown session.old (entries s) }
{
    let n = s.n;
    for i in 0..n {
        let e = s.list[i];
        let at = SHOWN_FROM + MARK_SIZE * i;
        session[at] = e.object as u8;
        session[at + 1] = e.state as u8;
    }
    session[1] = n as u8;
}

fn is_mark(object: u8, state: u8, e: Entry) -> bool
    ensures { result ≡ is_mark (mark object state) e }
{
    u32::from(object) == e.object && u32::from(state) == e.state
}

// The shown list that the session keeps is s.
pub fn agrees(session: &[u8], s: Shown) -> bool
    requires { (session_size ≤ length session.now) × (s.n ≤ most_shown) }
    ensures { result ≡ same_marks (marks_from session.now shown_from 0 (get_or session.now 1 0)) (entries s) }
{
    let n = s.n;
    if usize::from(session[1]) != n {
        return false;
    }
    for k in 0..n {
        let at = SHOWN_FROM + MARK_SIZE * k;
        if !is_mark(session[at], session[at + 1], s.list[k]) {
            return false;
        }
    }
    true
}
