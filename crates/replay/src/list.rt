// A shown list by value: an entry goes last, those that a step keeps, an object is looked for.
ghost use Rattle.std.specs.Prelude.{◌≡◌, ℕ, ◌+◌, ◌≤◌, ◌<◌, cond, List, [], ◌∷◌, ◌++◌, length, eqb};
ghost use Rattle.scene.specs.Steps.{some, without};
ghost use Rattle.stored.specs.Bytes.{entries};
ghost use Rattle.stored.specs.Layout.{most_shown};
ghost use Rattle.replay.specs.Tables.{room_of_tables};
ghost use Rattle.replay.specs.Replay.{entry_at};

use crate::Spot;
use crate::tables::Objects;
use scene::Entry;
use stored::{MOST_SHOWN, Shown};

pub fn empty() -> Shown
    ensures { (entries result ≡ []) × (result.n ≡ 0) × (result.refusal ≡ 0) }
{
    let e = Entry {
        object: 0,
        state: 0,
        x: 0,
        y: 0,
    };
    let list = [e; MOST_SHOWN];
    Shown {
        refusal: 0,
        n: 0,
        list,
    }
}

pub fn refused(s: Shown, refusal: u8) -> Shown
    ensures { (result.refusal ≡ refusal) × (result.n ≡ s.n) }
{
    Shown { refusal, ..s }
}

// An entry goes last, in place: in a loop a list that is handed on by value is copied at each turn.
fn append(s: &mut Shown, e: Entry)
    requires { s.old.n < most_shown }
    ensures { (entries s.new ≡ entries s.old ++ e ∷ []) × (s.new.n ≡ s.old.n + 1) × (s.new.refusal ≡ s.old.refusal) }
{
    s.list[s.n] = e;
    s.n += 1;
}

// An entry goes last.
pub fn push(s: Shown, e: Entry) -> Shown
    requires { s.n < most_shown }
    ensures { (entries result ≡ entries s ++ e ∷ []) × (result.n ≡ s.n + 1) × (result.refusal ≡ s.refusal) }
{
    let mut t = s;
    append(&mut t, e);
    t
}

// The entry of an object's image at a place.
pub fn entry_at(object: u32, state: u32, at: Spot) -> Entry
    requires { (at.x < 4294967296) × (at.y < 4294967296) }
    ensures { result ≡ entry_at object state at }
{
    Entry {
        object,
        state,
        x: at.x as u32,
        y: at.y as u32,
    }
}

// A draw of e (boxes true), or a hide of e's object, removes f.
pub fn goes(objects: Objects<'_>, boxes: bool, e: Entry, f: Entry) -> bool
    ensures { (v : List ℕ) → result ≡ Rattle.replay.specs.Replay.goes
        (room_of_tables objects.entry.rows.now v objects.entry.size) boxes e f }
{
    f.object == e.object || boxes && objects.same_box(f, e)
}

// The entries that a draw of e (boxes true), or a hide of e's object, keeps.
pub fn kept(objects: Objects<'_>, boxes: bool, s: Shown, e: Entry) -> Shown
    requires { s.n ≤ most_shown }
    ensures { ((v : List ℕ) → entries result ≡ without
        (Rattle.replay.specs.Replay.goes (room_of_tables objects.entry.rows.now v objects.entry.size) boxes e) (entries s))
        × (result.n ≤ s.n) × (result.refusal ≡ 0) }
{
    let mut t = empty();
    for f in &s.list[..s.n] {
        if !goes(objects, boxes, e, *f) {
            append(&mut t, *f);
        }
    }
    t
}

pub fn is_shown(s: Shown, object: u32) -> bool
    requires { s.n ≤ most_shown }
    ensures { result ≡ some (λ e. eqb e.object object) (entries s) }
{
    s.list[..s.n].iter().any(|e| e.object == object)
}
