// The operations of both methods, read at a place of a strip: where each leads, and the colour of the pixels it gives (document 01,
// "Strips of pixels"). Nothing is painted here, so the test of a strip steps by the same functions as its painting.
ghost use Rattle.std.specs.Prelude.{◌≡◌, ℕ, ◌+◌, ◌<◌, ◌≤◌, true, false, List, if◌then◌else◌};
ghost use Rattle.bits.specs.Bits.{Held, Full, rest};
ghost use Rattle.bits.specs.Reader.{One};
ghost use Rattle.strip.specs.Strip.{plus, minus, run_pixels};
ghost use Rattle.strip.specs.Place.{op_length, Whole, run_ahead, kept_by, Leads, Cut, Stepped, Fits};

use crate::State;
use bits::Cursor;
use refusal::{Reason, Refusal};
use std::num::{wrapping_add_u8, wrapping_sub_u8};

// One of two values. A value that is chosen so needs no branch, which a picture's operations would make unpredictable.
fn either(test: bool, a: u8, b: u8) -> u8
    ensures { result ≡ (if test then a else b) }
{
    if test { a } else { b }
}

// Colours and steps are bytes, and wrap on purpose.
fn less(a: u8, b: u8) -> u8
    ensures { result ≡ minus a b }
{
    wrapping_sub_u8(a, b)
}

fn more(a: u8, b: u8) -> u8
    ensures { result ≡ plus a b }
{
    wrapping_add_u8(a, b)
}

// How many bits the operation takes that starts with a 1 bit and isn't a run; `more` says that its second bit is 1 too.
fn length_of(second: bool, w: u32, more: bool) -> u32
    requires { w ≤ 8 }
    ensures { (result ≡ op_length second w more) × (result ≤ 10) }
{
    match (more, second) {
        (false, _) => 2 + w,
        (true, true) => 5,
        (true, false) => 3,
    }
}

// Whether a run of the second method stands ahead: `11` and d = 4, which from bit 0 up is 19.
pub fn run_at(second: bool, cur: Cursor) -> bool
    requires { (5 ≤ cur.bits) × (cur.bits ≤ 63) }
    ensures { (s : List ℕ) → result ≡ run_ahead second (rest s cur) }
{
    second & (cur.take(5).value == 19)
}

// The same where fewer bits may be left than a run starts with.
fn run_left(second: bool, cur: Cursor) -> bool
    requires { cur.bits ≤ 63 }
    ensures { (s : List ℕ) → Full s cur → result ≡ run_ahead second (rest s cur) }
{
    cur.holds(5) && run_at(second, cur)
}

// `10` a new index, and the step is 1 again; `110` and `111` of the first method: the step, negated for `111`, is subtracted.
fn first_op(st: State, w: u32) -> State
    requires { (w ≤ 8) × Whole false w st.cur × (st.cur.bits ≤ 63) × (st.i < 1600) }
    ensures { Leads false w st result }
{
    let cur = st.cur;
    let head = cur.take(2);
    let walk = head.value / 2 == 1;
    let behind = head.next;
    let turned = either(behind.peek(1) == 1, less(0, st.step), st.step);
    let walked = less(st.colour, turned);
    let next = cur.take(length_of(false, w, walk)).next;
    State {
        i: st.i + 1,
        colour: either(walk, walked, behind.peek(w)),
        step: either(walk, turned, 1),
        cur: next,
    }
}

// `10` a new index; `11` and d of the second method: colour + d − 4.
fn second_op(st: State, w: u32) -> State
    requires { (w ≤ 8) × Whole true w st.cur × (st.cur.bits ≤ 63) × (st.i < 1600) }
    ensures { Leads true w st result }
{
    let cur = st.cur;
    let head = cur.take(2);
    let change = head.value / 2 == 1;
    let behind = head.next;
    let changed = less(more(st.colour, behind.peek(3)), 4);
    let next = cur.take(length_of(true, w, change)).next;
    State {
        i: st.i + 1,
        colour: either(change, changed, behind.peek(w)),
        step: either(change, st.step, 1),
        cur: next,
    }
}

// The operation that starts with a 1 bit, where it isn't a run.
pub fn op(second: bool, w: u32, st: State) -> State
    requires { (w ≤ 8) × Whole second w st.cur × (st.cur.bits ≤ 63) × (st.i < 1600) }
    ensures { Leads second w st result }
{
    if second {
        second_op(st, w)
    } else {
        first_op(st, w)
    }
}

// k keeps, behind which the bits go on at `next`.
pub fn kept(st: State, k: u32, next: Cursor) -> State
    requires { (k ≤ 63) × (st.i < 1600) }
    ensures { result ≡ kept_by k next st }
{
    State {
        i: st.i + k as usize,
        cur: next,
        ..st
    }
}

// Whether all bits of the operation that starts with a 1 bit are held, where it isn't a run.
fn whole(second: bool, w: u32, cur: Cursor) -> bool
    requires { (w ≤ 8) × (cur.bits ≤ 63) }
    ensures { (result ≡ true → Whole second w cur) × (result ≡ false → (s : List ℕ) → Full s cur → One (rest s cur) → Cut second w s cur) }
{
    cur.holds(2) && cur.holds(length_of(second, w, cur.take(2).value / 2 == 1))
}

// One operation that isn't a run, in a strip of `total` pixels.
fn one(second: bool, w: u32, total: usize, st: State) -> Result<State, Refusal>
    requires { (w ≤ 8) × (st.cur.bits ≤ 63) × (st.i < total) × (total ≤ 1600) }
    ensures { (s : List ℕ) → Held s st.cur → Full s st.cur → run_ahead second (rest s st.cur) ≡ false → Stepped second w total s st result }
{
    let cur = st.cur;
    if !cur.holds(1) {
        return Err(Reason::BytesRunOut.into());
    }
    let first = cur.take(1);
    let next = first.next;
    if first.value == 0 {
        return Ok(kept(st, 1, next));
    }
    if !whole(second, w, cur) {
        return Err(Reason::BytesRunOut.into());
    }
    Ok(op(second, w, st))
}

// How many pixels a run of n gives: 0 means 256.
pub fn run_pixels(n: u64) -> usize
    requires { n < 256 }
    ensures { (result ≡ run_pixels n) × (1 ≤ result) × (result ≤ 256) }
{
    if n == 0 { 256 } else { n as usize }
}

// A run, in a strip of `total` pixels: its number is looked for before its pixels are measured.
fn run(total: usize, st: State) -> Result<State, Refusal>
    requires { (st.cur.bits ≤ 63) × (st.i < total) × (total ≤ 1600) }
    ensures { (w : ℕ) (s : List ℕ) → Held s st.cur → Full s st.cur → run_ahead true (rest s st.cur) ≡ true → Stepped true w total s st result }
{
    let cur = st.cur;
    if !cur.holds(13) {
        return Err(Reason::BytesRunOut.into());
    }
    let number = cur.take(5).next.take(8);
    let to = st.i + run_pixels(number.value);
    if total < to {
        return Err(Reason::PastTheStrip.into());
    }
    Ok(State {
        i: to,
        cur: number.next,
        ..st
    })
}

// The next operation, in a strip of `total` pixels.
pub fn step(second: bool, w: u32, total: usize, st: State) -> Result<State, Refusal>
    requires { (w ≤ 8) × (st.cur.bits ≤ 63) × (st.i < total) × (total ≤ 1600) }
    ensures { (s : List ℕ) → Held s st.cur → Full s st.cur → Stepped second w total s st result }
{
    let cur = st.cur;
    if run_left(second, cur) {
        return run(total, st);
    }
    one(second, w, total, st)
}

// The same place, with at least 56 bits held or all that are left.
pub fn refill(body: &[u8], st: State) -> State
    requires { Held body.now st.cur }
    ensures { (result.i ≡ st.i) × (result.colour ≡ st.colour) × (result.step ≡ st.step) × Held body.now result.cur
        × Full body.now result.cur × (rest body.now result.cur ≡ rest body.now st.cur) }
{
    State {
        cur: st.cur.refill(body),
        ..st
    }
}

// Whether so many bits are held and so many pixels are left, and no run stands ahead.
pub fn fits(second: bool, total: usize, bits: u32, pixels: usize, st: State) -> bool
    requires { (5 ≤ bits) × (st.cur.bits ≤ 63) × (st.i ≤ total) × (total ≤ 1600) × (pixels ≤ 100) }
    ensures { result ≡ true → Fits second total bits pixels st }
{
    st.cur.holds(bits) && !run_at(second, st.cur) && st.i + pixels <= total
}
