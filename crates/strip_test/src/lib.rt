// The test of a strip: whether its body has a picture, or the number of its refusal (document 01, "Strips of pixels"). It asks no colour, and goes many
// operations at once by a table of rows: leaps where there is room (src/leap.rt), and with care where there is not.
#![tactic(auto)]

mod leap;
mod rows;
mod way;

ghost use Rattle.std.specs.Prelude.{◌≡◌, IfSome, Bool, true, false, List, ℕ, ◌+◌, ◌*◌, ◌/◌, ◌%◌, ◌≤◌, ◌<◌, length, drop, get_or};
ghost use Rattle.bits.specs.Bits.{Held, bits_of};
ghost use Rattle.strip.specs.Picture.{raw_of, coded_of, strip_of};
ghost use Rattle.strip_test.specs.WholeOps.{Rows, Small};
ghost use Rattle.strip_test.specs.Outcome.{outcome, test_of, Skipped, Tested};
ghost use Rattle.strip_test.specs.Leap.{Begun, Quick};

use crate::leap::{start, start_two};
use crate::way::Way;
use number::wide_u16;
use refusal::{Reason, Refusal};
use strip::codes::kind_of;
use strip::operations::{fits, kept, refill, step};
use strip::{Kind, State};

// What the tests of two strips come to.
#[derive(Clone, Copy, Debug, PartialEq, Eq)]
pub struct Pair {
    pub a: Result<(), Refusal>,
    pub b: Result<(), Refusal>,
}

// How many bits a row's operations take.
fn reach_of(row: usize, w: u32) -> u32
    requires { (row % 16 ≤ 8) × (row / 256 ≤ 1) × (w ≤ 8) }
    ensures { (result ≡ row % 16 + row / 256 * (2 + w)) × (result ≤ 18) }
{
    let bits = (row % 16) as u32;
    if row < 256 { bits } else { bits + (2 + w) }
}

// Skips the whole operations at the front of the next eight bits.
fn skip(rows: &[u16], w: u32, st: State) -> State
    requires { (256 ≤ length rows.now) × ((x : ℕ) → x < 256 → Small (get_or rows.now x 0)) × (w ≤ 8) × (18 ≤ st.cur.bits)
        × (st.cur.bits ≤ 63) × (st.i < 1600) }
    ensures { (st.cur.bits ≤ result.cur.bits + 18) × (result.cur.bits ≤ 63) × (st.i ≤ result.i) × (result.i ≤ st.i + 8)
        × ((s : List ℕ) → Held s st.cur → Held s result.cur) × ((second : Bool) (s : List ℕ) → Rows second rows.now → Skipped second w s st result) }
{
    let cur = st.cur;
    let row = wide_u16(rows[cur.take(8).value as usize]);
    let next = cur.take(reach_of(row, w)).next;
    State {
        i: st.i + row / 16 % 16,
        cur: next,
        ..st
    }
}

// Skips many operations: 32 keeps at once, or three rows.
fn skip_many(rows: &[u16], w: u32, st: State) -> State
    requires { (256 ≤ length rows.now) × ((x : ℕ) → x < 256 → Small (get_or rows.now x 0)) × (w ≤ 8) × (54 ≤ st.cur.bits)
        × (st.cur.bits ≤ 63) × (st.i + 32 ≤ 1600) }
    ensures { (st.i ≤ result.i) × (result.i ≤ st.i + 32) × ((s : List ℕ) → Held s st.cur → Held s result.cur)
        × ((second : Bool) (s : List ℕ) → Rows second rows.now → Skipped second w s st result) }
{
    let many = st.cur.take(32);
    if many.value == 0 {
        let next = many.next;
        return kept(st, 32, next);
    }
    let one = skip(rows, w, st);
    let two = skip(rows, w, one);
    skip(rows, w, two)
}

// Skips as many operations as the bits held and the pixels left allow, or one. A row takes at most eight bits and an index of ten.
fn turn(body: &[u8], way: Way, total: usize, from: State) -> Result<State, Refusal>
    requires { Held body.now from.cur × (from.i < total) × (total ≤ 1600) }
    ensures { Tested way.second way.w total body.now from result }
{
    let Way { second, w, .. } = way;
    let rows = way.rows();
    let st = refill(body, from);
    if fits(second, total, 54, 32, st) {
        let to = skip_many(rows, w, st);
        if st.i < to.i {
            return Ok(to);
        }
    }
    if fits(second, total, 18, 9, st) {
        let to = skip(rows, w, st);
        if st.i < to.i {
            return Ok(to);
        }
    }
    step(second, w, total, st)
}

// The rest of the test of the operations of a body, from the place `from` on.
fn finish(body: &[u8], way: Way, total: usize, from: State) -> Result<(), Refusal>
    requires { (total ≤ 1600) × Begun way.second way.w total body.now from }
    ensures { result ≡ outcome way.second way.w total 1 (bits_of (drop 2 body.now)) }
{
    let mut st = from;
    while st.i < total {
        st = turn(body, way, total, st)?;
    }
    Ok(())
}

// The test of the operations of a body, whose first colour is pixel 0: leaps, and behind them turns.
fn test_bits(body: &[u8], way: Way, total: usize) -> Result<(), Refusal>
    requires { (1 ≤ total) × (total ≤ 1600) × (2 ≤ length body.now) }
    ensures { result ≡ outcome way.second way.w total 1 (bits_of (drop 2 body.now)) }
{
    finish(body, way, total, start(body, way, total))
}

fn test_raw(body: &[u8], h: usize) -> Result<(), Refusal>
    requires { (h ≤ 200) × (1 ≤ length body.now) }
    ensures { result ≡ test_of (raw_of h (drop 1 body.now)) }
{
    if body.len() - 1 < 8 * h {
        return Err(Reason::BytesRunOut.into());
    }
    Ok(())
}

fn test_coded(body: &[u8], way: Way, h: usize) -> Result<(), Refusal>
    requires { (h ≤ 200) × (1 ≤ length body.now) }
    ensures { (vertical clear : Bool) → result ≡ test_of (coded_of way.second vertical clear way.w h (drop 1 body.now)) }
{
    if body.len() < 2 {
        return Err(Reason::BytesRunOut.into());
    }
    if h == 0 {
        return Ok(());
    }
    test_bits(body, way, 8 * h)
}

// The test of one strip body of h rows: whether it has a picture, or the number of its refusal.
pub fn test_strip(body: &[u8], h: usize) -> Result<(), Refusal>
    requires { h ≤ 200 }
    ensures { result ≡ test_of (strip_of h body.now) }
{
    if body.len() < 1 {
        return Err(Reason::BytesRunOut.into());
    }
    match kind_of(body[0]) {
        Kind::Raw => test_raw(body, h),
        Kind::Coded { second, width, .. } => test_coded(body, Way { second, w: width }, h),
        Kind::Unknown => Err(Reason::CodeUnknown.into()),
    }
}

// How a strip body of h rows is tested with another, where it is worth leaps.
fn way_of(body: &[u8], h: usize) -> Option<Way>
    ensures { IfSome result (λ way. Quick way.second h body.now way.w) }
{
    if body.len() < 96 || h == 0 {
        return None;
    }
    match kind_of(body[0]) {
        Kind::Coded { second, width, .. } => Some(Way { second, w: width }),
        Kind::Raw | Kind::Unknown => None,
    }
}

// Two bodies at once, each by the rows of its method.
fn test_both(x: &[u8], u: Way, y: &[u8], v: Way, h: usize) -> Pair
    requires { (h ≤ 200) × Quick u.second h x.now u.w × Quick v.second h y.now v.w }
    ensures { (result.a ≡ test_of (strip_of h x.now)) × (result.b ≡ test_of (strip_of h y.now)) }
{
    let two = start_two(x, u, y, v, 8 * h);
    Pair {
        a: finish(x, u, 8 * h, two.a),
        b: finish(y, v, 8 * h, two.b),
    }
}

// The tests of two strip bodies of h rows: at once where both are worth leaps.
pub fn test_two(x: &[u8], y: &[u8], h: usize) -> Pair
    requires { h ≤ 200 }
    ensures { (result.a ≡ test_of (strip_of h x.now)) × (result.b ≡ test_of (strip_of h y.now)) }
{
    if let (Some(u), Some(v)) = (way_of(x, h), way_of(y, h)) {
        return test_both(x, u, y, v, h);
    }
    Pair {
        a: test_strip(x, h),
        b: test_strip(y, h),
    }
}
