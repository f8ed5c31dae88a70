// Leaps of the test: four rows of operations in one view of the body, or 32 keeps, or a run, while there is room for any of them. A leap goes
// where the operations lead or stays; what is left, and the number of a refusal, is the careful test's (src/lib.rt).
ghost use Rattle.std.specs.Prelude.{◌≡◌, Bool, true, List, ℕ, ◌+◌, ◌-◌, ◌*◌, ◌/◌, ◌%◌, ◌^◌, ◌≤◌, ◌<◌, length, drop, get_or};
ghost use Rattle.bits.specs.Bits.{Held, rest, bits_of, Views};
ghost use Rattle.strip_test.specs.WholeOps.{Rows, Small};
ghost use Rattle.strip_test.specs.Leap.{widened, Leaps, Leapt, Roomy, Begun};

use crate::way::Way;
use bits::{Cursor, view};
use number::wide_u16;
use strip::State;
use strip::operations::run_pixels;

// A place in the test of a strip: pixel i is the next, and its bits start at bit p of the body.
#[derive(Clone, Copy, Debug, PartialEq, Eq)]
pub(crate) struct Spot {
    p: usize,
    i: usize,
}

// A spot in each of two bodies.
#[derive(Clone, Copy, Debug, PartialEq, Eq)]
struct Spots {
    a: Spot,
    b: Spot,
}

// A place in each of two bodies, for the careful test.
#[derive(Clone, Copy, Debug, PartialEq, Eq)]
pub(crate) struct States {
    pub a: State,
    pub b: State,
}

// The bits ahead, and the sum of the rows that were looked up.
#[derive(Clone, Copy, Debug, PartialEq, Eq)]
struct Sight {
    v: u64,
    sum: usize,
}

// A row with the index's bits counted.
fn widen(row: u16, w: u32) -> u16
    requires { Small row × (w ≤ 8) }
    ensures { result ≡ widened w row }
{
    row % 16 + row / 256 * (2 + w as u16) + row / 16 % 16 * 256
}

// The rows for w bits to an index. A body's rows are widened once, so that a look-up needs no more than its row and a shift.
fn widen_rows(rows: &[u16], w: u32) -> [u16; 256]
    requires { (256 ≤ length rows.now) × ((x : ℕ) → x < 256 → Small (get_or rows.now x 0)) × (w ≤ 8) }
    ensures { (256 ≤ length result) × ((second : Bool) → Rows second rows.now → Leaps second w result) }
{
    let mut out = [0u16; 256];
    for x in 0..256 {
        out[x] = widen(rows[x], w);
    }
    out
}

// One row: the operations at the front of the next eight bits.
fn look(table: &[u16], s: Sight) -> Sight
    requires { (256 ≤ length table.now) × (s.sum ≤ 200000) }
    ensures { (result.v ≡ s.v / 2 ^ (get_or table.now (s.v % 256) 0 % 64)) × (result.sum ≡ s.sum + get_or table.now (s.v % 256) 0)
        × (result.sum < s.sum + 65536) }
{
    let v = s.v;
    let row = wide_u16(table[(v % 256) as usize]);
    Sight {
        v: v >> (row % 64) as u32,
        sum: s.sum + row,
    }
}

// Four rows, of at most 16 bits each: 57 bits in view show all eight bits of each.
fn four(table: &[u16], v: u64, s: Spot) -> Spot
    requires { (256 ≤ length table.now) × (s.p ≤ 32768) × (s.i ≤ 1600) }
    ensures { (result.p ≤ s.p + 255) × (result.i ≤ s.i + 1023) × ((second : Bool) (w total : ℕ) (b : List ℕ) → w ≤ 8
        → Leaps second w table.now → Views b s.p v → Roomy total b s → Leapt second w total b s result) }
{
    let one = look(table, Sight { v, sum: 0 });
    let two = look(table, one);
    let three = look(table, two);
    let sum = look(table, three).sum;
    Spot {
        p: s.p + sum % 256,
        i: s.i + sum / 256,
    }
}

// The run that stands ahead, if its pixels fit.
fn run_to(total: usize, v: u64, s: Spot) -> Spot
    requires { (s.p ≤ 32768) × (s.i ≤ 1600) × (v % 32 ≡ 19) }
    ensures { (result.p ≤ s.p + 255) × (result.i ≤ s.i + 1023)
        × ((w : ℕ) (b : List ℕ) → Views b s.p v → Roomy total b s → Leapt true w total b s result) }
{
    let n = run_pixels(v / 32 % 256);
    if total < s.i + n {
        return s;
    }
    Spot {
        p: s.p + 13,
        i: s.i + n,
    }
}

// 32 keeps, a run, or four rows.
fn leap(body: &[u8], second: bool, total: usize, table: &[u16], s: Spot) -> Spot
    requires { (256 ≤ length table.now) × (s.p ≤ 32768) × (total ≤ 1600) × Roomy total body.now s }
    ensures { (result.p ≤ s.p + 255) × (result.i ≤ s.i + 1023)
        × ((w : ℕ) → w ≤ 8 → Leaps second w table.now → Leapt second w total body.now s result) }
{
    let v = view(body, s.p);
    if v % 4294967296 == 0 {
        return Spot {
            p: s.p + 32,
            i: s.i + 32,
        };
    }
    if second & (v % 32 == 19) {
        return run_to(total, v, s);
    }
    four(table, v, s)
}

// How many bits of a body are leapt over: no operations of a strip take more.
fn bits_of(body: &[u8]) -> usize
    ensures { (result ≤ 32768) × (result ≤ 8 * length body.now) }
{
    8 * body.len().min(4096)
}

fn roomy(end: usize, total: usize, s: Spot) -> bool
    requires { (s.p ≤ 65536) × (s.i ≤ 65536) }
    ensures { result ≡ true → (s.p + 72 ≤ end) × (s.i + 32 ≤ total) }
{
    (s.p + 72 <= end) & (s.i + 32 <= total)
}

// As far as leaps go.
fn leaps(body: &[u8], second: bool, total: usize, table: &[u16], from: Spot) -> Spot
    requires { (256 ≤ length table.now) × (from.p ≤ 65536) × (from.p ≤ 8 * length body.now) × (from.i ≤ total) × (total ≤ 1600) }
    ensures { (w : ℕ) → w ≤ 8 → Leaps second w table.now → Leapt second w total body.now from result }
{
    let end = bits_of(body);
    let mut s = from;
    while roomy(end, total, s) {
        let to = leap(body, second, total, table, s);
        if to.i <= s.i {
            return s;
        }
        s = to;
    }
    s
}

// In two bodies by turns: neither's look-ups wait for the other's, so that the processor does both at once. It ends where the first body's leap stays; one
// of the second's that stays leaves its spot as it is, and the leaps of one body go on from there.
fn leaps_in_two(
    x: &[u8],
    second_x: bool,
    tx: &[u16],
    y: &[u8],
    second_y: bool,
    ty: &[u16],
    total: usize,
    from: Spot,
) -> Spots
    requires { (256 ≤ length tx.now) × (256 ≤ length ty.now) × (from.p ≤ 65536) × (from.p ≤ 8 * length x.now) × (from.p ≤ 8 * length y.now)
        × (from.i ≤ total) × (total ≤ 1600) }
    ensures { (result.a.p ≤ 65536) × (result.b.p ≤ 65536)
        × ((w : ℕ) → w ≤ 8 → Leaps second_x w tx.now → Leapt second_x w total x.now from result.a)
        × ((w : ℕ) → w ≤ 8 → Leaps second_y w ty.now → Leapt second_y w total y.now from result.b) }
{
    let end_x = bits_of(x);
    let end_y = bits_of(y);
    let mut a = from;
    let mut b = from;
    while roomy(end_x, total, a) & roomy(end_y, total, b) {
        let to_a = leap(x, second_x, total, tx, a);
        let to_b = leap(y, second_y, total, ty, b);
        if to_a.i <= a.i {
            return Spots { a, b };
        }
        a = to_a;
        b = to_b;
    }
    Spots { a, b }
}

// The same place for the careful test. No refusal depends on a colour or a step, so any will do.
fn state_at(body: &[u8], s: Spot) -> State
    requires { s.p ≤ 8 * length body.now }
    ensures { (result.i ≡ s.i) × Held body.now result.cur × (rest body.now result.cur ≡ drop s.p (bits_of body.now)) }
{
    let cur = Cursor::new(s.p / 8).refill(body);
    let next = cur.take((s.p % 8) as u32).next;
    State {
        i: s.i,
        colour: 0,
        step: 0,
        cur: next,
    }
}

// Where the careful test starts: behind the leaps. A short body isn't worth its rows.
pub(crate) fn start(body: &[u8], way: Way, total: usize) -> State
    requires { (1 ≤ total) × (total ≤ 1600) × (2 ≤ length body.now) }
    ensures { Begun way.second way.w total body.now result }
{
    let first = Spot { p: 16, i: 1 };
    if body.len() < 96 {
        return state_at(body, first);
    }
    let table = widen_rows(way.rows(), way.w);
    state_at(body, leaps(body, way.second, total, &table, first))
}

// The same of two bodies.
pub(crate) fn start_two(x: &[u8], u: Way, y: &[u8], v: Way, total: usize) -> States
    requires { (1 ≤ total) × (total ≤ 1600) × (2 ≤ length x.now) × (2 ≤ length y.now) }
    ensures { Begun u.second u.w total x.now result.a × Begun v.second v.w total y.now result.b }
{
    let tx = widen_rows(u.rows(), u.w);
    let ty = widen_rows(v.rows(), v.w);
    let first = Spot { p: 16, i: 1 };
    let two = leaps_in_two(x, u.second, &tx, y, v.second, &ty, total, first);
    States {
        a: state_at(x, leaps(x, u.second, total, &tx, two.a)),
        b: state_at(y, leaps(y, v.second, total, &ty, two.b)),
    }
}
