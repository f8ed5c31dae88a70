// The pixels of a strip, in the order in which they are made: keeps are painted eight at a time, further than they reach, and the operation
// behind them over the rest. What is painted past a place is painted again from there on. The method is a const parameter: where it is asked
// for at every operation, a load takes a tenth more.
ghost use Rattle.std.specs.Prelude.{◌≡◌, false, List, ℕ, ◌+◌, ◌≤◌, ◌<◌, length};
ghost use Rattle.bits.specs.Bits.{Held, rest};
ghost use Rattle.strip.specs.Place.{run_ahead};
ghost use Rattle.decode.specs.Paint.{Advances, Turned};

use number::buffer::fill;
use refusal::Refusal;
use strip::State;
use strip::operations::{fits, kept, op, refill, run_at, step};

// Up to eight keeps, and the operation behind them unless it is a run, which is an operation by itself.
fn group<const SECOND: bool>(w: u32, st: State, out: &mut [u8]) -> State
    requires { (w ≤ 8) × (18 ≤ st.cur.bits) × (st.cur.bits ≤ 63) × (st.i + 9 ≤ 1600) × (st.i + 9 ≤ length out.old) }
    ensures { (st.cur.bits ≤ result.cur.bits + 18) × (result.cur.bits ≤ 63)
        × ((s : List ℕ) → run_ahead SECOND (rest s st.cur) ≡ false → st.i < result.i) × Advances SECOND w 9 st out.old result out.new }
{
    let zeros = st.cur.zeros();
    let next = zeros.next;
    fill(out, st.i, 8, st.colour);
    let a = kept(st, zeros.count, next);
    if zeros.count == 8 {
        return a;
    }
    if run_at(SECOND, next) {
        return a;
    }
    let b = op(SECOND, w, a);
    out[a.i] = b.colour;
    b
}

// Many operations: 32 keeps at once, or three groups.
fn groups<const SECOND: bool>(w: u32, st: State, out: &mut [u8]) -> State
    requires { (w ≤ 8) × (54 ≤ st.cur.bits) × (st.cur.bits ≤ 63) × (st.i + 32 ≤ 1600) × (st.i + 32 ≤ length out.old) }
    ensures moves_on { (s : List ℕ) → run_ahead SECOND (rest s st.cur) ≡ false → st.i < result.i }
    ensures advances { Advances SECOND w 32 st out.old result out.new }
{
    let many = st.cur.take(32);
    if many.value == 0 {
        let next = many.next;
        fill(out, st.i, 32, st.colour);
        return kept(st, 32, next);
    }
    let a = group::<SECOND>(w, st, out);
    let b = group::<SECOND>(w, a, out);
    group::<SECOND>(w, b, out)
}

// As many operations as the bits held and the pixels left allow, or one. A group has at most eight keeps and an operation of ten bits: 18 bits,
// nine pixels.
pub(crate) fn turn<const SECOND: bool>(
    body: &[u8],
    w: u32,
    total: usize,
    from: State,
    out: &mut [u8],
) -> Result<State, Refusal>
    requires { (w ≤ 8) × Held body.now from.cur × (from.i < total) × (total ≤ 1600) × (total ≤ length out.old) }
    ensures { Turned SECOND w total body.now from out.old out.new result }
{
    let st = refill(body, from);
    if fits(SECOND, total, 54, 32, st) {
        return Ok(groups::<SECOND>(w, st, out));
    }
    if fits(SECOND, total, 18, 9, st) {
        return Ok(group::<SECOND>(w, st, out));
    }
    let to = step(SECOND, w, total, st)?;
    fill(out, st.i, to.i - st.i, to.colour);
    Ok(to)
}
