// The pixels of a whole strip, in the order in which they are made: turn by turn.
ghost use Rattle.std.specs.Prelude.{◌≤◌, length, drop, get_or};
ghost use Rattle.bits.specs.Bits.{bits_of};
ghost use Rattle.strip.specs.Strip.{decode};
ghost use Rattle.decode.specs.Paint.{Decoded};

use crate::groups::turn;
use bits::Cursor;
use refusal::Refusal;
use strip::State;

// The pixels of a body, whose first colour is pixel 0, into the first `total` bytes of `out`, by one of the methods.
fn paint<const SECOND: bool>(
    body: &[u8],
    w: u32,
    total: usize,
    out: &mut [u8],
) -> Result<(), Refusal>
    requires { (w ≤ 8) × (1 ≤ total) × (total ≤ 1600) × (2 ≤ length body.now) × (total ≤ length out.old) }
    ensures { Decoded total (decode SECOND w total 1 (get_or body.now 1 0) 1 (bits_of (drop 2 body.now))) out.new result }
{
    let first = body[1];
    out[0] = first;
    let mut st = State {
        i: 1,
        colour: first,
        step: 1,
        cur: Cursor::new(2),
    };
    while st.i < total {
        st = turn::<SECOND>(body, w, total, st, out)?;
    }
    Ok(())
}

// The same by the method that is given.
pub(crate) fn paint_bits(
    body: &[u8],
    second: bool,
    w: u32,
    total: usize,
    out: &mut [u8],
) -> Result<(), Refusal>
    requires { (w ≤ 8) × (1 ≤ total) × (total ≤ 1600) × (2 ≤ length body.now) × (total ≤ length out.old) }
    ensures { Decoded total (decode second w total 1 (get_or body.now 1 0) 1 (bits_of (drop 2 body.now))) out.new result }
{
    if second {
        paint::<true>(body, w, total, out)
    } else {
        paint::<false>(body, w, total, out)
    }
}
