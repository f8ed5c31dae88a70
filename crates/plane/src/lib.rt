// One strip of a mask plane: a body to its rows, or the number of its refusal (document 01, "Strips of masks").
#![tactic(auto)]

ghost use Rattle.std.specs.Prelude.{◌≡◌, ◌+◌, ◌≤◌, length};
ghost use Rattle.strip.specs.Strip.{made_of, Filled};
ghost use Rattle.plane.specs.Mask.{rows_of, literals, RowsAt};

use refusal::{Reason, Refusal};

// What the operation at a place asks: so many literal rows, or so many copies of one byte. Its data starts at the byte after it.
#[derive(Clone, Copy, Debug, PartialEq, Eq)]
pub enum Rows {
    Literals(usize),
    Copies(usize),
}

// The operation at a place with `left` rows to go. Passing the last row is tested before missing bytes.
pub fn rows_at(body: &[u8], at: usize, left: usize) -> Result<Rows, Refusal>
    requires { 1 ≤ left }
    ensures { RowsAt body.now at left result }
{
    if body.len() <= at {
        return Err(Reason::BytesRunOut.into());
    }
    let b = usize::from(body[at]);
    let more = body.len() - at - 1;
    if b < 0x80 {
        if left < b {
            return Err(Reason::PastTheStrip.into());
        }
        if more < b {
            return Err(Reason::BytesRunOut.into());
        }
        return Ok(Rows::Literals(b));
    }
    let n = b - 0x80;
    if left < n {
        return Err(Reason::PastTheStrip.into());
    }
    if more < 1 {
        return Err(Reason::BytesRunOut.into());
    }
    Ok(Rows::Copies(n))
}

// One mask strip body of h rows into the first h bytes of `out`.
pub fn mask_rows(body: &[u8], h: usize, out: &mut [u8]) -> Result<(), Refusal>
    requires { h ≤ length out.old }
    ensures { Filled h (rows_of body.now h (literals 0)) out.old out.new result }
{
    // No `for`: each operation says how many bytes and rows it takes.
    let mut at: usize = 0;
    let mut i: usize = 0;
    while i < h {
        match rows_at(body, at, h - i)? {
            Rows::Literals(n) => {
                out[i..i + n].copy_from_slice(&body[at + 1..at + 1 + n]);
                i += n;
                at = at + 1 + n;
            }
            Rows::Copies(n) => {
                out[i..i + n].fill(body[at + 1]);
                i += n;
                at += 2;
            }
        }
    }
    Ok(())
}

// The test of one mask strip body of h rows: whether it has its rows, or the number of its refusal.
pub fn test_rows(body: &[u8], h: usize) -> Result<(), Refusal>
    ensures { result ≡ made_of (rows_of body.now h (literals 0)) }
{
    // No `for`, as in `mask_rows`.
    let mut at: usize = 0;
    let mut left = h;
    while 0 < left {
        match rows_at(body, at, left)? {
            Rows::Literals(n) => {
                left -= n;
                at = at + 1 + n;
            }
            Rows::Copies(n) => {
                left -= n;
                at += 2;
            }
        }
    }
    Ok(())
}
