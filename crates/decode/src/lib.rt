// The body of one strip to its pixels by rows, or the number of its refusal (document 01, "Strips of pixels"). Its test, which paints nothing, is
// crate strip_test.
#![tactic(auto)]

mod groups;
mod painting;
mod placing;

ghost use Rattle.std.specs.Prelude.{◌*◌, ◌≤◌, length, drop};
ghost use Rattle.strip.specs.Picture.{raw_of, coded_of, strip_of, Answered};

use painting::paint_bits;
use placing::place;
use refusal::{Reason, Refusal};
use strip::Kind;
use strip::codes::kind_of;

// Code 01: the 8h pixel bytes follow the code, by rows.
fn raw(body: &[u8], h: usize, out: &mut [u8]) -> Result<bool, Refusal>
    requires { (h ≤ 200) × (1 ≤ length body.now) × (8 * h ≤ length out.old) }
    ensures { Answered (raw_of h (drop 1 body.now)) out.old out.new result }
{
    if body.len() - 1 < 8 * h {
        return Err(Reason::BytesRunOut.into());
    }
    place(&body[1..], false, h, out);
    Ok(false)
}

// The other codes: after the colour, the bits of the operations.
fn coded(
    body: &[u8],
    second: bool,
    vertical: bool,
    clear: bool,
    w: u32,
    h: usize,
    out: &mut [u8],
) -> Result<bool, Refusal>
    requires { (1 ≤ w) × (w ≤ 8) × (h ≤ 200) × (1 ≤ length body.now) × (8 * h ≤ length out.old) }
    ensures { Answered (coded_of second vertical clear w h (drop 1 body.now)) out.old out.new result }
{
    if body.len() < 2 {
        return Err(Reason::BytesRunOut.into());
    }
    if h == 0 {
        return Ok(clear);
    }
    let mut scratch = [0u8; 1600];
    paint_bits(body, second, w, 8 * h, &mut scratch)?;
    place(&scratch, vertical, h, out);
    Ok(clear)
}

// One strip body of h rows into the first 8h bytes of `out`, by rows.
pub fn decode_strip(body: &[u8], h: usize, out: &mut [u8]) -> Result<bool, Refusal>
    requires { (h ≤ 200) × (8 * h ≤ length out.old) }
    ensures { Answered (strip_of h body.now) out.old out.new result }
{
    if body.len() < 1 {
        return Err(Reason::BytesRunOut.into());
    }
    match kind_of(body[0]) {
        Kind::Raw => raw(body, h, out),
        Kind::Coded {
            second,
            vertical,
            clear,
            width,
        } => coded(body, second, vertical, clear, width, h, out),
        Kind::Unknown => Err(Reason::CodeUnknown.into()),
    }
}
