// Text and numbers put into a lent buffer from `at` on; each function answers where its text ends.
ghost use Rattle.std.specs.Prelude.{◌+◌, ◌≤◌, length};
ghost use Rattle.listing.specs.Decimal.{decimal as Decimal·decimal};
ghost use Rattle.listing.specs.Listing.{field, signed_field};
ghost use Rattle.listing.specs.Put.{Put};

use number::buffer::copy;
use number::{ahead_of, behind_of};

// A text as it is given.
pub fn text(out: &mut [u8], at: usize, bytes: &[u8]) -> usize
    requires { at + length bytes.now ≤ length out.old }
    ensures { Put bytes.now out.old out.new at result }
{
    let n = bytes.len();
    copy(bytes, 0, n, out, at);
    at + n
}

// The decimal digits of n: those of n / 10, then its last.
fn decimal(out: &mut [u8], at: usize, n: usize) -> usize
    requires { at + length (Decimal·decimal n) ≤ length out.old }
    ensures { Put (Decimal·decimal n) out.old out.new at result }
{
    if n < 10 {
        out[at] = 0x30 + n as u8;
        return at + 1;
    }
    let end = decimal(out, at, n / 10);
    out[end] = 0x30 + (n % 10) as u8;
    end + 1
}

// A number behind a text.
pub fn number(out: &mut [u8], at: usize, before: &[u8], n: usize) -> usize
    requires { at + length (field before.now n) ≤ length out.old }
    ensures { Put (field before.now n) out.old out.new at result }
{
    let end = text(out, at, before);
    decimal(out, end, n)
}

// A signed number behind a text.
pub fn signed(out: &mut [u8], at: usize, before: &[u8], n: i32) -> usize
    requires { at + length (signed_field before.now n) ≤ length out.old }
    ensures { Put (signed_field before.now n) out.old out.new at result }
{
    let end = text(out, at, before);
    let below = behind_of(n);
    if 0 < below {
        return number(out, end, b"-", below);
    }
    decimal(out, end, ahead_of(n))
}
