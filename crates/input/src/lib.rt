// What a program is given: a buffer filled from any reader, and files by their names in bytes.
#![tactic(auto)]

pub mod named;

ghost use Rattle.std.specs.Prelude.{◌≡◌, ◌≤◌, ◌<◌, length, take, IfOk, IfSome, IfNone};
ghost use Rattle.std.specs.Io.KnownBytes.{Consumes, IsAtEnd};

use std::io;
use std::io::Read;

// Reads until the buffer is full or the input ends: how many bytes the buffer's front has of it.
pub fn read_full<R: Read>(input: &mut R, buffer: &mut [u8]) -> io::Result<usize>
    ensures size { length buffer.new ≡ length buffer.old }
    ensures in_bounds { IfOk result (λ n. n ≤ length buffer.new) }
    ensures front { IfOk result (λ n. Consumes (R.remaining input.old) (R.remaining input.new) (take n buffer.new)) }
    ensures end { IfOk result (λ n. n < length buffer.new → IsAtEnd (R.remaining input.new)) }
{
    // Not std's read_exact: an input that ends sooner is no error here.
    let mut done = 0;
    while done < buffer.len() {
        let n = input.read(&mut buffer[done..])?;
        if n == 0 {
            break;
        }
        done += n;
    }
    Ok(done)
}

// Reads the whole input: how many bytes the buffer's front has of it, or None where it is longer than the buffer.
pub fn read_whole<R: Read>(input: &mut R, buffer: &mut [u8]) -> io::Result<Option<usize>>
    ensures size { length buffer.new ≡ length buffer.old }
    ensures in_bounds { IfOk result (λ all. IfSome all (λ n. n ≤ length buffer.new)) }
    ensures all { IfOk result (λ all. IfSome all (λ n. IfSome (R.remaining input.old) (λ bytes. take n buffer.new ≡ bytes))) }
    ensures longer { IfOk result (λ all. IfNone all (IfSome (R.remaining input.old) (λ bytes. length buffer.new < length bytes))) }
{
    let n = read_full(input, buffer)?;
    let mut more = [0u8; 1];
    if read_full(input, &mut more)? == 0 {
        Ok(Some(n))
    } else {
        Ok(None)
    }
}
