// Runs bodies whose decoding is written down elsewhere and writes what they read to, in hexadecimal: document 01's worked rows, the 39-byte
// strip of source 000, and each code of "Strips of pixels". The file stdout holds what they must be.
#![tactic(auto)]

ghost use Rattle.std.specs.Prelude.{◌≤◌, ◌*◌};

use refusal::Refusal;
use std::io;

fn bytes(rt: &impl Print, values: &[u8]) -> io::Result<()> {
    for value in values {
        print!(rt; "{value:02x}")?;
    }
    println!(rt; "")
}

fn refused(rt: &impl Print, refusal: Refusal) -> io::Result<()> {
    println!(rt; "refused {}", refusal.number())
}

// A strip body of h rows.
fn pixels(rt: &impl Print, h: usize, body: &[u8]) -> io::Result<()>
    requires { h ≤ 200 }
{
    let mut out = [0u8; 1600];
    let n = 8 * h;
    match decode::decode_strip(body, h, &mut out) {
        Ok(_) => bytes(rt, &out[..n]),
        Err(refusal) => refused(rt, refusal),
    }
}

// A mask body of h rows.
fn rows(rt: &impl Print, h: usize, body: &[u8]) -> io::Result<()>
    requires { h ≤ 200 }
{
    let mut out = [0u8; 200];
    match plane::mask_rows(body, h, &mut out) {
        Ok(()) => bytes(rt, &out[..h]),
        Err(refusal) => refused(rt, refusal),
    }
}

// Document 01's worked rows 1 and 3 to 9, and change request 5's rows 10 to 13.
fn worked(rt: &impl Print) -> io::Result<()> {
    rows(rt, 6, b"\x83\x00\x03\x01\x02\x03")?;
    pixels(rt, 2, b"\x1C\x05\xB6\x97\x00\x00")?;
    pixels(rt, 2, b"\x11\x05\x80\xFC\x00")?;
    pixels(rt, 2, b"\x1B\x05\x80\xFC\x00")?;
    pixels(rt, 2, b"\x44\x10\x63\x36\x00")?;
    pixels(rt, 1, b"\x44\x02\x03\x00")?;
    pixels(rt, 1, b"\x1C\x05")?;
    pixels(rt, 1, b"\x1C\x05\x00")?;
    rows(rt, 6, b"\x87\x00")?;
    pixels(rt, 2, b"\x44\x10\x63\x36\xE4\x07")?;
    pixels(rt, 33, b"\x44\x05\x13\x20\x3F\x00")?;
    pixels(rt, 32, b"\x44\x05\x13\x00")?;
    pixels(rt, 1, b"\x01\x01\x02\x03\x04\x05\x06\x07\x08")
}

// The worked example of source 000, 200 rows.
fn source_000(rt: &impl Print) -> io::Result<()> {
    let body = b"\x85\x00\x0F\x01\x0D\x03\x0D\x00\x40\x20\x04\x48\x84\x60\x80\x40\x04\x02\x83\x00\
        \x02\x02\x05\x8F\x00\x01\x04\x85\x00\x05\x01\x20\x11\x02\x01\xFF\x00\x96\x00";
    rows(rt, 200, body)?;
    rewritten(rt, 200, body)
}

// A plane of one strip of h rows, read from a body and written again as a whole ZP01 block.
fn rewritten(rt: &impl Print, h: usize, body: &[u8]) -> io::Result<()>
    requires { h ≤ 200 }
{
    let mut read = [0u8; 200];
    let mut block = [0u8; 512];
    let answer = plane::mask_rows(body, h, &mut read).and_then(|()| block_writer::write_plane(
        &read, &mut block, 8, h as u32, 1,
    ));
    match answer {
        Ok(size) if size <= 512 => bytes(rt, &block[..size]),
        Ok(_) => Ok(()),
        Err(refusal) => refused(rt, refusal),
    }
}

// One body under every byte as its code: the codes that are known, and what each reads to.
fn codes(rt: &impl Print, body: [u8; 40]) -> io::Result<()> {
    for code in 0..=255 {
        let mut coded = body;
        coded[0] = code;
        pixels(rt, 3, &coded)?;
    }
    Ok(())
}

fn main(rt: HostRuntime) -> io::Result<()> {
    worked(&rt)?;
    source_000(&rt)?;
    codes(
        &rt,
        *b"\x00\x7F\xA5\x3C\x96\x5B\xE1\x0F\x2D\xC3\x78\x99\x42\x17\xD4\xBB\
        \x66\x01\xFE\x8D\x33\x5A\xC6\x29\x70\x9E\xE7\x14\xAB\x4D\x82\xF3\x38\x65\xDA\x0C\xB1\x5F\x96\x21",
    )
}
