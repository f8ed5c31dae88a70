// The program of ./list: reads a room of at most 65,536 bytes from standard input and lists it; a longer input is `refused 1` (document 01,
// "What the bench and the player do").
#![tactic(auto)]

ghost use Rattle.std.specs.Prelude.{◌≡◌, ◌≤◌, length, take, OnOk, IfSome, MatchOption};
ghost use Rattle.std.specs.Io.KnownBytes.{Appends};
ghost use Rattle.listing.specs.Listing.{listing_of, refused_line};
ghost use Rattle.list_room.specs.Listed.{listed};

use input::read_whole;
use std::io;
use std::io::{Read, Write};

// Puts the listing of the room of that size, or the refusal of a longer one, at the front of the text: how many bytes it has.
fn put_listing(room: &[u8], size: Option<usize>, text: &mut [u8]) -> usize
    requires room { IfSome size (λ n. n ≤ length room.now) }
    requires text { 8192 ≤ length text.old }
    ensures in_bounds { result ≤ length text.new }
    ensures front { MatchOption size (take result text.new ≡ refused_line 1) (λ n. take result text.new ≡ listing_of (take n room.now)) }
{
    match size {
        Some(n) => listing::list(&room[..n], text),
        None => listing::refused(1, text),
    }
}

// Reads the room and writes its listing.
fn list_input<R: Read, W: Write>(input: &mut R, output: &mut W) -> io::Result<()>
    ensures { OnOk result (IfSome (R.remaining input.old) (λ bytes. Appends (W.contents output.old) (W.contents output.new) (listed bytes))) }
{
    let mut room = [0u8; 65536];
    let mut text = listing::buffer();
    let size = read_whole(input, &mut room)?;
    let length = put_listing(&room, size, &mut text);
    output.write_all(&text[..length])
}

// A read or a write that fails ends the program with its error.
fn main(rt: HostRuntime) -> io::Result<()> {
    list_input(&mut rt.stdin(), &mut io::writer(&rt))
}
