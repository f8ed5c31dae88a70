// The player: player ROOM CALLS [ROOM CALLS].. loads the room in each first file and plays on it the calls in the second, 20 bytes a call
// (crate call_list, specs/Coded.antt). It prints a line for each call with its number, then Adler-32 of the pixels and of the masks; or
// `refused N` where the load is refused. What is printed is tested against stored outputs; the run and the checksum are proved.
#![tactic(auto)]

ghost use Rattle.std.specs.Prelude.{◌≡◌, ◌≤◌, ◌<◌, length};
ghost use Rattle.player.specs.Adler.{adler32};

use call_list::calls::call_count;
use input::named::open_or_tell;
use input::read_whole;
use room::Room;
use room::head::read_head;
use std::env::FillError;
use std::io;
use std::io::Read;
use std::rt::{Env, Files};
use stored::SESSION_SIZE;

// Adler-32 of the bytes.
fn checksum(bytes: &[u8]) -> u32
    ensures { result ≡ adler32 bytes.now }
{
    let mut low: u32 = 1;
    let mut high: u32 = 0;
    for byte in bytes {
        low = (low + u32::from(*byte)) % 65521;
        high = (high + low) % 65521;
    }
    high * 65536 + low
}

// Checksum of the bytes, behind what is printed before it.
fn sum(rt: &impl Print, before: &str, bytes: &[u8]) -> io::Result<()> {
    let sum = checksum(bytes);
    print!(rt; "{before}{sum:08x}")
}

// The line of the checksums: W × H pixels, and N × S × H bytes of masks.
fn sums(rt: &impl Print, r: Room, pixels: &[u8], masks: &[u8]) -> io::Result<()>
    requires sizes_allowed { (r.width ≤ 1024) × (r.height ≤ 200) × (r.planes ≤ 4) }
    requires surfaces_fit { (204800 ≤ length pixels.now) × (102400 ≤ length masks.now) }
{
    let rows = r.planes * r.height;
    sum(rt, "pixels ", &pixels[..r.width * r.height])?;
    sum(rt, " masks ", &masks[..r.width / 8 * rows])?;
    println!(rt; "")
}

// A line for each call: its place in the list, from 1 on, and its number.
fn answers(rt: &impl Print, numbers: &[u8]) -> io::Result<()> {
    for (i, number) in numbers.iter().enumerate() {
        println!(rt; "call {}: {number}", i + 1)?;
    }
    Ok(())
}

// Plays the calls on the room, and prints what comes of it.
fn play(rt: &impl Print, room: &[u8], calls: &[u8]) -> io::Result<()> {
    let mut session = [0u8; SESSION_SIZE];
    // 1,024 × 200 pixels, and 4 × 128 × 200 bytes of masks: what the largest room asks for.
    let mut pixels = [0u8; 204_800];
    let mut masks = [0u8; 102_400];
    let mut numbers = [0u8; 4096];
    let run = call_list::run(
        room,
        &mut session,
        &mut pixels,
        &mut masks,
        calls,
        &mut numbers,
    );
    if let Err(refusal) = run {
        return println!(rt; "refused {}", refusal.number());
    }
    answers(rt, &numbers[..call_count(calls, &numbers)])?;
    match read_head(room) {
        Ok(r) => sums(rt, r, &pixels, &masks),
        Err(_) => Ok(()),
    }
}

// Plays the calls of one open file on the room of the other. Longer files than the buffers hold are not played in part.
fn play_files(
    rt: &impl Print,
    room_file: &mut impl Read,
    calls_file: &mut impl Read,
) -> io::Result<()> {
    let mut room = [0u8; 65536];
    let Some(n) = read_whole(room_file, &mut room)? else {
        return println!(rt; "the room is longer than 65536 bytes");
    };
    let mut calls = [0u8; 65536];
    let Some(m) = read_whole(calls_file, &mut calls)? else {
        return println!(rt; "there are more than 3276 calls");
    };
    play(rt, &room[..n], &calls[..m])
}

// Opens the file that argument i names: none where it can't, after saying why.
fn open_argument<R: Env + Files + Eprint>(rt: &R, i: usize) -> io::Result<Option<R::File>> {
    let mut name = [0u8; 4096];
    let n = rt.arg(i, &mut name).unwrap_or(0);
    open_or_tell(rt, &name[..n])
}

// Plays the files that arguments i and i + 1 name.
fn play_pair<R: Env + Files + Print + Eprint>(rt: &R, i: usize, next: usize) -> io::Result<()> {
    let Some(mut room) = open_argument(rt, i)? else {
        return Ok(());
    };
    let Some(mut calls) = open_argument(rt, next)? else {
        return Ok(());
    };
    play_files(rt, &mut room, &mut calls)
}

// Plays each of the pairs of arguments from argument 1 on.
fn play_pairs<R: Env + Files + Print + Eprint>(rt: &R, pairs: usize) -> io::Result<()>
    requires { pairs < 9223372036854775808 }
{
    for k in 0..pairs {
        let i = 2 * k + 1;
        play_pair(rt, i, i + 1)?;
    }
    Ok(())
}

// How many arguments there are, the program's own name among them.
fn argument_count(rt: &impl Env) -> usize {
    for i in 0..usize::MAX {
        if let Err(FillError::NotPresent) = rt.arg(i, &mut []) {
            return i;
        }
    }
    usize::MAX
}

fn main(rt: HostRuntime) -> io::Result<()> {
    let count = argument_count(&rt);
    let pairs = count / 2;
    if (count < 3) | (count % 2 == 0) {
        eprintln!(rt; "usage: player ROOM CALLS [ROOM CALLS]..")
    } else {
        play_pairs(&rt, pairs)
    }
}
