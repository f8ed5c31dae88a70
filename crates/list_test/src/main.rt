// Lists every room that standard input names, a file name to a line: good rooms and, for each refusal, bad ones (made by rooms/make.py).
#![tactic(auto)]

ghost use Rattle.std.specs.Prelude.{◌≤◌, length};

use input::named::open_or_tell;
use input::read_full;
use std::io;
use std::rt::Files;

// Lists the room in the file.
fn show<R: Files + Print + Eprint>(rt: &R, path: &[u8]) -> io::Result<()> {
    rt.write_all(path)?;
    rt.write_all(b"\n")?;
    match open_or_tell(rt, path)? {
        Some(mut file) => {
            let mut room = [0u8; 65536];
            let n = read_full(&mut file, &mut room)?;
            let mut text = listing::buffer();
            let size = listing::list(&room[..n], &mut text);
            rt.write_all(&text[..size])
        }
        None => Ok(()),
    }
}

// Where the line that starts at `from` ends.
fn line_end(names: &[u8], from: usize) -> usize
    requires { from ≤ length names.now }
    ensures { (from ≤ result) × (result ≤ length names.now) }
{
    for i in from..names.len() {
        if names[i] == b'\n' {
            return i;
        }
    }
    names.len()
}

fn show_all<R: Files + Print + Eprint>(rt: &R, names: &[u8]) -> io::Result<()> {
    let mut at = 0;
    while at < names.len() {
        let end = line_end(names, at);
        show(rt, &names[at..end])?;
        at = end + 1;
    }
    Ok(())
}

fn main(rt: HostRuntime) -> io::Result<()> {
    let mut names = [0u8; 4096];
    let n = read_full(&mut rt.stdin(), &mut names)?;
    show_all(&rt, &names[..n])
}
