// Files by names that come as bytes, and the line on standard error where one can't be opened.
use std::fs::File;
use std::io;
use std::io::{Cursor, Write};
use std::rt::Files;
use std::str::from_utf8;

// Opens the file of that name for reading. Where it can't, standard error has a line with the name and the reason.
pub fn open_or_tell<R: Files + Eprint>(rt: &R, name: &[u8]) -> io::Result<Option<R::File>> {
    let Ok(name) = from_utf8(name) else {
        eprintln!(rt; "{}: the name is not UTF-8", name.escape_ascii())?;
        return Ok(None);
    };
    match File::open(rt, name) {
        Ok(file) => Ok(Some(file)),
        Err(error) => {
            tell(rt, name, &error)?;
            Ok(None)
        }
    }
}

// The name and the system's reason, without the number that std writes behind it.
fn tell(rt: &impl Eprint, name: &str, error: &io::Error) -> io::Result<()> {
    let mut written = Cursor::new([0u8; 256]);
    write!(written, "{error}")?;
    let size = written.position() as usize;
    let bytes = written.into_inner();
    let text = from_utf8(&bytes[..size.min(256)]).unwrap_or("");
    let reason = text
        .split_once(" (os error ")
        .map_or(text, |(reason, _)| reason);
    eprintln!(rt; "{name}: {reason}")
}
