// A room's record, and its objects: their headers and names (document 01, "Blocks"; docs/LAYOUTS.md). Each call starts with the whole test
// of crate room.
#![tactic(auto)]

pub mod name;
pub mod object;
pub mod record;

// What an object's CDHD says. Place and sizes are in strips of 8 pixels; the walk point is in pixels.
#[derive(Clone, Copy, Debug, PartialEq, Eq)]
pub struct Cdhd {
    pub id: usize,
    pub x: usize,
    pub y: usize,
    pub width: usize,
    pub height: usize,
    pub flags: usize,
    pub parent: usize,
    pub walkx: i32,
    pub walky: i32,
    pub direction: usize,
}

// A part of the room: its first byte, and how many bytes it has.
#[derive(Clone, Copy, Debug, PartialEq, Eq)]
pub struct Part {
    pub start: usize,
    pub count: usize,
}
