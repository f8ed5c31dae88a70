// Strips of pixels (document 01, "Strips of pixels"): what a strip's code and its operations mean, and the operations themselves, from one
// place of a strip to the next. Crate decode paints and tests whole strips by them.
#![tactic(auto)]

pub mod codes;
pub mod operations;

use bits::Cursor;

// A place in a strip: i pixels are made, the last of them of this colour, and the operations go on at `cur`.
#[derive(Clone, Copy, Debug, PartialEq, Eq)]
pub struct State {
    pub i: usize,
    pub colour: u8,
    pub step: u8,
    pub cur: Cursor,
}

// What a strip's code says of it.
#[derive(Clone, Copy, Debug, PartialEq, Eq)]
pub enum Kind {
    Raw,
    Coded {
        second: bool,
        vertical: bool,
        clear: bool,
        width: u32,
    },
    Unknown,
}
