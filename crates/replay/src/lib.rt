// A session's history replayed (document 01, "Sessions"): one step on a shown list, and all steps, from the numbers that a caller has
// gathered of the room's objects. No pixel and no room byte is looked at here.
#![tactic(auto)]

pub mod history;
pub mod list;
pub mod places;
pub mod tables;

// The lengths of the tables, for objects 0 to 128: rows of 8 numbers, 10 bytes of verdicts, last places in 3 numbers.
pub const OBJECTS_LENGTH: usize = 1032;

pub const VERDICTS_LENGTH: usize = 1290;

pub const PLACES_LENGTH: usize = 387;

// The room: its width in strips, its height in pixels, its count of objects.
#[derive(Clone, Copy, Debug, PartialEq, Eq)]
pub struct Size {
    pub strips: usize,
    pub height: usize,
    pub count: usize,
}

// A place in pixels, and whether a strip position set it.
#[derive(Clone, Copy, Debug, PartialEq, Eq)]
pub struct Spot {
    pub x: usize,
    pub y: usize,
    pub set: bool,
}

// The place of an object that is not there.
pub const NOWHERE: Spot = Spot {
    x: 0,
    y: 0,
    set: false,
};
