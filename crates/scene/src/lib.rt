// The steps of a session and the entries of its shown list (document 01, "Sessions"). The crate holds the definitions of painting, steps
// and sessions over a room that is decoded already, and demand 3 over every list of calls; see specs/ and proofs/Demand3.antt.

// The most steps of a history (document 01, "Sizes").
#![tactic(auto)]

pub const MOST_STEPS: usize = 64;

// Where a draw puts an object: where it last was, or at strip position (a, b), which is pixel (8a, 8b).
#[derive(Clone, Copy, Debug, PartialEq, Eq)]
pub enum Place {
    Last,
    Strip(u32, u32),
}

// A step of the history. Draw: object, state, place. Hide: object.
#[derive(Clone, Copy, Debug, PartialEq, Eq)]
pub enum Step {
    Draw(u32, u32, Place),
    Hide(u32),
}

// A call on a session: it makes a step, or takes the newest one back.
#[derive(Clone, Copy, Debug, PartialEq, Eq)]
pub enum Call {
    Make(Step),
    TakeBack,
}

// An entry of the shown list: an object in a state, its image's upper left corner at pixel (x, y).
#[derive(Clone, Copy, Debug, PartialEq, Eq)]
pub struct Entry {
    pub object: u32,
    pub state: u32,
    pub x: u32,
    pub y: u32,
}
