// A session's bytes (document 01, "Sessions"): its steps and the marks of its shown list, read and stored, and the list by value.
#![tactic(auto)]

use scene::Entry;

pub mod bytes;

// A session's bytes (docs/LAYOUTS.md, "Session"): how many, and where its steps and the marks of its shown list stand.
pub const SESSION_SIZE: usize = 450;

pub const STEPS_FROM: usize = 2;

pub const STEP_SIZE: usize = 5;

pub const SHOWN_FROM: usize = 322;

pub const MARK_SIZE: usize = 2;

// The most entries of a shown list.
pub const MOST_SHOWN: usize = 64;

// A shown list, the oldest entry first; or, where refusal is not 0, a refusal's number.
#[derive(Clone, Copy, Debug, PartialEq, Eq)]
pub struct Shown {
    pub refusal: u8,
    pub n: usize,
    pub list: [Entry; MOST_SHOWN],
}
