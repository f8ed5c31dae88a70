// What a draw, a hide or a take-back on a session comes to, and the strips that it touches (document 01, "Sessions"), from the numbers that
// a caller has gathered of the room's objects. No pixel and no room byte is looked at here, and nothing is stored.
#![tactic(auto)]

pub mod plan;
pub mod touch;
