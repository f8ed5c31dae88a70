// Draws, hides and take-backs on a room's bytes, a session and lent surfaces (document 01, "Sessions"): the room is tested, the images that
// the history and the call draw are judged once each, the call is planned, and only then anything is written.
#![tactic(auto)]

pub mod calls;
pub mod flat;
pub mod tested;
