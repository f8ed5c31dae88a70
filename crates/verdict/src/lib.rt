// What an image's own test comes to (document 01, "Numbered refusals"): the images that a session's history and a step draw are judged once
// each, so that a draw, a hide, a take-back or a question about the session asks a table.
#![tactic(auto)]

pub mod judge;
pub mod size;
