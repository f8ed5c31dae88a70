// Objects' images in a room that passes its test: which OBIM is whose, what its IMHD says, which states can be drawn, and the test of an
// image (document 01, "Blocks", "Sessions", "Numbered refusals").
#![tactic(auto)]

pub mod gather;
pub mod row;
pub mod state;
pub mod test;
