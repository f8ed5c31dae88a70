// The calls for a C host, over numbers and byte slices: every promise is an equation, and no call has a `requires`. A `&[u8]` is a
// pointer and a length in C (include/kildegrom.h). Each answers document 01's number, 0 where it is accepted. A module for each family.
// The crate is the static library: the archive exports each under its name.
#![tactic(auto)]

pub mod actors;
pub mod casts;
pub mod comparisons;
pub mod costumes;
pub mod points;
pub mod rooms;
pub mod sessions;
pub mod writers;
