// The object under a point (document 01, "Actors, points, limbs"): its box, its lent flag byte and the chain of its containers, which crate climb
// climbs.
#![tactic(auto)]

pub mod call;
pub mod hit;
