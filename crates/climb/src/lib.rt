// Whether the chain of an object's containers is open (document 01, "Actors, points, limbs"): the state of each object, and the climb from
// child to parent.
#![tactic(auto)]

pub mod chain;
pub mod states;
