// The coordinate of an arrangement after a move.
#![tactic(auto)]

pub mod inner;
