// What a turn does to a row of pieces, and what solvability counts in one.
#![tactic(auto)]

pub mod inner;
