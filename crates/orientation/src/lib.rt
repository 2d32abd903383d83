// Twists and flips as numbers.
#![tactic(auto)]

pub mod inner;
