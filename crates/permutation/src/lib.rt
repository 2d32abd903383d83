// Orders of pieces as numbers.
#![tactic(auto)]

pub mod inner;
