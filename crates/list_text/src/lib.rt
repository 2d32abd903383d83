// Lists of moves as text, one space between.
#![tactic(auto)]

pub mod inner;
