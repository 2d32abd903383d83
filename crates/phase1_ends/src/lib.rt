// An end of phase 1: phase 2 from there, length after length.
#![tactic(auto)]

pub mod inner;
