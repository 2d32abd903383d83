// The rule of a pruning table at each pair.
#![tactic(auto)]

pub mod inner;
