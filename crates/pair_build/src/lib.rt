// The builder of a pruning table over two move tables of any numbers of rows.
#![tactic(auto)]

pub mod inner;
