// Lists of bytes as they stand for pieces and their turns: what the crates above share. No cube type.
#![tactic(auto)]

pub mod inner;
