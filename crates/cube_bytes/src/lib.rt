// A cube as the 40 bytes of a call.
#![tactic(auto)]

pub mod inner;
