// A move as its word: kewb's letters and marks.
#![tactic(auto)]

pub mod inner;
