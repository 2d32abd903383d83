// The answers of a search, and the search over the lengths of phase 1.
#![tactic(auto)]

use refusal::Refusal;

pub mod inner;

// How a search came out.
#[derive(Clone, Copy, Debug, PartialEq, Eq)]
pub enum Found {
    Solved,
    Nothing,
    Spent,
    Refused(Refusal),
}

// The answer, the entries made and, if solved, the two lists. (The theorems about the search speak of this record, and C is lent 31 bytes for
// each list.)
#[derive(Clone, Copy, Debug, PartialEq, Eq)]
pub struct Solution {
    pub found: Found,
    pub count: u32,
    pub n1: usize,
    pub phase1: [u8; 31],
    pub n2: usize,
    pub phase2: [u8; 31],
}
