// The tests of a cube's corners and edges, apart from `cubie` so that an edit of them checks a small crate.
#![tactic(auto)]

pub mod inner;
