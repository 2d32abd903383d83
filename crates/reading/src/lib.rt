// The stickers read back as pieces: the reader of kewb's cubie.rs.
#![tactic(auto)]

pub mod inner;
