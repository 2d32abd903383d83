// The kinds of coordinates and their numberings: kewb's src/cube/index.rs without the tests of what is handed in.
#![tactic(auto)]

pub mod inner;

// The six coordinates of the search, each a kind of its own: their numbers can't be taken for one another.
#[derive(Clone, Copy)]
pub struct Co(pub u16);

#[derive(Clone, Copy)]
pub struct Eo(pub u16);

#[derive(Clone, Copy)]
pub struct ECombo(pub u16);

#[derive(Clone, Copy)]
pub struct Cp(pub u16);

#[derive(Clone, Copy)]
pub struct UdEp(pub u16);

#[derive(Clone, Copy)]
pub struct EEp(pub u16);
