// Phase 2 of the search: Phase2State and solve_phase2 of kewb's src/two_phase/solver.rs.
#![tactic(auto)]

pub mod inner;
