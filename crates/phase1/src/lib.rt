// Phase 1 of the search: solve_phase1 of kewb's src/two_phase/solver.rs, as a cycle of three functions. What they call is in phase1_steps.
#![tactic(auto)]

pub mod inner;
