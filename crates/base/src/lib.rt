// No code: the mathematics that the crates above share. Definitions stand in specs/, laws in proofs/.
#![tactic(auto)]
