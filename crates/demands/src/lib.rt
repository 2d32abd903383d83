// No code: the demands about the search as theorems. The plain search stands in specs/, the theorems and the laws under them in proofs/.
#![tactic(auto)]
