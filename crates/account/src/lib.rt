// Demand 3, proved of the definitions: what is said in specs/, its theorems in proofs/, and no code.

#![tactic(auto)]
