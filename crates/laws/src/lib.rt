// Theorems only: laws of the definitions that the code's proofs and demand 3 both use. They are in specs/.

#![tactic(auto)]
