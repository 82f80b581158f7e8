// Theorems only, in specs/: document 01's rules on hand-made records, a row each, proved by computing; and of every record, what a refusal and a
// stop leave alone. They look at the definitions of the crate machine and at no code.

#![tactic(auto)]
