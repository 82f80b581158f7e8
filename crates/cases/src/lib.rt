// Theorems only, in specs/: document 01's marked cases and the two listings, proved by computing; and of the open operations' promises, that
// each allows one answer only and that the wrong replays fall foul of them.

#![tactic(auto)]
