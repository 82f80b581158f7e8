// No code: laws of the pipeline's definitions that several crates need, in specs/.

#![tactic(auto)]
