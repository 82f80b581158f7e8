// The instruction set: the work of the stages behind fetch, for both engines.

#![tactic(auto)]

pub mod accessing;
pub mod decoding;
pub mod executing;
