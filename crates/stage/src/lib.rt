// The pipelined engine's stages in one clock: their work, sources, signals and controls.

#![tactic(auto)]

pub mod addresses;
pub mod controls;
pub mod forwarding;
pub mod signals;
pub mod working;
