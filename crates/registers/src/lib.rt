// The work over the core: what a port write does, and what a port read gives.
#![tactic(auto)]

pub mod command;
pub mod readback;
pub mod register;
