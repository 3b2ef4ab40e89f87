// The parts of the core: what each is and what is done to it, which are valid, and why a call is refused.
#![tactic(auto)]

pub mod block;
pub mod bytes;
pub mod part;
pub mod pending;
pub mod port;
pub mod power_on;
pub mod refusal;
pub mod selection;
pub mod slot;
pub mod speed;
pub mod valid;
pub mod warning;
