// Clocks of the core, taken one by one or many at once, and the bytes that move on them.
#![tactic(auto)]

pub mod clock;
pub mod count;
pub mod place;
pub mod slots;
pub mod span;
pub mod stretch;
pub mod transfer;
