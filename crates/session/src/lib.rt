// Sessions of the bench program, a step at a time: what each record does, and the line that it writes.
#![tactic(auto)]

mod effect;
pub mod step;
