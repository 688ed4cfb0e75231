//! The machine that runs the middle representation, one line a step.
#![tactic(auto)]

mod carry;
mod machine;
mod runs;

pub use machine::{Machine, Turn};
pub use runs::run;
