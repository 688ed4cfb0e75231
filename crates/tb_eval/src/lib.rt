//! What one place, operand, right side or print of the middle representation means, and how a run
//! ends.
#![tactic(auto)]

mod frame;
mod outcome;
mod print;
mod value;

pub use frame::Frame;
pub use outcome::{EvalError, Outcome, Panic};
pub use print::{PrintError, print_text};
pub use value::{Slot, operand, place, pointer, rvalue, variable};
