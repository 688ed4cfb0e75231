//! Moves and initialisation: whether each variable has a value wherever it is used.
#![tactic(auto)]

mod error;
mod faults;
mod scan;

pub use error::MoveError;
pub use faults::moves;
