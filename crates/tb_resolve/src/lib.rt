//! What the names of a whole file mean.
#![tactic(auto)]

mod error;
mod laws;
mod meanings;
mod names;
mod resolved;

pub use error::NameError;
pub use laws::law_one_answer;
pub use meanings::{file_meanings, unknown_fault};
pub use names::Names;
pub use resolved::resolve;
