//! What may have happened to a variable on the ways through a piece of code: the ways by definition, and a
//! summary of them all that is made without going along them.
#![tactic(auto)]

mod laws;
mod mark;
mod summary;

pub use laws::{law_sets, law_summaries};
pub use mark::{Mark, Marks, Question};
pub use summary::Summary;
