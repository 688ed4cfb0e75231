//! An event on the rows of a lazy tree: which tags it meets, and why it can pass by the others.
#![tactic(auto)]

mod laws;
mod meeting;

pub use laws::{law_marked, law_passed_by, law_phases, law_visit, law_whole};
pub use meeting::Meeting;
