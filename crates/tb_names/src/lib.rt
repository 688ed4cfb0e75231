//! The names that a file gives: its limits, the names that are given twice, and its `main`.
#![tactic(auto)]

mod limits;
mod program;
mod repeats;
mod word;

pub use limits::limit_fault;
pub use program::main_fault;
pub use repeats::{repeat_fault, type_parameters};
pub use word::Word;
