//! The fields of the structs of a file, and the first struct that holds itself.
#![tactic(auto)]

mod define;
mod error;
mod fields;
mod graph;
mod held;
mod structs;

pub use define::define_structs;
pub use error::FieldError;
