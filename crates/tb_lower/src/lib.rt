//! Lowers the tree of a source to the middle representation.
#![tactic(auto)]

mod laws;
mod lowering;
mod source;
mod spans;
mod statements;
mod values;

pub use laws::law_names;
pub use source::lower_source;
