//! The heads of the functions of a file, with types of a table.
#![tactic(auto)]

mod list;
mod signature;

pub use list::signatures;
pub use signature::Signature;
