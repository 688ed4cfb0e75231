//! The structs of a file as declared structs of a table of types.
#![tactic(auto)]

mod declared;

pub use declared::{declared_types, shown};
