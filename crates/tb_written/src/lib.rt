//! Written types as types of a table.
#![tactic(auto)]

mod interned;
mod made;
mod scope;
mod wrap;

pub use interned::intern;
pub use made::written_type;
pub use scope::Scope;
