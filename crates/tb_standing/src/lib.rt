//! Which written types may stand where a value has them: the first fault in a written type.
#![tactic(auto)]

mod walk;

pub use walk::written_fault;
