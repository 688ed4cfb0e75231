//! The tag that a retag makes: its permissions and its cells, by the type that is pointed to.
#![tactic(auto)]

mod cells;
mod perms;
mod retag;

pub use retag::{Place, Retag};
