//! Rows of a lazy tree: one tag with its states and its marks as runs, and what an event does with them at all bytes
//! together.
#![tactic(auto)]

mod by_kind;
mod refusals;
mod row;
mod values;

pub use by_kind::{ByKind, Lowers, Moves, Raises};
pub use row::LazyRow;
pub use values::change;
