//! What each path and written type of an item means, and the first name that is unknown.
#![tactic(auto)]

mod error;
mod heads;
mod meaning;
mod variables;
mod walk;

pub use error::MentionError;
pub use meaning::Meaning;
pub use walk::item_meanings;
