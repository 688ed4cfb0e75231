//! Marks: each tag of a tree has at each byte a mark, which says which foreign accesses leave the tag and all tags
//! below it as they are. An access can pass by what stands below such a tag. Here is what keeps marks right.
#![tactic(auto)]

mod laws;
mod moves;

pub use laws::{law_broken_off, law_lesser, law_made, law_shut, law_visited};
pub use moves::{lowered, raised};
