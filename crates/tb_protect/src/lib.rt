//! Which provenances are guarded, and by which call: a stack with a list for each call that runs.
//!
//! A reference that a function takes stays guarded until that call returns (Tree Borrows:
//! protectors). Contracts see the stack as the list of its frames, the top one first, each the list of the
//! provenances that its call guards in the order in which they came, with how they are guarded.
#![tactic(auto)]

mod index;
mod protectors;
mod stack;

pub use protectors::Protectors;
