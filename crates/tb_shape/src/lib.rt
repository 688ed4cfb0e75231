//! A tree over keys, which contracts see as the list of its keys and their parents.
#![tactic(auto)]

mod edits;
mod entries;
mod nodes;
mod shape;

pub use shape::Shape;
