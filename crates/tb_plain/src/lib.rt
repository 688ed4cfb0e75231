//! Trees of tags with one state for every tag and byte.
#![tactic(auto)]

mod bytes;
mod changes;
mod choice;
mod events;
mod plain_tree;
mod pruning;
mod queries;
mod row;
mod sweep;

pub use plain_tree::PlainTree;
