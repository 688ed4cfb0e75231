//! The allocations of a run with their bytes.
#![tactic(auto)]

mod entries;
mod store;

pub use store::Store;
