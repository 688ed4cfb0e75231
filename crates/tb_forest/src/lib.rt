//! The trees of tags of all allocations, by the numbers of the allocations.
#![tactic(auto)]

mod forest;
mod places;

pub use forest::Forest;
