//! The heap of a run: typed loads and stores, allocations and frees, by the order of checks of the definitions.
#![tactic(auto)]

mod heap;
mod stop;

pub use heap::Heap;
pub use stop::Stop;
