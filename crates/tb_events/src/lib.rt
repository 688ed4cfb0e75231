//! The memory of a run: allocations with their bytes and the trees of their tags, what the running calls guard, and
//! what each event does to one allocation.
#![tactic(auto)]

mod calls;
mod memory;

pub use memory::Memory;
