//! The memory of a run: allocations with the tags of the borrow model, numbered over the whole run,
//! and the accesses, reborrows and deallocations that lines make.
#![tactic(auto)]

mod entry;
mod heap;
mod stop;
mod value;

pub use heap::Heap;
pub use stop::Stop;
pub use value::Value;
