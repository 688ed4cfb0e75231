//! The table of allocations: where each lies in memory, how large it is, and whether it is live.
//!
//! Contracts see the table as the list of its allocations in the order of their making, the dead ones
//! too. The allocation with the number n, counted from 1, stands at place n - 1. Addresses are this
//! interpreter's own: the first allocation has the least multiple of its alignment that is at least
//! 65,536, each later one the least that is at least 16 above the end of the one before it, and no
//! address is used again.
#![tactic(auto)]

mod allocation;
mod allocs;
mod entries;
mod faults;
mod live;
mod ptr;

pub use allocation::{AllocKind, Allocation};
pub use allocs::Allocs;
pub use faults::{AccessFault, AllocError, FreeFault, OffsetFault};
pub use ptr::Ptr;
