//! Why nothing can tell that tags were pruned: rows that stand for the rows of all tags ever made.
#![tactic(auto)]

mod events;
mod folding;
mod states;

pub use events::{
    law_access, law_dealloc, law_ended, law_reborrow, law_release, law_start, law_unguard,
};
pub use folding::{law_folded, law_pruned};
pub use states::{law_allocs, law_points};
