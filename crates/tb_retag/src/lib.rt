//! The places of retags.
//!
//! A reference gets a tag of its own where it is made and where it is loaded (Tree Borrows), so a retag stands
//! directly behind each borrow and each load whose temporary holds a reference. The temporary for the pointer of a
//! place `*x` is none of these: its pointer is used as it is.
#![tactic(auto)]

mod places;

pub use places::place;
