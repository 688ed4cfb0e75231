//! The rules of typing for places: dereferences, fields, elements, borrows and assignments, over typed parts.
#![tactic(auto)]

mod assignment;
mod borrowing;
mod dereference;
mod element;
mod fields;

pub use assignment::{assign, assign_with};
pub use borrowing::{borrow_of, borrow_want};
pub use dereference::{behind, deref_all, deref_of};
pub use element::{index, index_want};
pub use fields::{field, named_in, tuple_field};
