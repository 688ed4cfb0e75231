//! The rules of typing for tuples, arrays and struct literals, over typed parts.
#![tactic(auto)]

mod arrays;
mod orders;
mod structs;
mod tuples;

pub use arrays::{array, element_want, part_want, repeat};
pub use structs::{field_want, literal, struct_field};
pub use tuples::{tuple, tuple_want};
