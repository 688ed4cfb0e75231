//! The types of programs, as numbers: each shape of a type has one number, and what a number means
//! never changes. Structs are declared, and later defined, by numbers of their own.
#![tactic(auto)]

mod builtin;
mod copies;
mod extent;
mod facts;
mod form;
mod head;
mod item;
mod known;
mod name;
mod parts;
mod pieces;
mod shape;
mod tables;
mod types;

pub use builtin::Builtin;
pub use item::{Field, Item};
pub use name::Name;
pub use parts::Parts;
pub use shape::{IntKind, Ty, TyShape};
pub use types::Types;
