//! What a path names: the structs and functions of a file, and what is built in.
#![tactic(auto)]

mod built_in;
mod callee;
mod file;
mod imported;
mod path;
mod ty;

pub use callee::{Callee, called};
pub use file::{Entry, FileNames, Named};
pub use imported::is_import;
pub use ty::{TypeName, literal_struct, type_name};
