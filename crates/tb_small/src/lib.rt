//! Reads small programs: the tree of a text, and the refusal of a text that has none.
#![tactic(auto)]

mod error;
mod file;
mod limits;
mod places;
mod scope;
mod statements;
mod sums;
mod texts;
mod tree;
mod values;
mod words;

pub use error::SmallError;
pub use file::small;
pub use tree::{
    Assign, Atom, Block, Borrow, Deref, Inner, Int, Let, Name, Print, RefKind, Right, SmallTree,
    Spot, Statement, Sum, Text, Ty, UnsafeBlock, UnsafeRight, Value, Variable,
};
