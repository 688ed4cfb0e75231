//! The lower half of the parser: reads what holds no expression.
//!
//! A [`Cursor`] stands in the tokens of a source and reads on from there: marks, words, names, paths and
//! types. Where `&` is due it is taken off `&&`, and a closing `>` off `>>`, `>=` and `>>=`; the rest
//! of such a token comes next.
#![tactic(auto)]

mod attributes;
mod cursor;
mod elements;
mod error;
mod heads;
mod laws;
mod leaves;
mod notes;
mod paths;
mod structs;
mod types;

pub use cursor::Cursor;
pub use error::ReadError;
pub use heads::FunctionHead;
pub use laws::{law_attributes, law_items, law_paths, law_pieces, law_tokens};
pub use types::from_to;
