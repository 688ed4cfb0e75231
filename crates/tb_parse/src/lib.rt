//! The parser: from tokens to the tree of a whole file.
//!
//! What holds no expression is read by `tb_syntax`, and blocks by `tb_expr`. A tree is deep in its nodes
//! at most 128, as `tb_ast::depth` counts.
#![tactic(auto)]

mod error;
mod file;
mod fronts;
mod items;
mod laws;
mod refusal;

pub use error::ParseError;
pub use file::parse;
pub use laws::{law_one_refused, law_one_tree};
