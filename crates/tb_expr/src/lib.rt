//! Expressions, statements and blocks: the recursive half of the parser.
//!
//! What the forms of expressions have beside the expressions in them is read by `tb_forms`, which says what
//! each form wants to be read next and what it is then. Here is what is wanted read, which leads back to
//! expressions. The recursion is bounded by a depth, which falls with each expression in another.
#![tactic(auto)]

mod blocks;
mod branches;
mod conditions;
mod expressions;
mod laws;
mod lines;
mod lists;
mod start;

pub use blocks::block;
pub use conditions::condition;
pub use expressions::expression;
pub use laws::{law_one_way, law_written};
pub use lines::{Line, next_line};
