//! The typed tree of a program: each node has its type and its place in the source, and everything that
//! the source leaves out stands in it. Coercions, dereferences, the borrows of receivers and built-in
//! calls are nodes, variables are numbers, and there are no parentheses.
//!
//! One type, [`Node`], serves expressions and statements, and each of its forms begins with the same
//! [`Head`], so that what goes through a tree is one fold over [`Form`] and [`Parts`].
#![tactic(auto)]

mod form;
mod node;
mod operator;
mod parts;
mod place;
mod program;

pub use form::Form;
pub use node::{Head, Node};
pub use operator::{BinaryOperator, BorrowKind, Constant, LogicOperator, UnaryOperator};
pub use parts::Parts;
pub use program::{Function, Parameter, Thir, Variable};
