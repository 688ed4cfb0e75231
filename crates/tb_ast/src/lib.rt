//! Trees of the whole language, as they are written.
//!
//! A [`Tree`] holds each token of its source once, with its place: names, lifetimes, literals and
//! texts as leaves, keywords and punctuation by their spans, in the order of the grammar. The forms
//! are those of the Rust Reference, chapters "Items", "Statements and expressions" and "Type system",
//! as far as this language has them.
#![tactic(auto)]

mod copy;
mod expression;
mod form;
mod item;
mod leaf;
mod mention;
mod nesting;
mod operator;
mod parts;
mod piece;
mod place;
mod written;

pub use expression::{Block, Else, Expr, ExprPath, FieldValue, Initializer, PrintText, Stmt};
pub use form::Form;
pub use item::{
    Attribute, Bounds, ExternBlock, Field, ForeignFunction, Function, GenericParameter, Generics,
    InnerAttribute, Item, ItemKind, Lifetimes, Meta, Parameter, Repr, ResultType, Struct, Tree,
    Use, UseGroup, WordList,
};
pub use leaf::{
    BoolLiteral, ByteLiteral, CharLiteral, Ident, IntLiteral, Lifetime, Literal, Mark, Path,
    TextLiteral,
};
pub use mention::{Mention, mentions};
pub use nesting::{
    block_depth, depth, expr_depth, item_depth, kind_depth, note_depth, parameters_depth,
    result_depth, statement_depth, type_depth,
};
pub use operator::{AssignOp, BinaryOp, Borrow, UnaryOp};
pub use parts::Parts;
pub use piece::Piece;
pub use written::{PointerKind, Turbofish, TypeArgument, TypeArguments, TypeExpr, TypeNote};
