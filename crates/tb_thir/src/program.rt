//! Whole programs.

use crate::node::Node;
use sqlite_items::Items;
use tb_perm::Span;
use tb_types::{Name, Ty, Types};

/// A program with its types.
#[derive(Drop)]
pub struct Thir {
    pub types: Types,
    /// In the order of the text; a function is named by its place here.
    pub functions: Items<Function>,
}

/// A function.
#[derive(Debug, Drop)]
pub struct Function {
    pub name: Name,
    pub name_span: Span,
    /// From `unsafe` or `fn` to the end of the body.
    pub span: Span,
    /// In the order of the text. The variable of a parameter has its place here as its number.
    pub parameters: Items<Parameter>,
    pub result: Ty,
    /// The parameters, and then each variable that a `let` declares, in the order of the text. A
    /// variable is named by its place here.
    pub variables: Items<Variable>,
    /// A block.
    pub body: Node,
}

/// A parameter of a function.
#[derive(Clone, Copy, Debug, PartialEq, Eq)]
pub struct Parameter {
    /// From the name to the end of the type.
    pub span: Span,
    pub ty: Ty,
}

/// A variable of a function.
#[derive(Clone, Copy, Debug, PartialEq, Eq)]
pub struct Variable {
    pub ty: Ty,
    /// Whether it is declared with `mut`.
    pub mutable: bool,
}
