//! Expressions and statements with their types.

use crate::operator::{BinaryOperator, BorrowKind, Constant, LogicOperator, UnaryOperator};
use sqlite_items::{Boxed, Items};
use tb_perm::Span;
use tb_types::{Builtin, Ty};

/// What each node has: its type, and where it stands. A node that the source leaves out stands where the
/// expression stands that it is put on.
#[derive(Clone, Copy, Debug, PartialEq, Eq)]
pub struct Head {
    pub ty: Ty,
    pub span: Span,
}

/// An expression or a statement. A statement has the type `()`.
#[cycle(nodes)]
#[derive(Debug, Drop)]
pub enum Node {
    /// A literal, or `()`.
    Literal {
        head: Head,
        value: Constant,
    },
    /// A variable, by its number in its function. It is a place.
    Variable {
        head: Head,
        variable: u32,
        /// Whether the variable is declared with `mut` or without a value.
        mutable: bool,
    },
    /// A field of a struct or a part of a tuple, by its number in the declaration. It is a place.
    Field {
        head: Head,
        base: Boxed<Node>,
        field: u32,
        /// Whether the base is mutable.
        mutable: bool,
    },
    /// An element of an array or a slice. It is a place.
    Index {
        head: Head,
        base: Boxed<Node>,
        index: Boxed<Node>,
        /// Whether the base is mutable.
        mutable: bool,
    },
    /// What a reference, raw pointer or `Box` points to. It is a place.
    Deref {
        head: Head,
        pointer: Boxed<Node>,
        /// Whether the pointer is a `&mut`, a `*mut` or a mutable `Box`.
        mutable: bool,
    },
    /// A borrow of a place or of a value, written or as a coercion or a receiver.
    Borrow {
        head: Head,
        kind: BorrowKind,
        operand: Boxed<Node>,
    },
    /// `-e` or `!e`
    Unary {
        head: Head,
        operator: UnaryOperator,
        operand: Boxed<Node>,
    },
    /// An operator between two operands, as `e + e`.
    Binary {
        head: Head,
        operator: BinaryOperator,
        left: Boxed<Node>,
        right: Boxed<Node>,
    },
    /// `e && e` or `e || e`
    Logic {
        head: Head,
        operator: LogicOperator,
        left: Boxed<Node>,
        right: Boxed<Node>,
    },
    /// A cast to the type of the node, written or as a coercion.
    Cast {
        head: Head,
        operand: Boxed<Node>,
    },
    /// A reference to an array of this length becomes one to a slice.
    Unsize {
        head: Head,
        operand: Boxed<Node>,
        length: u64,
    },
    /// A tuple, an array or a struct of these parts, in the order of the text.
    Make {
        head: Head,
        parts: Items<Node>,
        /// For each declared part, in the order of the declaration, its place in the text.
        order: Items<u32>,
    },
    /// `[e; n]`
    Repeat {
        head: Head,
        element: Boxed<Node>,
        length: u64,
    },
    /// The call of a function of the program, by its number.
    Call {
        head: Head,
        function: u32,
        arguments: Items<Node>,
    },
    /// A built-in call, its receiver first.
    Builtin {
        head: Head,
        builtin: Builtin,
        /// The type that the call is about: the one in its `::<T>`, that of the value, or what the
        /// pointer, `Box`, cell, slice or array holds; `()` where there is none.
        about: Ty,
        arguments: Items<Node>,
    },
    /// `s.len()` of an array or a slice.
    Length {
        head: Head,
        operand: Boxed<Node>,
    },
    /// `drop(e)`
    DropValue {
        head: Head,
        operand: Boxed<Node>,
    },
    /// `e = e`
    Assign {
        head: Head,
        target: Boxed<Node>,
        value: Boxed<Node>,
    },
    /// `e += e` and the like.
    AssignOperator {
        head: Head,
        operator: BinaryOperator,
        target: Boxed<Node>,
        value: Boxed<Node>,
    },
    /// A block, also that of `unsafe`, of a branch, of a loop and of a function.
    Block {
        head: Head,
        statements: Items<Node>,
        last: Option<Boxed<Node>>,
        /// Whether its last expression, or else its last statement, diverges.
        diverges: bool,
    },
    /// `if`, with or without `else`.
    If {
        head: Head,
        condition: Boxed<Node>,
        body: Boxed<Node>,
        otherwise: Option<Boxed<Node>>,
        /// Whether there are two branches and both diverge.
        diverges: bool,
    },
    /// `while`
    While {
        head: Head,
        condition: Boxed<Node>,
        body: Boxed<Node>,
    },
    /// `loop`
    Loop {
        head: Head,
        body: Boxed<Node>,
        /// Whether a `break` leaves it.
        breaks: bool,
    },
    /// `return`, with or without a value.
    Return {
        head: Head,
        value: Option<Boxed<Node>>,
    },
    Break {
        head: Head,
    },
    Continue {
        head: Head,
    },
    /// `print!`, or `println!` where `newline` is true.
    Print {
        head: Head,
        newline: bool,
        /// The bytes between the quotes, as they are written.
        text: Items<u8>,
        arguments: Items<Node>,
    },
    Panic {
        head: Head,
    },
    /// `assert!(e)`
    Assert {
        head: Head,
        condition: Boxed<Node>,
    },
    /// `let`, of a variable by its number, with or without a value.
    Let {
        head: Head,
        variable: u32,
        value: Option<Boxed<Node>>,
    },
    /// An expression as a statement, with or without a semicolon.
    Statement {
        head: Head,
        expression: Boxed<Node>,
    },
}
