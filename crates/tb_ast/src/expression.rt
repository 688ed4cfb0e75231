//! Expressions, statements and blocks.

use crate::leaf::{Ident, IntLiteral, Literal, Mark, Path, TextLiteral};
use crate::operator::{AssignOp, BinaryOp, Borrow, UnaryOp};
use crate::written::{Turbofish, TypeExpr, TypeNote};
use sqlite_items::{Boxed, Items};
use tb_perm::Span;

/// An expression.
#[cycle(expressions)]
#[derive(Debug, Drop)]
pub enum Expr {
    Literal(Literal),
    /// A variable or another name, with or without `::<T>`.
    Path(ExprPath),
    /// `path { name: value, name, .. }`
    StructLiteral {
        span: Span,
        path: Path,
        opening: Span,
        fields: Items<FieldValue>,
        commas: Items<Span>,
        closing: Span,
    },
    /// `()`
    Unit {
        span: Span,
        opening: Span,
        closing: Span,
    },
    /// `(e)`
    Paren {
        span: Span,
        opening: Span,
        inner: Boxed<Expr>,
        closing: Span,
    },
    /// `(e, e, ..)`, of two parts or more.
    Tuple {
        span: Span,
        opening: Span,
        parts: Items<Expr>,
        commas: Items<Span>,
        closing: Span,
    },
    /// `[e, ..]`
    Array {
        span: Span,
        opening: Span,
        elements: Items<Expr>,
        commas: Items<Span>,
        closing: Span,
    },
    /// `[e; n]`
    Repeat {
        span: Span,
        opening: Span,
        element: Boxed<Expr>,
        semicolon: Span,
        length: IntLiteral,
        closing: Span,
    },
    /// A bare block.
    Block(Block),
    /// `unsafe { .. }`
    Unsafe {
        span: Span,
        unsafe_keyword: Span,
        body: Block,
    },
    /// `while e { .. }`
    While {
        span: Span,
        while_keyword: Span,
        condition: Boxed<Expr>,
        body: Block,
    },
    /// `loop { .. }`
    Loop {
        span: Span,
        loop_keyword: Span,
        body: Block,
    },
    /// `if e { .. }`, with or without `else`.
    If {
        span: Span,
        if_keyword: Span,
        condition: Boxed<Expr>,
        body: Block,
        otherwise: Option<Else>,
    },
    /// `return` or `return e`
    Return {
        span: Span,
        return_keyword: Span,
        value: Option<Boxed<Expr>>,
    },
    /// `break`
    Break {
        span: Span,
    },
    /// `continue`
    Continue {
        span: Span,
    },
    /// `print!(text, e, ..)` or `println!(text, e, ..)`; `println!()` has no text.
    Print {
        span: Span,
        /// `print`, or `println` where a newline is due.
        word: Span,
        newline: bool,
        bang: Span,
        opening: Span,
        text: Option<PrintText>,
        arguments: Items<Expr>,
        commas: Items<Span>,
        closing: Span,
    },
    /// `panic!()` or `panic!(text)`
    Panic {
        span: Span,
        word: Span,
        bang: Span,
        opening: Span,
        text: Option<TextLiteral>,
        closing: Span,
    },
    /// `assert!(e)`
    Assert {
        span: Span,
        word: Span,
        bang: Span,
        opening: Span,
        condition: Boxed<Expr>,
        comma: Option<Span>,
        closing: Span,
    },
    /// `e.name`
    Field {
        span: Span,
        base: Boxed<Expr>,
        dot: Span,
        name: Ident,
    },
    /// `e.0`
    TupleField {
        span: Span,
        base: Boxed<Expr>,
        dot: Span,
        index: IntLiteral,
    },
    /// `e.name(e, ..)` or `e.name::<T>(e, ..)`
    MethodCall {
        span: Span,
        receiver: Boxed<Expr>,
        dot: Span,
        name: Ident,
        turbofish: Option<Turbofish>,
        opening: Span,
        arguments: Items<Expr>,
        commas: Items<Span>,
        closing: Span,
    },
    /// `path(e, ..)` or `path::<T>(e, ..)`
    Call {
        span: Span,
        callee: ExprPath,
        opening: Span,
        arguments: Items<Expr>,
        commas: Items<Span>,
        closing: Span,
    },
    /// `e[e]`
    Index {
        span: Span,
        base: Boxed<Expr>,
        opening: Span,
        index: Boxed<Expr>,
        closing: Span,
    },
    /// `-e`, `!e` or `*e`
    Unary {
        span: Span,
        operator: UnaryOp,
        operator_span: Span,
        operand: Boxed<Expr>,
    },
    /// `&e`, `&mut e`, `&raw const e` or `&raw mut e`
    Borrow {
        span: Span,
        and: Mark,
        kind: Borrow,
        operand: Boxed<Expr>,
    },
    /// `e as T`
    Cast {
        span: Span,
        operand: Boxed<Expr>,
        as_keyword: Span,
        ty: TypeExpr,
    },
    /// `e + e` and the like.
    Binary {
        span: Span,
        left: Boxed<Expr>,
        operator: BinaryOp,
        operator_mark: Mark,
        right: Boxed<Expr>,
    },
    /// `e = e`
    Assign {
        span: Span,
        target: Boxed<Expr>,
        equals: Mark,
        value: Boxed<Expr>,
    },
    /// `e += e` and the like.
    AssignOp {
        span: Span,
        target: Boxed<Expr>,
        operator: AssignOp,
        operator_span: Span,
        value: Boxed<Expr>,
    },
}

/// The text of a `print!`, and the comma behind it.
#[derive(Debug, Drop)]
pub struct PrintText {
    pub text: TextLiteral,
    pub comma: Option<Span>,
}

/// A path in an expression, with or without `::<T>`.
#[derive(Debug, Drop)]
pub struct ExprPath {
    pub span: Span,
    pub path: Path,
    pub turbofish: Option<Turbofish>,
}

/// A field of a struct literal.
#[cycle(expressions)]
#[derive(Debug, Drop)]
pub enum FieldValue {
    /// `name: e`
    Named {
        name: Ident,
        colon: Span,
        value: Expr,
    },
    /// `name`, where the value is the variable of that name.
    Short {
        name: Ident,
    },
}

/// What stands behind the block of an `if`.
#[cycle(expressions)]
#[derive(Debug, Drop)]
pub enum Else {
    /// `else { .. }`
    ElseBlock {
        else_keyword: Span,
        body: Block,
    },
    /// `else if ..`
    ElseIf {
        else_keyword: Span,
        /// An `if`.
        branch: Boxed<Expr>,
    },
}

/// Statements in braces, and the value that they end with.
#[cycle(expressions)]
#[derive(Debug, Drop)]
pub struct Block {
    pub span: Span,
    pub opening: Span,
    pub statements: Items<Stmt>,
    pub last: Option<Boxed<Expr>>,
    pub closing: Span,
}

/// A statement.
#[cycle(expressions)]
#[derive(Debug, Drop)]
pub enum Stmt {
    /// `;`
    Empty {
        span: Span,
    },
    /// `let name: T = e;`
    Let {
        span: Span,
        let_keyword: Span,
        mut_keyword: Option<Span>,
        name: Ident,
        ty: Option<TypeNote>,
        value: Option<Initializer>,
        semicolon: Span,
    },
    /// `e;`
    Expr {
        span: Span,
        expression: Expr,
        semicolon: Span,
    },
    /// A block, an `unsafe` block, a `while`, a `loop` or an `if`, without `;`.
    Blocky {
        expression: Expr,
    },
}

/// `= e` in a `let`.
#[cycle(expressions)]
#[derive(Debug, Drop)]
pub struct Initializer {
    pub equals: Mark,
    pub value: Expr,
}
