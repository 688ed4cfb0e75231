use sqlite_items::Items;
use tb_perm::Span;

/// A source that is read whole: its function `main`.
#[derive(Debug, Drop)]
pub struct SmallTree {
    /// From `fn` to the brace that closes the body.
    pub function: Span,
    pub body: Block,
}

/// Statements in braces.
#[derive(Debug, Drop)]
pub struct Block {
    /// From the opening brace to the closing one.
    pub span: Span,
    /// In the order of the text.
    pub statements: Items<Statement>,
}

/// One step of a block.
#[derive(Debug, Drop)]
pub enum Statement {
    Let(Let),
    Assign(Assign),
    Print(Print),
    Unsafe(UnsafeBlock),
}

/// A new variable, and its first value.
#[derive(Debug, Drop)]
pub struct Let {
    /// From `let` to the semicolon.
    pub span: Span,
    /// Whether the variable has `mut`.
    pub mutable: bool,
    pub name: Name,
    /// The type of the value, which is the variable's.
    pub ty: Ty,
    pub value: Right,
}

/// A name that a variable is given.
#[derive(Debug, Drop)]
pub struct Name {
    pub span: Span,
    pub bytes: Items<u8>,
}

/// A new value for a place.
#[derive(Debug, Drop)]
pub struct Assign {
    /// From the target to the semicolon.
    pub span: Span,
    pub target: Spot,
    pub value: Right,
}

/// A call of `print!` or `println!`.
#[derive(Debug, Drop)]
pub struct Print {
    /// From the name of the macro to the semicolon.
    pub span: Span,
    /// The macro alone: from its name to the parenthesis that closes it.
    pub call: Span,
    /// Whether it is `println!`.
    pub newline: bool,
    pub text: Text,
    /// One for each `{}` of the text, in its order.
    pub arguments: Items<Sum>,
}

/// Statements in `unsafe { .. }`.
#[derive(Debug, Drop)]
pub struct UnsafeBlock {
    /// From `unsafe` to the closing brace.
    pub span: Span,
    /// In the order of the text.
    pub statements: Items<Inner>,
}

/// One step of an `unsafe` block.
#[derive(Debug, Drop)]
pub enum Inner {
    Assign(Assign),
    Print(Print),
}

/// A text in quotes.
#[derive(Debug, Drop)]
pub struct Text {
    /// With its quotes.
    pub span: Span,
    /// What stands between the quotes, as it is written.
    pub source: Items<u8>,
}

/// What a variable or a place is given: a value, or one in `unsafe { .. }`.
#[derive(Debug, Drop)]
pub enum Right {
    Plain(Value),
    Unsafe(UnsafeRight),
}

/// A value in `unsafe { .. }`.
#[derive(Debug, Drop)]
pub struct UnsafeRight {
    /// From `unsafe` to the closing brace.
    pub span: Span,
    pub value: Value,
}

/// An integer, a new pointer, or a copy of a raw pointer.
#[derive(Debug, Drop)]
pub enum Value {
    Sum(Sum),
    Borrow(Borrow),
    /// A raw pointer variable.
    Pointer(Variable),
}

/// A new pointer to a place.
#[derive(Clone, Copy, Debug, PartialEq, Eq)]
pub struct Borrow {
    /// From `&` to the end of the operand.
    pub span: Span,
    pub kind: RefKind,
    pub operand: Spot,
}

/// A kind of pointer: a reference, or a raw pointer.
#[derive(Clone, Copy, Debug, PartialEq, Eq)]
pub enum RefKind {
    /// `&`.
    Shared,
    /// `&mut`.
    Mut,
    /// `*const`, made by `&raw const`.
    RawConst,
    /// `*mut`, made by `&raw mut`.
    RawMut,
}

/// The type of a variable.
#[derive(Clone, Copy, Debug, PartialEq, Eq)]
pub enum Ty {
    /// `i32`.
    Int32,
    /// A pointer of this kind to an `i32`.
    Pointer(RefKind),
}

/// A place: a variable, or what a pointer variable points to.
#[derive(Clone, Copy, Debug, PartialEq, Eq)]
pub enum Spot {
    Variable(Variable),
    Deref(Deref),
}

/// Atoms with `+` between them.
#[derive(Debug, Drop)]
pub struct Sum {
    pub first: Atom,
    /// At most 63, in the order of the text.
    pub rest: Items<Atom>,
}

/// A literal, a variable, or what a pointer variable points to.
#[derive(Clone, Copy, Debug, PartialEq, Eq)]
pub enum Atom {
    Int(Int),
    Variable(Variable),
    Deref(Deref),
}

/// A literal.
#[derive(Clone, Copy, Debug, PartialEq, Eq)]
pub struct Int {
    pub span: Span,
    /// At most 2,147,483,647.
    pub value: u32,
}

/// A mention of a variable.
#[derive(Clone, Copy, Debug, PartialEq, Eq)]
pub struct Variable {
    pub span: Span,
    /// The number of its `let`, counted from 0 in the order of the text.
    pub number: u32,
}

/// A pointer variable with `*` before it.
#[derive(Clone, Copy, Debug, PartialEq, Eq)]
pub struct Deref {
    /// From `*` to the end of the variable.
    pub span: Span,
    pub variable: Variable,
}
