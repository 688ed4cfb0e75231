//! Names, paths and literals.

use sqlite_items::Items;
use tb_lex::{Integer, Name, Text};
use tb_perm::Span;

/// A mark that the source may have glued to the mark before it.
///
/// Where a type or a prefix begins, `&&` is two `&`, and where a list of types closes, `>>`, `>=` and
/// `>>=` are a `>` and the rest. Each part is a mark of its own, and keeps whether it is one token
/// with the part before it.
#[derive(Clone, Copy, Debug, PartialEq, Eq)]
pub struct Mark {
    /// Of its own bytes alone.
    pub span: Span,
    /// Whether it is one token with the mark that stands before it.
    pub glued: bool,
}

/// An identifier at its place.
#[derive(Debug, Drop)]
pub struct Ident {
    pub name: Name,
    pub span: Span,
}

/// A lifetime at its place.
#[derive(Debug, Drop)]
pub struct Lifetime {
    /// Without its `'`.
    pub name: Name,
    /// With its `'`.
    pub span: Span,
}

/// Identifiers with `::` between them.
#[derive(Debug, Drop)]
pub struct Path {
    pub span: Span,
    /// At least one.
    pub segments: Items<Ident>,
    /// The `::` behind each segment but the last.
    pub separators: Items<Span>,
}

/// An integer at its place.
#[derive(Clone, Copy, Debug, PartialEq, Eq)]
pub struct IntLiteral {
    pub integer: Integer,
    pub span: Span,
}

/// A character at its place.
#[derive(Clone, Copy, Debug, PartialEq, Eq)]
pub struct CharLiteral {
    pub value: char,
    pub span: Span,
}

/// A byte at its place.
#[derive(Clone, Copy, Debug, PartialEq, Eq)]
pub struct ByteLiteral {
    pub value: u8,
    pub span: Span,
}

/// `true` or `false` at its place.
#[derive(Clone, Copy, Debug, PartialEq, Eq)]
pub struct BoolLiteral {
    pub value: bool,
    pub span: Span,
}

/// A text in quotes at its place.
#[derive(Debug, Drop)]
pub struct TextLiteral {
    pub text: Text,
    pub span: Span,
}

/// A literal that is an expression.
#[derive(Clone, Copy, Debug, PartialEq, Eq)]
pub enum Literal {
    Int(IntLiteral),
    Char(CharLiteral),
    Byte(ByteLiteral),
    Bool(BoolLiteral),
}
