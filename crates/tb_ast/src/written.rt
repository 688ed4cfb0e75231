//! Types as they are written.

use crate::leaf::{IntLiteral, Lifetime, Mark, Path};
use sqlite_items::{Boxed, Items};
use tb_perm::Span;

/// A type.
#[cycle(types)]
#[derive(Debug, Drop)]
pub enum TypeExpr {
    /// `()`
    Unit {
        span: Span,
        opening: Span,
        closing: Span,
    },
    /// `(T, T, ..)`, of two parts or more.
    Tuple {
        span: Span,
        opening: Span,
        parts: Items<TypeExpr>,
        commas: Items<Span>,
        closing: Span,
    },
    /// `[T]`
    Slice {
        span: Span,
        opening: Span,
        element: Boxed<TypeExpr>,
        closing: Span,
    },
    /// `[T; n]`
    Array {
        span: Span,
        opening: Span,
        element: Boxed<TypeExpr>,
        semicolon: Span,
        length: IntLiteral,
        closing: Span,
    },
    /// `&T` or `&mut T`, with or without a lifetime.
    Reference {
        span: Span,
        and: Mark,
        lifetime: Option<Lifetime>,
        mut_keyword: Option<Span>,
        target: Boxed<TypeExpr>,
    },
    /// `*const T` or `*mut T`
    Pointer {
        span: Span,
        star: Span,
        kind: PointerKind,
        target: Boxed<TypeExpr>,
    },
    /// A path, with or without arguments.
    Path {
        span: Span,
        path: Path,
        arguments: Option<TypeArguments>,
    },
}

/// What stands behind the `*` of a raw pointer's type.
#[derive(Clone, Copy, Debug, PartialEq, Eq)]
pub enum PointerKind {
    Const { const_keyword: Span },
    Mut { mut_keyword: Span },
}

/// Lifetimes and types in `<` and `>` behind a path.
#[cycle(types)]
#[derive(Debug, Drop)]
pub struct TypeArguments {
    pub opening: Span,
    pub arguments: Items<TypeArgument>,
    pub commas: Items<Span>,
    pub closing: Mark,
}

/// One of the arguments of a type's path.
#[cycle(types)]
#[derive(Debug, Drop)]
pub enum TypeArgument {
    Lifetime(Lifetime),
    TypeExpr(TypeExpr),
}

/// `::<T, ..>` behind the path of an expression.
#[derive(Debug, Drop)]
pub struct Turbofish {
    pub separator: Span,
    pub opening: Span,
    pub types: Items<TypeExpr>,
    pub commas: Items<Span>,
    pub closing: Mark,
}

/// `: T` behind a name.
#[derive(Debug, Drop)]
pub struct TypeNote {
    pub colon: Span,
    pub ty: TypeExpr,
}
