//! Lines, but for the expression in them.

ghost use Rattle.std.specs.Prelude.{◌≡◌};
ghost use Rattle.tb_syntax.specs.Reading.{Gives};
ghost use Rattle.tb_expr.specs.Exprs.{ended_by, equals_at, let_start_at, start_at, line_wants, initializer_of, let_end_at, blocky_end_at, plain_end_at, line_end_at};

use crate::lines::Line;
use sqlite_items::Boxed;
use std::alloc::Global;
use tb_ast::{Expr, Ident, Initializer, Mark, Stmt, TypeNote};
use tb_forms::{LOOSEST_LEVEL, OPERAND_ALONE};
use tb_lex::{Keyword, Punctuation};
use tb_perm::Span;
use tb_syntax::{Cursor, ReadError, from_to};

/// What a line begins with, up to the expression in it.
#[derive(Debug, Drop)]
pub enum Start {
    /// `;`
    Empty {
        span: Span,
    },
    /// A `let` up to its value or `;`.
    Let {
        let_keyword: Span,
        mut_keyword: Option<Span>,
        name: Ident,
        ty: Option<TypeNote>,
        equals: Option<Mark>,
    },
    /// Before a block, an `unsafe` block, a `while`, a `loop` or an `if`.
    Blocky,
    /// Before another expression.
    Plain,
}

/// `=`, if it comes next.
#[tactic(auto, unfolding(crate::specs::Exprs::equals_at))]
fn equals<'a>(cursor: Cursor<'a>) -> Result<(Option<Mark>, Cursor<'a>), ReadError>
    ensures { Gives (λ x. x) result (equals_at cursor.entry) }
{
    if !cursor.has_mark(Punctuation::Eq) {
        return Ok((None, cursor));
    }
    let (equals, rest) = cursor.mark(Punctuation::Eq)?;
    Ok((Some(equals), rest))
}

/// A `let` up to its value or `;`.
#[tactic(auto, unfolding(crate::specs::Exprs::let_start_at))]
fn let_start<'a>(
    cursor: Cursor<'a>,
    alloc: Global,
    depth: u32,
) -> Result<(Start, Cursor<'a>), ReadError>
    ensures { Gives (λ x. x) result (let_start_at depth cursor.entry) }
{
    let (let_keyword, rest) = cursor.keyword(Keyword::Let)?;
    let (mut_keyword, rest) = rest.optional_keyword(Keyword::Mut)?;
    let (name, rest) = rest.name(alloc)?;
    let (ty, rest) = rest.type_note(alloc, depth)?;
    let (equals, rest) = equals(rest)?;
    let start = Start::Let {
        let_keyword,
        mut_keyword,
        name,
        ty,
        equals,
    };
    Ok((start, rest))
}

/// What the line that comes next begins with.
#[tactic(auto, unfolding(crate::specs::Exprs::start_at))]
pub fn read_start<'a>(
    cursor: Cursor<'a>,
    alloc: Global,
    depth: u32,
) -> Result<(Start, Cursor<'a>), ReadError>
    ensures { Gives (λ x. x) result (start_at depth cursor.entry) }
{
    if cursor.has_mark(Punctuation::Semicolon) {
        let (span, rest) = cursor.punct(Punctuation::Semicolon)?;
        return Ok((Start::Empty { span }, rest));
    }
    if cursor.has_keyword(Keyword::Let) {
        return let_start(cursor, alloc, depth);
    }
    if tb_forms::begins_blocky(&cursor) {
        return Ok((Start::Blocky, cursor));
    }
    Ok((Start::Plain, cursor))
}

impl Start {
    /// The level of the expression that the line wants, if it wants one: what begins with a block ends
    /// with it.
    #[tactic(auto, unfolding(crate::specs::Exprs::line_wants))]
    pub fn wants(&self) -> Option<u32>
        ensures { result ≡ line_wants self.now }
    {
        match self {
            Start::Empty { .. } => None,
            Start::Let { equals, .. } => match equals {
                Some(_) => Some(LOOSEST_LEVEL),
                None => None,
            },
            Start::Blocky => Some(OPERAND_ALONE),
            Start::Plain => Some(LOOSEST_LEVEL),
        }
    }
}

/// The value of a `let` behind its `=`, or none of one without `=`.
fn initializer_of(
    equals: Option<Mark>,
    value: Option<Boxed<Expr>>,
) -> Result<Option<Initializer>, ReadError>
    ensures { Gives (λ x. x) result (initializer_of equals value) }
{
    match (equals, value) {
        (None, None) => Ok(None),
        (Some(equals), Some(value)) => {
            let value = value.into_inner();
            Ok(Some(Initializer { equals, value }))
        }
        _ => Err(ReadError::Unexpected),
    }
}

/// A `let`, before its `;`.
fn let_end<'a>(
    cursor: Cursor<'a>,
    let_keyword: Span,
    mut_keyword: Option<Span>,
    name: Ident,
    ty: Option<TypeNote>,
    value: Option<Initializer>,
) -> Result<(Line, Cursor<'a>), ReadError>
    ensures { Gives (λ x. x) result (let_end_at let_keyword mut_keyword name ty value cursor.entry) }
{
    let (semicolon, rest) = cursor.punct(Punctuation::Semicolon)?;
    let statement = Stmt::Let {
        span: from_to(let_keyword, semicolon),
        let_keyword,
        mut_keyword,
        name,
        ty,
        value,
        semicolon,
    };
    Ok((Line::Stmt(statement), rest))
}

/// An expression that ends with its block: the last one before `}`, or a statement.
fn blocky_end<'a>(cursor: Cursor<'a>, e: Boxed<Expr>) -> Result<(Line, Cursor<'a>), ReadError>
    ensures { Gives (λ x. x) result (blocky_end_at e cursor.entry) }
{
    if cursor.has_mark(Punctuation::CloseBrace) {
        return Ok((Line::Last(e), cursor));
    }
    let expression = e.into_inner();
    Ok((Line::Stmt(Stmt::Blocky { expression }), cursor))
}

/// An expression with its semicolon.
fn ended_by(e: Boxed<Expr>, semicolon: Span) -> Stmt
    ensures { result ≡ ended_by e semicolon }
{
    Stmt::Expr {
        span: from_to(e.get().span(), semicolon),
        expression: e.into_inner(),
        semicolon,
    }
}

/// Another expression: a statement with `;` behind it, or the last one before `}`.
fn plain_end<'a>(cursor: Cursor<'a>, e: Boxed<Expr>) -> Result<(Line, Cursor<'a>), ReadError>
    ensures { Gives (λ x. x) result (plain_end_at e cursor.entry) }
{
    if cursor.has_mark(Punctuation::Semicolon) {
        let (semicolon, rest) = cursor.punct(Punctuation::Semicolon)?;
        return Ok((Line::Stmt(ended_by(e, semicolon)), rest));
    }
    if cursor.has_mark(Punctuation::CloseBrace) {
        return Ok((Line::Last(e), cursor));
    }
    Err(ReadError::Unexpected)
}

/// The line that begins so, with the expression that it wants.
#[tactic(auto, unfolding(crate::specs::Exprs::line_end_at))]
pub fn end_line<'a>(
    cursor: Cursor<'a>,
    start: Start,
    value: Option<Boxed<Expr>>,
) -> Result<(Line, Cursor<'a>), ReadError>
    ensures { Gives (λ x. x) result (line_end_at start value cursor.entry) }
{
    match (start, value) {
        (Start::Empty { span }, _) => Ok((Line::Stmt(Stmt::Empty { span }), cursor)),
        (
            Start::Let {
                let_keyword,
                mut_keyword,
                name,
                ty,
                equals,
            },
            value,
        ) => {
            let value = initializer_of(equals, value)?;
            let_end(cursor, let_keyword, mut_keyword, name, ty, value)
        }
        (Start::Blocky, Some(e)) => blocky_end(cursor, e),
        (Start::Plain, Some(e)) => plain_end(cursor, e),
        _ => Err(ReadError::Unexpected),
    }
}
