//! What stands behind an operand, up to the next expression.

ghost use Rattle.std.specs.Prelude.{◌≡◌};
ghost use Rattle.tb_syntax.specs.Reading.{Gives};
ghost use Rattle.tb_forms.specs.Steps.{has_one_type, method_at, is_called, dot_step_at, operator_step, marked_step, cast_step_at, step_at};

use crate::levels::{assign_of, binary_of};
use crate::operand::unless_glued;
use crate::step::Step;
use std::alloc::Global;
use tb_ast::{AssignOp, BinaryOp, Ident, Mark, Turbofish};
use tb_lex::{Keyword, Punctuation};
use tb_perm::Span;
use tb_syntax::{Cursor, ReadError};

/// Whether there are no types, or one with no comma behind it.
fn has_one_type(turbofish: &Option<Turbofish>) -> bool
    ensures { result ≡ has_one_type turbofish.now }
{
    match turbofish {
        Some(turbofish) => turbofish.types.len() == 1 && turbofish.commas.len() == 0,
        None => true,
    }
}

/// The method of this name, up to its arguments.
fn method<'a>(
    cursor: Cursor<'a>,
    alloc: Global,
    depth: u32,
    dot: Span,
    name: Ident,
) -> Result<(Step, Cursor<'a>), ReadError>
    ensures { Gives (λ x. x) result (method_at depth dot name cursor.entry) }
{
    let (turbofish, rest) = cursor.turbofish(alloc, depth)?;
    if !has_one_type(&turbofish) {
        return Err(ReadError::Unexpected);
    }
    let (opening, rest) = rest.punct(Punctuation::OpenParen)?;
    let step = Step::MethodCall {
        dot,
        name,
        turbofish,
        opening,
    };
    Ok((step, rest))
}

/// Whether `(` or `::` comes next, which makes a name a method's.
fn is_called(cursor: &Cursor<'_>) -> bool
    ensures { result ≡ is_called cursor.now }
{
    cursor.has_mark(Punctuation::OpenParen) || cursor.has_mark(Punctuation::PathSep)
}

/// What stands behind a dot: a field, a method or a place in a tuple.
#[tactic(auto, unfolding(crate::specs::Steps::dot_step_at))]
fn dot_step<'a>(
    cursor: Cursor<'a>,
    alloc: Global,
    depth: u32,
    dot: Span,
) -> Result<(Step, Cursor<'a>), ReadError>
    ensures { Gives (λ x. x) result (dot_step_at depth dot cursor.entry) }
{
    if !cursor.has_name() {
        let (index, rest) = cursor.length()?;
        return Ok((Step::TupleField { dot, index }, rest));
    }
    let (name, rest) = cursor.name(alloc)?;
    if is_called(&rest) {
        return method(rest, alloc, depth, dot, name);
    }
    Ok((Step::Field { dot, name }, rest))
}

/// What an operator's mark is.
fn operator_step<'a>(
    operator: Option<BinaryOp>,
    assigns: Option<AssignOp>,
    at: Mark,
    rest: Cursor<'a>,
) -> Result<(Step, Cursor<'a>), ReadError>
    ensures { Gives (λ x. x) result (operator_step operator assigns at rest.entry) }
{
    if let Some(operator) = operator {
        let step = Step::Binary {
            operator,
            operator_mark: at,
        };
        return Ok((step, rest));
    }
    let Some(operator) = assigns else {
        return Err(ReadError::Unexpected);
    };
    let step = Step::AssignOp {
        operator,
        operator_span: at.span,
    };
    unless_glued(at, step, rest)
}

/// How an expression goes on with this mark, behind which the cursor stands.
fn marked_step<'a>(
    rest: Cursor<'a>,
    alloc: Global,
    depth: u32,
    mark: Punctuation,
    at: Mark,
) -> Result<(Step, Cursor<'a>), ReadError>
    ensures { Gives (λ x. x) result (marked_step depth mark at rest.entry) }
{
    match mark {
        Punctuation::Dot => {
            if at.glued {
                return Err(ReadError::Unexpected);
            }
            dot_step(rest, alloc, depth, at.span)
        }
        Punctuation::OpenBracket => unless_glued(at, Step::Index { opening: at.span }, rest),
        Punctuation::Eq => Ok((Step::Assign { equals: at }, rest)),
        other => operator_step(binary_of(other), assign_of(other), at, rest),
    }
}

/// `as T`.
#[tactic(auto, unfolding(crate::specs::Steps::cast_step_at))]
fn cast_step<'a>(
    cursor: Cursor<'a>,
    alloc: Global,
    depth: u32,
) -> Result<(Step, Cursor<'a>), ReadError>
    ensures { Gives (λ x. x) result (cast_step_at depth cursor.entry) }
{
    let (as_keyword, rest) = cursor.keyword(Keyword::As)?;
    let (ty, rest) = rest.ty(alloc, depth)?;
    Ok((Step::Cast { as_keyword, ty }, rest))
}

/// How an expression goes on with what comes next, up to the next expression or list, and what follows
/// that.
///
/// `depth` is how many types may lie in one another in a cast or a `::<T>`. The number of a part of a
/// tuple has no suffix, and a method has one type at most.
///
/// # Errors
///
/// `Unexpected` where no expression goes on so, and `Memory` where the allocator has no room.
#[tactic(auto, unfolding(crate::specs::Steps::step_at))]
pub fn read_step<'a>(
    cursor: Cursor<'a>,
    alloc: Global,
    depth: u32,
) -> Result<(Step, Cursor<'a>), ReadError>
    ensures gives { Gives (λ x. x) result (step_at depth cursor.entry) }
{
    match cursor.first_mark() {
        Some((mark, at, rest)) => marked_step(rest, alloc, depth, mark, at),
        None => cast_step(cursor, alloc, depth),
    }
}
