//! Operands and steps, by their first part and what was read behind it.

ghost use Rattle.std.specs.Prelude.{◌≡◌};
ghost use Rattle.tb_syntax.specs.Reading.{Gives};
ghost use Rattle.tb_forms.specs.Wants.{alone_at, with_at, values_at, fields_at, body_of, repeated_of, chosen_of, finished_at, step_alone, step_with, step_values, step_finished_at};

use crate::closing::{
    close_array, close_assert, close_call, close_group, close_index, close_method, close_print,
    close_struct,
};
use crate::front::Front;
use crate::step::Step;
use crate::tree::{
    assign_to, binary_with, borrow_to, cast_to, compute_to, field_of, if_to, loop_to, panic_of,
    return_to, tuple_field_of, unary_to, unsafe_to, while_to,
};
use crate::wanted::Got;
use sqlite_items::{Boxed, Items};
use std::alloc::Global;
use tb_ast::{Block, Else, Expr, FieldValue};
use tb_perm::Span;
use tb_syntax::{Cursor, ReadError};

/// An operand in which nothing more stands.
fn alone<'a>(
    cursor: Cursor<'a>,
    alloc: Global,
    front: Front,
) -> Result<(Boxed<Expr>, Cursor<'a>), ReadError>
    ensures { Gives (λ x. x) result (alone_at front cursor.entry) }
{
    match front {
        Front::Literal(value) => Ok((Boxed::new(alloc, Expr::Literal(value))?, cursor)),
        Front::Path(path) => Ok((Boxed::new(alloc, Expr::Path(path))?, cursor)),
        Front::Return { return_keyword } => Ok((return_to(alloc, return_keyword, None)?, cursor)),
        Front::Break { span } => Ok((Boxed::new(alloc, Expr::Break { span })?, cursor)),
        Front::Continue { span } => Ok((Boxed::new(alloc, Expr::Continue { span })?, cursor)),
        Front::Print {
            word,
            newline,
            bang,
            opening,
            text,
        } => {
            let values = Items::new(alloc);
            let commas = Items::new(alloc);
            close_print(
                cursor, alloc, word, newline, bang, opening, text, values, commas,
            )
        }
        Front::Panic {
            word,
            bang,
            opening,
            text,
            closing,
        } => Ok((panic_of(alloc, word, bang, opening, text, closing)?, cursor)),
        _ => Err(ReadError::Unexpected),
    }
}

/// An operand with an expression.
fn with_one<'a>(
    cursor: Cursor<'a>,
    alloc: Global,
    front: Front,
    e: Boxed<Expr>,
) -> Result<(Boxed<Expr>, Cursor<'a>), ReadError>
    ensures { Gives (λ x. x) result (with_at front e cursor.entry) }
{
    match front {
        Front::Return { return_keyword } => {
            Ok((return_to(alloc, return_keyword, Some(e))?, cursor))
        }
        Front::Assert {
            word,
            bang,
            opening,
        } => close_assert(cursor, alloc, word, bang, opening, e),
        Front::Unary {
            operator,
            operator_span,
        } => Ok((unary_to(alloc, operator, operator_span, e)?, cursor)),
        Front::Borrow { and, kind } => Ok((borrow_to(alloc, and, kind, e)?, cursor)),
        _ => Err(ReadError::Unexpected),
    }
}

/// An operand with expressions in brackets.
fn with_values<'a>(
    cursor: Cursor<'a>,
    alloc: Global,
    front: Front,
    values: Items<Expr>,
    commas: Items<Span>,
) -> Result<(Boxed<Expr>, Cursor<'a>), ReadError>
    ensures { Gives (λ x. x) result (values_at front values commas cursor.entry) }
{
    match front {
        Front::Call { callee, opening } => {
            close_call(cursor, alloc, callee, opening, values, commas)
        }
        Front::Paren { opening } => close_group(cursor, alloc, opening, values, commas),
        Front::Bracket { opening } => close_array(cursor, alloc, opening, values, commas),
        Front::Print {
            word,
            newline,
            bang,
            opening,
            text,
        } => close_print(
            cursor, alloc, word, newline, bang, opening, text, values, commas,
        ),
        _ => Err(ReadError::Unexpected),
    }
}

/// A struct literal.
fn with_fields<'a>(
    cursor: Cursor<'a>,
    alloc: Global,
    front: Front,
    fields: Items<FieldValue>,
    commas: Items<Span>,
) -> Result<(Boxed<Expr>, Cursor<'a>), ReadError>
    ensures { Gives (λ x. x) result (fields_at front fields commas cursor.entry) }
{
    match front {
        Front::StructLiteral { path, opening } => {
            close_struct(cursor, alloc, path, opening, fields, commas)
        }
        _ => Err(ReadError::Unexpected),
    }
}

/// An operand with a block.
fn with_body(alloc: Global, front: Front, body: Block) -> Result<Boxed<Expr>, ReadError>
    ensures { Gives (λ e. e) result (body_of front body) }
{
    match front {
        Front::Block => Ok(Boxed::new(alloc, Expr::Block(body))?),
        Front::Unsafe { unsafe_keyword } => unsafe_to(alloc, unsafe_keyword, body),
        Front::Loop { loop_keyword } => loop_to(alloc, loop_keyword, body),
        _ => Err(ReadError::Unexpected),
    }
}

/// `while e { .. }`.
fn repeated(
    alloc: Global,
    front: Front,
    condition: Boxed<Expr>,
    body: Block,
) -> Result<Boxed<Expr>, ReadError>
    ensures { Gives (λ e. e) result (repeated_of front condition body) }
{
    match front {
        Front::While { while_keyword } => while_to(alloc, while_keyword, condition, body),
        _ => Err(ReadError::Unexpected),
    }
}

/// `if e { .. }`, with or without `else`.
fn chosen(
    alloc: Global,
    front: Front,
    condition: Boxed<Expr>,
    body: Block,
    otherwise: Option<Else>,
) -> Result<Boxed<Expr>, ReadError>
    ensures { Gives (λ e. e) result (chosen_of front condition body otherwise) }
{
    match front {
        Front::If { if_keyword } => if_to(alloc, if_keyword, condition, body, otherwise),
        _ => Err(ReadError::Unexpected),
    }
}

/// The operand that begins so, with what was read behind that, and what follows it.
///
/// # Errors
///
/// `Unexpected` where what was read is not what it wants, or does not end there as it should, and `Memory`
/// where the allocator has no room.
#[tactic(auto, unfolding(crate::specs::Wants::finished_at))]
pub fn finish<'a>(
    cursor: Cursor<'a>,
    alloc: Global,
    front: Front,
    got: Got,
) -> Result<(Boxed<Expr>, Cursor<'a>), ReadError>
    ensures gives { Gives (λ x. x) result (finished_at front got cursor.entry) }
{
    match got {
        Got::Nothing => alone(cursor, alloc, front),
        Got::One(e) => with_one(cursor, alloc, front, e),
        Got::Values { values, commas } => with_values(cursor, alloc, front, values, commas),
        Got::Fields { fields, commas } => with_fields(cursor, alloc, front, fields, commas),
        Got::Body(body) => Ok((with_body(alloc, front, body)?, cursor)),
        Got::Repeated { condition, body } => {
            Ok((repeated(alloc, front, condition, body)?, cursor))
        }
        Got::Chosen {
            condition,
            body,
            otherwise,
        } => Ok((chosen(alloc, front, condition, body, otherwise)?, cursor)),
    }
}

/// A step in which nothing more stands.
fn step_alone(alloc: Global, left: Boxed<Expr>, step: Step) -> Result<Boxed<Expr>, ReadError>
    ensures { Gives (λ e. e) result (step_alone left step) }
{
    match step {
        Step::Field { dot, name } => field_of(alloc, left, dot, name),
        Step::TupleField { dot, index } => tuple_field_of(alloc, left, dot, index),
        Step::Cast { as_keyword, ty } => cast_to(alloc, left, as_keyword, ty),
        _ => Err(ReadError::Unexpected),
    }
}

/// A step with an expression.
fn step_with<'a>(
    cursor: Cursor<'a>,
    alloc: Global,
    left: Boxed<Expr>,
    step: Step,
    e: Boxed<Expr>,
) -> Result<(Boxed<Expr>, Cursor<'a>), ReadError>
    ensures { Gives (λ x. x) result (step_with left step e cursor.entry) }
{
    match step {
        Step::Index { opening } => close_index(cursor, alloc, left, opening, e),
        Step::Binary {
            operator,
            operator_mark,
        } => Ok((
            binary_with(alloc, left, operator, operator_mark, e)?,
            cursor,
        )),
        Step::Assign { equals } => Ok((assign_to(alloc, left, equals, e)?, cursor)),
        Step::AssignOp {
            operator,
            operator_span,
        } => Ok((compute_to(alloc, left, operator, operator_span, e)?, cursor)),
        _ => Err(ReadError::Unexpected),
    }
}

/// A step with expressions in brackets.
fn step_values<'a>(
    cursor: Cursor<'a>,
    alloc: Global,
    left: Boxed<Expr>,
    step: Step,
    values: Items<Expr>,
    commas: Items<Span>,
) -> Result<(Boxed<Expr>, Cursor<'a>), ReadError>
    ensures { Gives (λ x. x) result (step_values left step values commas cursor.entry) }
{
    match step {
        Step::MethodCall {
            dot,
            name,
            turbofish,
            opening,
        } => close_method(
            cursor, alloc, left, dot, name, turbofish, opening, values, commas,
        ),
        _ => Err(ReadError::Unexpected),
    }
}

/// The expression that is this left operand with the step that begins so and what was read behind that,
/// and what follows it.
#[tactic(auto, unfolding(crate::specs::Wants::step_finished_at))]
pub fn finish_step<'a>(
    cursor: Cursor<'a>,
    alloc: Global,
    left: Boxed<Expr>,
    step: Step,
    got: Got,
) -> Result<(Boxed<Expr>, Cursor<'a>), ReadError>
    ensures gives { Gives (λ x. x) result (step_finished_at left step got cursor.entry) }
{
    match got {
        Got::Nothing => Ok((step_alone(alloc, left, step)?, cursor)),
        Got::One(e) => step_with(cursor, alloc, left, step, e),
        Got::Values { values, commas } => step_values(cursor, alloc, left, step, values, commas),
        _ => Err(ReadError::Unexpected),
    }
}
