//! Trees by their parts.
//!
//! Each tree stands from its first token to its last. A part is boxed already, and what is made is
//! boxed at once.

ghost use Rattle.std.specs.Prelude.{◌≡◌, Some};
ghost use Rattle.tb_syntax.specs.Reading.{Gives};
ghost use Rattle.tb_forms.specs.Trees.{return_span, branch_span, if_span, unary_to, borrow_to, return_to, unsafe_to, loop_to, while_to, if_to, field_of, tuple_field_of, cast_to, binary_with, assign_to, compute_to, panic_of};

use sqlite_items::Boxed;
use std::alloc::Global;
use tb_ast::{
    AssignOp, BinaryOp, Block, Borrow, Else, Expr, Ident, IntLiteral, Mark, TextLiteral, TypeExpr,
    UnaryOp,
};
use tb_perm::Span;
use tb_syntax::{ReadError, from_to};

/// `-e`, `!e` or `*e`.
///
/// # Errors
///
/// `Memory` where the allocator has no room, as for each tree here.
pub fn unary_to(
    alloc: Global,
    operator: UnaryOp,
    at: Span,
    operand: Boxed<Expr>,
) -> Result<Boxed<Expr>, ReadError>
    ensures gives { Gives (λ e. e) result (Some (unary_to operator at operand)) }
{
    let span = from_to(at, operand.get().span());
    Ok(Boxed::new(
        alloc,
        Expr::Unary {
            span,
            operator,
            operator_span: at,
            operand,
        },
    )?)
}

/// `&e`, `&mut e`, `&raw const e` or `&raw mut e`.
pub fn borrow_to(
    alloc: Global,
    and: Mark,
    kind: Borrow,
    operand: Boxed<Expr>,
) -> Result<Boxed<Expr>, ReadError>
    ensures gives { Gives (λ e. e) result (Some (borrow_to and kind operand)) }
{
    let span = from_to(and.span, operand.get().span());
    Ok(Boxed::new(
        alloc,
        Expr::Borrow {
            span,
            and,
            kind,
            operand,
        },
    )?)
}

/// From `return` to the end of the value behind it.
fn return_span(at: Span, value: &Option<Boxed<Expr>>) -> Span
    ensures { result ≡ return_span at value.now }
{
    match value {
        Some(value) => from_to(at, value.get().span()),
        None => at,
    }
}

/// `return` or `return e`.
pub fn return_to(
    alloc: Global,
    at: Span,
    value: Option<Boxed<Expr>>,
) -> Result<Boxed<Expr>, ReadError>
    ensures gives { Gives (λ e. e) result (Some (return_to at value)) }
{
    let span = return_span(at, &value);
    Ok(Boxed::new(
        alloc,
        Expr::Return {
            span,
            return_keyword: at,
            value,
        },
    )?)
}

/// `unsafe { .. }`.
pub fn unsafe_to(alloc: Global, at: Span, body: Block) -> Result<Boxed<Expr>, ReadError>
    ensures gives { Gives (λ e. e) result (Some (unsafe_to at body)) }
{
    let span = from_to(at, body.span);
    Ok(Boxed::new(
        alloc,
        Expr::Unsafe {
            span,
            unsafe_keyword: at,
            body,
        },
    )?)
}

/// `loop { .. }`.
pub fn loop_to(alloc: Global, at: Span, body: Block) -> Result<Boxed<Expr>, ReadError>
    ensures gives { Gives (λ e. e) result (Some (loop_to at body)) }
{
    let span = from_to(at, body.span);
    Ok(Boxed::new(
        alloc,
        Expr::Loop {
            span,
            loop_keyword: at,
            body,
        },
    )?)
}

/// `while e { .. }`.
pub fn while_to(
    alloc: Global,
    at: Span,
    condition: Boxed<Expr>,
    body: Block,
) -> Result<Boxed<Expr>, ReadError>
    ensures gives { Gives (λ e. e) result (Some (while_to at condition body)) }
{
    let span = from_to(at, body.span);
    Ok(Boxed::new(
        alloc,
        Expr::While {
            span,
            while_keyword: at,
            condition,
            body,
        },
    )?)
}

/// From `if` to the end of its last block.
fn if_span(at: Span, body: &Block, otherwise: &Option<Else>) -> Span
    ensures { result ≡ if_span at body.now otherwise.now }
{
    match otherwise {
        Some(Else::ElseBlock { body, .. }) => from_to(at, body.span),
        Some(Else::ElseIf { branch, .. }) => from_to(at, branch.get().span()),
        None => from_to(at, body.span),
    }
}

/// `if e { .. }`, with or without `else`.
pub fn if_to(
    alloc: Global,
    at: Span,
    condition: Boxed<Expr>,
    body: Block,
    otherwise: Option<Else>,
) -> Result<Boxed<Expr>, ReadError>
    ensures gives { Gives (λ e. e) result (Some (if_to at condition body otherwise)) }
{
    let span = if_span(at, &body, &otherwise);
    Ok(Boxed::new(
        alloc,
        Expr::If {
            span,
            if_keyword: at,
            condition,
            body,
            otherwise,
        },
    )?)
}

/// `e.name`.
pub fn field_of(
    alloc: Global,
    base: Boxed<Expr>,
    dot: Span,
    name: Ident,
) -> Result<Boxed<Expr>, ReadError>
    ensures gives { Gives (λ e. e) result (Some (field_of base dot name)) }
{
    let span = from_to(base.get().span(), name.span);
    Ok(Boxed::new(
        alloc,
        Expr::Field {
            span,
            base,
            dot,
            name,
        },
    )?)
}

/// `e.0`.
pub fn tuple_field_of(
    alloc: Global,
    base: Boxed<Expr>,
    dot: Span,
    index: IntLiteral,
) -> Result<Boxed<Expr>, ReadError>
    ensures gives { Gives (λ e. e) result (Some (tuple_field_of base dot index)) }
{
    let span = from_to(base.get().span(), index.span);
    Ok(Boxed::new(
        alloc,
        Expr::TupleField {
            span,
            base,
            dot,
            index,
        },
    )?)
}

/// `e as T`.
pub fn cast_to(
    alloc: Global,
    operand: Boxed<Expr>,
    at: Span,
    ty: TypeExpr,
) -> Result<Boxed<Expr>, ReadError>
    ensures gives { Gives (λ e. e) result (Some (cast_to operand at ty)) }
{
    let span = from_to(operand.get().span(), ty.span());
    Ok(Boxed::new(
        alloc,
        Expr::Cast {
            span,
            operand,
            as_keyword: at,
            ty,
        },
    )?)
}

/// `e + e` and the like.
pub fn binary_with(
    alloc: Global,
    left: Boxed<Expr>,
    operator: BinaryOp,
    at: Mark,
    right: Boxed<Expr>,
) -> Result<Boxed<Expr>, ReadError>
    ensures gives { Gives (λ e. e) result (Some (binary_with left operator at right)) }
{
    let span = from_to(left.get().span(), right.get().span());
    Ok(Boxed::new(
        alloc,
        Expr::Binary {
            span,
            left,
            operator,
            operator_mark: at,
            right,
        },
    )?)
}

/// `e = e`.
pub fn assign_to(
    alloc: Global,
    target: Boxed<Expr>,
    equals: Mark,
    value: Boxed<Expr>,
) -> Result<Boxed<Expr>, ReadError>
    ensures gives { Gives (λ e. e) result (Some (assign_to target equals value)) }
{
    let span = from_to(target.get().span(), value.get().span());
    Ok(Boxed::new(
        alloc,
        Expr::Assign {
            span,
            target,
            equals,
            value,
        },
    )?)
}

/// `e += e` and the like.
pub fn compute_to(
    alloc: Global,
    target: Boxed<Expr>,
    operator: AssignOp,
    at: Span,
    value: Boxed<Expr>,
) -> Result<Boxed<Expr>, ReadError>
    ensures gives { Gives (λ e. e) result (Some (compute_to target operator at value)) }
{
    let span = from_to(target.get().span(), value.get().span());
    Ok(Boxed::new(
        alloc,
        Expr::AssignOp {
            span,
            target,
            operator,
            operator_span: at,
            value,
        },
    )?)
}

/// `panic!()` or `panic!(text)`.
pub fn panic_of(
    alloc: Global,
    word: Span,
    bang: Span,
    opening: Span,
    text: Option<TextLiteral>,
    closing: Span,
) -> Result<Boxed<Expr>, ReadError>
    ensures gives { Gives (λ e. e) result (Some (panic_of word bang opening text closing)) }
{
    let span = from_to(word, closing);
    Ok(Boxed::new(
        alloc,
        Expr::Panic {
            span,
            word,
            bang,
            opening,
            text,
            closing,
        },
    )?)
}
