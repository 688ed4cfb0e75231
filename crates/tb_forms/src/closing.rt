//! What stands behind the last expression in an operand.

ghost use Rattle.std.specs.Prelude.{◌≡◌, Some};
ghost use Rattle.tb_syntax.specs.Reading.{Gives};
ghost use Rattle.tb_forms.specs.Trees.{paren_in};
ghost use Rattle.tb_forms.specs.Closings.{group_of, group_at, is_count, count_at, repeated_in, repeat_at, array_at, literal_at, call_at, method_call_at, index_at, print_at, assert_at};

use crate::macros::optional_comma;
use sqlite_items::{Boxed, Items};
use std::alloc::Global;
use tb_ast::{Expr, ExprPath, FieldValue, Ident, IntLiteral, Path, PrintText, Turbofish};
use tb_lex::{Punctuation, Suffix};
use tb_perm::Span;
use tb_syntax::{Cursor, ReadError, from_to};

/// The only one of these, with no comma behind it.
fn single(
    alloc: Global,
    elements: Items<Expr>,
    commas: &Items<Span>,
) -> Result<Boxed<Expr>, ReadError>
    ensures { Gives (λ e. e) result (repeated_in elements commas.now) }
{
    let mut elements = elements;
    match (elements.as_slice(), commas.as_slice()) {
        ([_], []) => Ok(Boxed::new(alloc, elements.remove(0))?),
        _ => Err(ReadError::Unexpected),
    }
}

/// `(e)`.
fn paren_in(
    alloc: Global,
    opening: Span,
    inner: Boxed<Expr>,
    closing: Span,
) -> Result<Boxed<Expr>, ReadError>
    ensures { Gives (λ e. e) result (Some (paren_in opening inner closing)) }
{
    Ok(Boxed::new(
        alloc,
        Expr::Paren {
            span: from_to(opening, closing),
            opening,
            inner,
            closing,
        },
    )?)
}

/// Nothing in parentheses, an expression, or two or more.
fn group_of(
    alloc: Global,
    opening: Span,
    parts: Items<Expr>,
    commas: Items<Span>,
    closing: Span,
) -> Result<Boxed<Expr>, ReadError>
    ensures { Gives (λ e. e) result (group_of opening parts commas closing) }
{
    let span = from_to(opening, closing);
    match parts.as_slice() {
        [] => Ok(Boxed::new(
            alloc,
            Expr::Unit {
                span,
                opening,
                closing,
            },
        )?),
        [_] => {
            let inner = single(alloc, parts, &commas)?;
            paren_in(alloc, opening, inner, closing)
        }
        _ => Ok(Boxed::new(
            alloc,
            Expr::Tuple {
                span,
                opening,
                parts,
                commas,
                closing,
            },
        )?),
    }
}

/// What these parts in parentheses are, which close here: `()`, `(e)` or a tuple.
///
/// # Errors
///
/// `Unexpected` where no `)` comes next, and where one part has a comma behind it, and `Memory` where
/// the allocator has no room.
#[tactic(auto, unfolding(crate::specs::Closings::group_at))]
pub fn close_group<'a>(
    cursor: Cursor<'a>,
    alloc: Global,
    opening: Span,
    parts: Items<Expr>,
    commas: Items<Span>,
) -> Result<(Boxed<Expr>, Cursor<'a>), ReadError>
    ensures gives { Gives (λ x. x) result (group_at opening (parts, commas) cursor.entry) }
{
    let (closing, rest) = cursor.punct(Punctuation::CloseParen)?;
    let group = group_of(alloc, opening, parts, commas, closing)?;
    Ok((group, rest))
}

/// Whether an integer with this suffix may be a number of elements.
fn is_count(suffix: Option<Suffix>) -> bool
    ensures { result ≡ is_count suffix }
{
    match suffix {
        None | Some(Suffix::Usize) => true,
        _ => false,
    }
}

/// A number of elements.
#[tactic(auto, unfolding(crate::specs::Closings::count_at))]
fn count<'a>(cursor: Cursor<'a>) -> Result<(IntLiteral, Cursor<'a>), ReadError>
    ensures { Gives (λ x. x) result (count_at cursor.entry) }
{
    let (length, rest) = cursor.number()?;
    if is_count(length.integer.suffix) {
        Ok((length, rest))
    } else {
        Err(ReadError::Unexpected)
    }
}

/// This element as often as the number says that comes next behind `;`.
#[tactic(auto, unfolding(crate::specs::Closings::repeat_at))]
fn close_repeat<'a>(
    cursor: Cursor<'a>,
    alloc: Global,
    opening: Span,
    element: Boxed<Expr>,
) -> Result<(Boxed<Expr>, Cursor<'a>), ReadError>
    ensures { Gives (λ x. x) result (repeat_at opening element cursor.entry) }
{
    let (semicolon, rest) = cursor.punct(Punctuation::Semicolon)?;
    let (length, rest) = count(rest)?;
    let (closing, rest) = rest.punct(Punctuation::CloseBracket)?;
    let repeat = Boxed::new(
        alloc,
        Expr::Repeat {
            span: from_to(opening, closing),
            opening,
            element,
            semicolon,
            length,
            closing,
        },
    )?;
    Ok((repeat, rest))
}

/// The array of these elements in brackets, which close here, or of one element and the number that
/// comes next behind `;`. The number has no suffix or that of its type, `usize`.
#[tactic(auto, unfolding(crate::specs::Closings::array_at))]
pub fn close_array<'a>(
    cursor: Cursor<'a>,
    alloc: Global,
    opening: Span,
    elements: Items<Expr>,
    commas: Items<Span>,
) -> Result<(Boxed<Expr>, Cursor<'a>), ReadError>
    ensures gives { Gives (λ x. x) result (array_at opening (elements, commas) cursor.entry) }
{
    if cursor.has_mark(Punctuation::Semicolon) {
        let element = single(alloc, elements, &commas)?;
        return close_repeat(cursor, alloc, opening, element);
    }
    let (closing, rest) = cursor.punct(Punctuation::CloseBracket)?;
    let array = Boxed::new(
        alloc,
        Expr::Array {
            span: from_to(opening, closing),
            opening,
            elements,
            commas,
            closing,
        },
    )?;
    Ok((array, rest))
}

/// The struct literal of these fields in braces, which close here.
#[tactic(auto, unfolding(crate::specs::Closings::literal_at))]
pub fn close_struct<'a>(
    cursor: Cursor<'a>,
    alloc: Global,
    path: Path,
    opening: Span,
    fields: Items<FieldValue>,
    commas: Items<Span>,
) -> Result<(Boxed<Expr>, Cursor<'a>), ReadError>
    ensures gives { Gives (λ x. x) result (literal_at path opening (fields, commas) cursor.entry) }
{
    let (closing, rest) = cursor.punct(Punctuation::CloseBrace)?;
    let literal = Boxed::new(
        alloc,
        Expr::StructLiteral {
            span: from_to(path.span, closing),
            path,
            opening,
            fields,
            commas,
            closing,
        },
    )?;
    Ok((literal, rest))
}

/// The call with these arguments in parentheses, which close here.
#[tactic(auto, unfolding(crate::specs::Closings::call_at))]
pub fn close_call<'a>(
    cursor: Cursor<'a>,
    alloc: Global,
    callee: ExprPath,
    opening: Span,
    arguments: Items<Expr>,
    commas: Items<Span>,
) -> Result<(Boxed<Expr>, Cursor<'a>), ReadError>
    ensures gives { Gives (λ x. x) result (call_at callee opening (arguments, commas) cursor.entry) }
{
    let (closing, rest) = cursor.punct(Punctuation::CloseParen)?;
    let call = Boxed::new(
        alloc,
        Expr::Call {
            span: from_to(callee.span, closing),
            callee,
            opening,
            arguments,
            commas,
            closing,
        },
    )?;
    Ok((call, rest))
}

/// The call of a method with these arguments in parentheses, which close here.
#[tactic(auto, unfolding(crate::specs::Closings::method_call_at))]
pub fn close_method<'a>(
    cursor: Cursor<'a>,
    alloc: Global,
    receiver: Boxed<Expr>,
    dot: Span,
    name: Ident,
    turbofish: Option<Turbofish>,
    opening: Span,
    arguments: Items<Expr>,
    commas: Items<Span>,
) -> Result<(Boxed<Expr>, Cursor<'a>), ReadError>
    ensures gives { Gives (λ x. x) result (method_call_at receiver dot name turbofish opening (arguments, commas) cursor.entry) }
{
    let (closing, rest) = cursor.punct(Punctuation::CloseParen)?;
    let span = from_to(receiver.get().span(), closing);
    let call = Boxed::new(
        alloc,
        Expr::MethodCall {
            span,
            receiver,
            dot,
            name,
            turbofish,
            opening,
            arguments,
            commas,
            closing,
        },
    )?;
    Ok((call, rest))
}

/// The element at this index in brackets, which close here.
#[tactic(auto, unfolding(crate::specs::Closings::index_at))]
pub fn close_index<'a>(
    cursor: Cursor<'a>,
    alloc: Global,
    base: Boxed<Expr>,
    opening: Span,
    index: Boxed<Expr>,
) -> Result<(Boxed<Expr>, Cursor<'a>), ReadError>
    ensures gives { Gives (λ x. x) result (index_at base opening index cursor.entry) }
{
    let (closing, rest) = cursor.punct(Punctuation::CloseBracket)?;
    let span = from_to(base.get().span(), closing);
    let element = Boxed::new(
        alloc,
        Expr::Index {
            span,
            base,
            opening,
            index,
            closing,
        },
    )?;
    Ok((element, rest))
}

/// The `print!` or `println!` of these values in parentheses, which close here.
#[tactic(auto, unfolding(crate::specs::Closings::print_at))]
pub fn close_print<'a>(
    cursor: Cursor<'a>,
    alloc: Global,
    word: Span,
    newline: bool,
    bang: Span,
    opening: Span,
    text: Option<PrintText>,
    values: Items<Expr>,
    commas: Items<Span>,
) -> Result<(Boxed<Expr>, Cursor<'a>), ReadError>
    ensures gives { Gives (λ x. x) result (print_at word newline bang opening text (values, commas) cursor.entry) }
{
    let (closing, rest) = cursor.punct(Punctuation::CloseParen)?;
    let print = Boxed::new(
        alloc,
        Expr::Print {
            span: from_to(word, closing),
            word,
            newline,
            bang,
            opening,
            text,
            arguments: values,
            commas,
            closing,
        },
    )?;
    Ok((print, rest))
}

/// The `assert!` of this condition in parentheses, which close here, with or without a comma before.
#[tactic(auto, unfolding(crate::specs::Closings::assert_at))]
pub fn close_assert<'a>(
    cursor: Cursor<'a>,
    alloc: Global,
    word: Span,
    bang: Span,
    opening: Span,
    condition: Boxed<Expr>,
) -> Result<(Boxed<Expr>, Cursor<'a>), ReadError>
    ensures gives { Gives (λ x. x) result (assert_at word bang opening condition cursor.entry) }
{
    let (comma, rest) = optional_comma(cursor)?;
    let (closing, rest) = rest.punct(Punctuation::CloseParen)?;
    let assert = Boxed::new(
        alloc,
        Expr::Assert {
            span: from_to(word, closing),
            word,
            bang,
            opening,
            condition,
            comma,
            closing,
        },
    )?;
    Ok((assert, rest))
}
