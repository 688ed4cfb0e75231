//! Values and right sides.

ghost use Rattle.std.specs.Prelude.{◌≡◌, ◌≤◌, length};
ghost use Rattle.tb_small.specs.Grammar.{needs_mutable, value_type, right_type};
ghost use Rattle.tb_small.specs.Reading.{Gives, has_raw, raw_at, kind_at, borrow_at, has_pointer, value_at, unsafe_right_at, right_at};

use crate::error::SmallError;
use crate::places::{is_mutable_spot, is_raw, spot_at, variable_at};
use crate::scope::{Known, number_of, type_of};
use crate::sums::sum_at;
use crate::tree::{Borrow, RefKind, Right, Ty, UnsafeRight, Value};
use crate::words::{eat, has_byte, has_word, is_name, next_word, span_of};
use std::alloc::Global;

/// The type of a value.
fn value_type(scope: &[Known], value: &Value) -> Ty
    ensures { result ≡ value_type scope.now value.now }
{
    match value {
        Value::Sum(_) => Ty::Int32,
        Value::Borrow(borrow) => Ty::Pointer(borrow.kind),
        Value::Pointer(variable) => type_of(scope, variable.number),
    }
}

/// The type of a right side.
pub fn right_type(scope: &[Known], right: &Right) -> Ty
    ensures { result ≡ right_type scope.now right.now }
{
    match right {
        Right::Plain(value) => value_type(scope, value),
        Right::Unsafe(block) => value_type(scope, &block.value),
    }
}

/// Whether a borrow of this kind is of a mutable place.
fn needs_mutable(kind: RefKind) -> bool
    ensures { result ≡ needs_mutable kind }
{
    matches!(kind, RefKind::Mut | RefKind::RawMut)
}

/// Whether `raw` comes next, with `const` or `mut` behind it.
fn has_raw(text: &[u8]) -> bool
    ensures { result ≡ has_raw text.now }
{
    let (_, rest) = next_word(text);
    has_word(b"raw", text) && (has_word(b"const", rest) || has_word(b"mut", rest))
}

/// The kind of raw borrow whose `raw` comes next, and what follows it.
#[tactic(auto, unfolding(crate::specs::Reading::raw_at))]
fn raw_at(text: &[u8]) -> Result<(RefKind, &[u8]), SmallError>
    ensures { Gives (λ x. (x.0, x.1.now)) result (raw_at text.now) }
{
    let raw = eat(b"raw", text)?;
    if has_word(b"mut", raw) {
        let rest = eat(b"mut", raw)?;
        Ok((RefKind::RawMut, rest))
    } else {
        let rest = eat(b"const", raw)?;
        Ok((RefKind::RawConst, rest))
    }
}

/// The kind of borrow whose `&` comes next, and what follows it.
#[tactic(auto, unfolding(crate::specs::Reading::kind_at))]
fn kind_at(text: &[u8]) -> Result<(RefKind, &[u8]), SmallError>
    ensures { Gives (λ x. (x.0, x.1.now)) result (kind_at text.now) }
{
    let behind = eat(b"&", text)?;
    if has_word(b"mut", behind) {
        let rest = eat(b"mut", behind)?;
        return Ok((RefKind::Mut, rest));
    }
    if has_raw(behind) {
        return raw_at(behind);
    }
    Ok((RefKind::Shared, behind))
}

/// The borrow that comes next, and what follows it.
#[tactic(auto, unfolding(crate::specs::Reading::borrow_at))]
fn borrow_at<'a>(
    scope: &[Known],
    inside: bool,
    size: usize,
    text: &'a [u8],
) -> Result<(Borrow, &'a [u8]), SmallError>
    requires size { size ≤ 1048576 }
    requires room { length scope.now ≤ 4096 }
    ensures { Gives (λ x. (x.0, x.1.now)) result (borrow_at scope.now inside size text.now) }
{
    let (kind, front) = kind_at(text)?;
    let (operand, rest) = spot_at(scope, inside, size, front)?;
    if needs_mutable(kind) && !is_mutable_spot(scope, operand) {
        return Err(SmallError::NotBuilt);
    }
    let span = span_of(size, text, rest);
    Ok((
        Borrow {
            span,
            kind,
            operand,
        },
        rest,
    ))
}

/// Whether the name of a raw pointer comes next.
fn has_pointer(scope: &[Known], text: &[u8]) -> bool
    requires { length scope.now ≤ 4096 }
    ensures { result ≡ has_pointer scope.now text.now }
{
    let (word, _) = next_word(text);
    if !is_name(word) {
        return false;
    }
    match number_of(scope, word) {
        Some(number) => is_raw(type_of(scope, number)),
        None => false,
    }
}

/// The value that comes next, and what follows it.
#[tactic(auto, unfolding(crate::specs::Reading::value_at))]
fn value_at<'a>(
    alloc: Global,
    scope: &[Known],
    inside: bool,
    size: usize,
    text: &'a [u8],
) -> Result<(Value, &'a [u8]), SmallError>
    requires size { size ≤ 1048576 }
    requires room { length scope.now ≤ 4096 }
    ensures { Gives (λ x. (x.0, x.1.now)) result (value_at scope.now inside size text.now) }
{
    if has_byte(b'&', text) {
        let (borrow, rest) = borrow_at(scope, inside, size, text)?;
        return Ok((Value::Borrow(borrow), rest));
    }
    if has_pointer(scope, text) {
        let (variable, rest) = variable_at(scope, size, text)?;
        return Ok((Value::Pointer(variable), rest));
    }
    let (sum, rest) = sum_at(alloc, scope, inside, size, text)?;
    Ok((Value::Sum(sum), rest))
}

/// The value in `unsafe { .. }` that comes next, and what follows its brace.
#[tactic(auto, unfolding(crate::specs::Reading::unsafe_right_at))]
fn unsafe_right_at<'a>(
    alloc: Global,
    scope: &[Known],
    size: usize,
    text: &'a [u8],
) -> Result<(UnsafeRight, &'a [u8]), SmallError>
    requires size { size ≤ 1048576 }
    requires room { length scope.now ≤ 4096 }
    ensures { Gives (λ x. (x.0, x.1.now)) result (unsafe_right_at scope.now size text.now) }
{
    let keyword = eat(b"unsafe", text)?;
    let brace = eat(b"{", keyword)?;
    let (value, close) = value_at(alloc, scope, true, size, brace)?;
    let rest = eat(b"}", close)?;
    let span = span_of(size, text, rest);
    Ok((UnsafeRight { span, value }, rest))
}

/// The right side that comes next, and what follows it.
#[tactic(auto, unfolding(crate::specs::Reading::right_at))]
pub fn right_at<'a>(
    alloc: Global,
    scope: &[Known],
    inside: bool,
    size: usize,
    text: &'a [u8],
) -> Result<(Right, &'a [u8]), SmallError>
    requires size { size ≤ 1048576 }
    requires room { length scope.now ≤ 4096 }
    ensures { Gives (λ x. (x.0, x.1.now)) result (right_at scope.now inside size text.now) }
{
    if has_word(b"unsafe", text) {
        let (block, rest) = unsafe_right_at(alloc, scope, size, text)?;
        Ok((Right::Unsafe(block), rest))
    } else {
        let (value, rest) = value_at(alloc, scope, inside, size, text)?;
        Ok((Right::Plain(value), rest))
    }
}
