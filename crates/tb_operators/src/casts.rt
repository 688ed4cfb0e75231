//! Casts.

ghost use Rattle.std.specs.Prelude.{◌≡◌};
ghost use Rattle.tb_rules.specs.Answers.{Gives};
ghost use Rattle.tb_operators.specs.Casts.{is_char, pointee, is_thinner, is_plain, casting, cast_to};

use crate::infix::is_int;
use std::alloc::Global;
use tb_perm::{Code, Span};
use tb_rules::{Coercion, TypeError, TypeKind, applied, is_slice, kind, weakening};
use tb_thir::{Head, Node};
use tb_types::{IntKind, Ty, Types};

fn is_char(kind: TypeKind) -> bool
    ensures { result ≡ is_char kind }
{
    match kind {
        TypeKind::Char => true,
        _ => false,
    }
}

fn pointee(kind: TypeKind) -> Option<Ty>
    ensures { result ≡ pointee kind }
{
    match kind {
        TypeKind::Raw(_, to) => Some(to),
        _ => None,
    }
}

/// Whether a raw pointer to the first becomes one to the second: one to a slice comes from one to a slice alone.
fn is_thinner(types: &Types, content: Ty, pointee: Option<Ty>) -> bool
    ensures { result ≡ is_thinner types.now content pointee }
{
    match pointee {
        None => false,
        Some(to) => is_slice(kind(types, content)) || !is_slice(kind(types, to)),
    }
}

/// Whether the value alone makes the cast: between integers, from `bool` and `char` to integers, from `u8` to `char`, and
/// between raw pointers.
fn is_plain(types: &Types, from: TypeKind, to: TypeKind) -> bool
    ensures { result ≡ is_plain types.now from to }
{
    match from {
        TypeKind::Int(from) => is_int(to) || (from == IntKind::U8 && is_char(to)),
        TypeKind::Bool | TypeKind::Char => is_int(to),
        TypeKind::Raw(_, content) => is_thinner(types, content, pointee(to)),
        _ => false,
    }
}

/// How a value of one type becomes one of another: by its value alone, or as a pointer that may do less.
fn casting(types: &Types, from: TypeKind, to: TypeKind) -> Option<Coercion>
    ensures { result ≡ casting types.now from to }
{
    if is_plain(types, from, to) {
        Some(Coercion::Cast)
    } else {
        weakening(from, to)
    }
}

/// `e as T`; refused with `CastNotAllowed` where there is no such cast. A cast that is a coercion of pointers becomes that.
pub fn cast_to(
    alloc: Global,
    types: &Types,
    to: Ty,
    operand: Node,
    span: Span,
) -> Result<Node, TypeError>
    ensures cast { Gives result (λ node. node) (cast_to types.now to operand span) }
{
    let from = kind(types, operand.head().ty);
    match casting(types, from, kind(types, to)) {
        Some(found) => Ok(applied(alloc, Head { ty: to, span }, found, operand)?),
        None => Err(TypeError::Refused(Code::CastNotAllowed, span)),
    }
}
