//! Borrows.

ghost use Rattle.std.specs.Prelude.{◌≡◌};
ghost use Rattle.tb_rules.specs.Answers.{Gives};
ghost use Rattle.tb_places.specs.Borrows.{is_reference, asks_mutable, content_want, pointed_want, expected_want, borrow_want, borrow_shape, borrow_of};

use std::alloc::Global;
use tb_perm::{Code, Span};
use tb_rules::{TypeError, TypeKind, Want, borrow, intern, kind};
use tb_thir::{BorrowKind, Head, Node};
use tb_types::{Ty, TyShape, Types};

/// Whether it is `&` or `&mut`, and makes no raw pointer.
fn is_reference(kind: BorrowKind) -> bool
    ensures { result ≡ is_reference kind }
{
    match kind {
        BorrowKind::Shared | BorrowKind::Mut => true,
        BorrowKind::RawConst | BorrowKind::RawMut => false,
    }
}

/// Whether what is borrowed has to be mutable.
fn asks_mutable(kind: BorrowKind) -> bool
    ensures { result ≡ asks_mutable kind }
{
    match kind {
        BorrowKind::Mut | BorrowKind::RawMut => true,
        BorrowKind::Shared | BorrowKind::RawConst => false,
    }
}

/// What is expected of what a pointer leads to; `is_raw` says that it is a raw pointer.
fn content_want(content: TypeKind, ty: Ty, is_raw: bool) -> Want
    ensures { result ≡ content_want content ty is_raw }
{
    match content {
        TypeKind::Slice(element) => {
            if is_raw {
                Want::Free
            } else {
                Want::Elements(element)
            }
        }
        _ => Want::Just(ty),
    }
}

fn pointed_want(types: &Types, pointer: TypeKind) -> Want
    ensures { result ≡ pointed_want types.now pointer }
{
    match pointer {
        TypeKind::Ref(_, to) => content_want(kind(types, to), to, false),
        TypeKind::Raw(_, to) => content_want(kind(types, to), to, true),
        _ => Want::Free,
    }
}

fn expected_want(types: &Types, want: Want) -> Want
    ensures { result ≡ expected_want types.now want }
{
    match want {
        Want::Just(ty) | Want::Into(ty) => pointed_want(types, kind(types, ty)),
        _ => Want::Free,
    }
}

/// What is expected of the operand of a borrow, where this is expected of the borrow. Where a pointer to a type is expected, the operand
/// of `&` and `&mut` is expected at that type, without coercions; where a reference to a slice is expected, at the slice or an array of such
/// elements.
pub fn borrow_want(types: &Types, borrowed: BorrowKind, want: Want) -> Want
    ensures want { result ≡ borrow_want types.now borrowed want }
{
    if is_reference(borrowed) {
        expected_want(types, want)
    } else {
        Want::Free
    }
}

fn borrow_shape(borrowed: BorrowKind, content: Ty) -> TyShape
    ensures { result ≡ borrow_shape borrowed content }
{
    match borrowed {
        BorrowKind::Shared => TyShape::Ref(false, content),
        BorrowKind::Mut => TyShape::Ref(true, content),
        BorrowKind::RawConst => TyShape::Raw(false, content),
        BorrowKind::RawMut => TyShape::Raw(true, content),
    }
}

/// `&e`, `&mut e`, `&raw const e` or `&raw mut e`, of a place or a value; refused with `NotMutable` where `mut` is asked of what
/// is not mutable.
pub fn borrow_of(
    alloc: Global,
    types: &mut Types,
    borrowed: BorrowKind,
    operand: Node,
    span: Span,
) -> Result<Node, TypeError>
    ensures borrow { Gives result (λ node. (node, types.new)) (borrow_of types.old borrowed operand span) }
{
    if asks_mutable(borrowed) && !operand.is_mutable() {
        return Err(TypeError::Refused(Code::NotMutable, span));
    }
    let ty = intern(types, borrow_shape(borrowed, operand.head().ty))?;
    Ok(borrow(alloc, Head { ty, span }, borrowed, operand)?)
}
