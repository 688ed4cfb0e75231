//! A typed node where something is expected.

ghost use Rattle.std.specs.Prelude.{◌≡◌, IfOk};
ghost use Rattle.tb_rules.specs.Answers.{Gives};
ghost use Rattle.tb_rules.specs.Fits.{expected, into_or_free, diverging_type, or_wrong, fit_just, fit_into, has_elements, fit_elements, pointing, applied_if, pointee, pointer_step, fit_pointer, fit};

use crate::coercion::{Coercion, applied, coerced, held, raw_kind};
use crate::error::TypeError;
use crate::made::intern;
use crate::type_kind::{TypeKind, is_slice, kind};
use crate::want::Want;
use std::alloc::{AllocError, Global};
use tb_perm::{Code, Span};
use tb_thir::{Head, Node};
use tb_types::{Ty, TyShape, Types};

/// The type that is expected, where it is one.
pub fn expected(want: Want) -> Option<Ty>
    ensures expected { result ≡ expected want }
{
    match want {
        Want::Just(ty) | Want::Into(ty) => Some(ty),
        _ => None,
    }
}

/// A type that is expected with coercions, where it is known.
pub fn into_or_free(ty: Option<Ty>) -> Want
    ensures want { result ≡ into_or_free ty }
{
    match ty {
        Some(ty) => Want::Into(ty),
        None => Want::Free,
    }
}

/// The type of what diverges: the one that is expected, or `()`.
pub fn diverging_type(want: Want, unit: Ty) -> Ty
    ensures { result ≡ diverging_type want unit }
{
    match want {
        Want::Just(ty) | Want::Into(ty) => ty,
        _ => unit,
    }
}

fn or_wrong(span: Span, made: Option<Node>) -> Result<Node, TypeError>
    ensures { Gives result (λ node. node) (or_wrong span made) }
{
    match made {
        Some(node) => Ok(node),
        None => Err(TypeError::Refused(Code::WrongType, span)),
    }
}

fn fit_just(ty: Ty, node: Node) -> Result<Node, TypeError>
    ensures { Gives result (λ node. node) (fit_just ty node) }
{
    let head = node.head();
    if head.ty == ty {
        Ok(node)
    } else {
        Err(TypeError::Refused(Code::WrongType, head.span))
    }
}

fn fit_into(alloc: Global, types: &Types, ty: Ty, node: Node) -> Result<Node, TypeError>
    ensures { Gives result (λ node. node) (fit_into types.now ty node) }
{
    let Head { ty: from, span } = node.head();
    if from == ty {
        Ok(held(alloc, kind(types, ty), node)?)
    } else {
        let made = coerced(alloc, types, Head { ty, span }, node)?;
        or_wrong(span, made)
    }
}

fn has_elements(kind: TypeKind, ty: Ty) -> bool
    ensures { result ≡ has_elements kind ty }
{
    match kind {
        TypeKind::Array(part, _) | TypeKind::Slice(part) => part == ty,
        _ => false,
    }
}

fn fit_elements(types: &Types, ty: Ty, node: Node) -> Result<Node, TypeError>
    ensures { Gives result (λ node. node) (fit_elements types.now ty node) }
{
    let head = node.head();
    if has_elements(kind(types, head.ty), ty) {
        Ok(node)
    } else {
        Err(TypeError::Refused(Code::WrongType, head.span))
    }
}

/// How a pointer of this kind becomes a raw one to the same content: as it is, or by a coercion.
fn pointing(mutable: bool, content: Ty, kind: TypeKind) -> Option<Option<Coercion>>
    ensures { result ≡ pointing mutable content kind }
{
    match kind {
        TypeKind::Raw(other, _) => if mutable {
            if other { Some(None) } else { None }
        } else {
            if other {
                Some(Some(Coercion::Cast))
            } else {
                Some(None)
            }
        },
        TypeKind::Ref(other, _) => if !other && mutable {
            None
        } else {
            Some(Some(Coercion::Reborrow(raw_kind(mutable), content, other)))
        },
        _ => None,
    }
}

fn applied_if(
    alloc: Global,
    head: Head,
    step: Option<Coercion>,
    node: Node,
) -> Result<Node, AllocError>
    ensures { IfOk result (λ made. made ≡ applied_if head step node) }
{
    match step {
        Some(coercion) => applied(alloc, head, coercion, node),
        None => Ok(node),
    }
}

fn pointee(kind: TypeKind) -> Option<Ty>
    ensures { result ≡ pointee kind }
{
    match kind {
        TypeKind::Ref(_, to) | TypeKind::Raw(_, to) => Some(to),
        _ => None,
    }
}

/// What a pointer of this kind leads to, where that is no slice, and how it becomes a raw one.
fn pointer_step(types: &Types, mutable: bool, kind: TypeKind) -> Option<(Ty, Option<Coercion>)>
    ensures { result ≡ pointer_step types.now mutable kind }
{
    match pointee(kind) {
        None => None,
        Some(content) => if is_slice(crate::type_kind::kind(types, content)) {
            None
        } else {
            pointing(mutable, content, kind).map(|step| (content, step))
        },
    }
}

fn fit_pointer(
    alloc: Global,
    types: &mut Types,
    mutable: bool,
    node: Node,
) -> Result<Node, TypeError>
    ensures { Gives result (λ node. (node, types.new)) (fit_pointer types.old mutable node) }
{
    let Head { ty: from, span } = node.head();
    match pointer_step(types, mutable, kind(types, from)) {
        None => Err(TypeError::Refused(Code::WrongType, span)),
        Some((content, step)) => {
            let ty = intern(types, TyShape::Raw(mutable, content))?;
            Ok(applied_if(alloc, Head { ty, span }, step, node)?)
        }
    }
}

/// The node as it is expected: as it is, with a coercion to the expected type, or refused with `WrongType` at its place. A
/// reference of the expected type that is a place is reborrowed where coercions are allowed.
pub fn fit(alloc: Global, types: &mut Types, want: Want, node: Node) -> Result<Node, TypeError>
    ensures fit { Gives result (λ node. (node, types.new)) (fit types.old want node) }
{
    match want {
        Want::Free => Ok(node),
        Want::Just(ty) => fit_just(ty, node),
        Want::Into(ty) => fit_into(alloc, types, ty, node),
        Want::Elements(ty) => fit_elements(types, ty, node),
        Want::Pointer(mutable) => fit_pointer(alloc, types, mutable, node),
    }
}
