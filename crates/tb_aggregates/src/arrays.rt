//! Arrays.

ghost use Rattle.std.specs.Prelude.{◌≡◌, IfOk};
ghost use Rattle.tb_rules.specs.Answers.{Gives};
ghost use Rattle.tb_aggregates.specs.Arrays.{element_in, element_of, element_want, part_want, has_length, first_type, known_element, array_made, array, repeat_made, repeat};

use crate::orders::up_to;
use sqlite_items::{Boxed, Items};
use std::alloc::Global;
use tb_perm::{Code, Span};
use tb_rules::{TypeError, TypeKind, Want, expected, intern, into_or_free, kind};
use tb_thir::{Head, Node};
use tb_types::{Ty, TyShape, Types};

fn element_in(kind: TypeKind) -> Option<Ty>
    ensures { result ≡ element_in kind }
{
    match kind {
        TypeKind::Array(part, _) => Some(part),
        _ => None,
    }
}

/// The type of the elements that are expected.
fn element_of(types: &Types, want: Want) -> Option<Ty>
    ensures { result ≡ element_of types.now want }
{
    match want {
        Want::Just(ty) | Want::Into(ty) => element_in(kind(types, ty)),
        Want::Elements(ty) => Some(ty),
        _ => None,
    }
}

/// What is expected of the first element of an array: the elements of the array that is expected, with coercions.
pub fn element_want(types: &Types, want: Want) -> Want
    ensures want { result ≡ element_want types.now want }
{
    into_or_free(element_of(types, want))
}

/// What is expected of a later element, after a first of type `first`: that type, with coercions, where none is expected of the array.
pub fn part_want(types: &Types, want: Want, first: Ty) -> Want
    ensures want { result ≡ part_want types.now want first }
{
    match element_of(types, want) {
        Some(ty) => Want::Into(ty),
        None => Want::Into(first),
    }
}

/// Whether no array of another length is expected.
fn has_length(types: &Types, want: Want, length: u64) -> bool
    ensures { result ≡ has_length types.now want length }
{
    match expected(want) {
        None => true,
        Some(ty) => match kind(types, ty) {
            TypeKind::Array(_, other) => other == length,
            _ => true,
        },
    }
}

fn first_type(parts: &[Node]) -> Option<Ty>
    ensures { result ≡ first_type parts.now }
{
    match parts {
        [first, ..] => Some(first.head().ty),
        [] => None,
    }
}

/// The type of the elements: the one that is expected, or else that of the first.
fn known_element(types: &Types, want: Want, parts: &[Node]) -> Option<Ty>
    ensures { result ≡ known_element types.now want parts.now }
{
    match element_of(types, want) {
        Some(ty) => Some(ty),
        None => first_type(parts),
    }
}

fn array_made(
    alloc: Global,
    types: &mut Types,
    element: Ty,
    parts: Items<Node>,
    span: Span,
) -> Result<Node, TypeError>
    ensures { Gives result (λ node. (node, types.new)) (array_made types.old element parts span) }
{
    let length = parts.as_slice().len();
    let order = up_to(alloc, length)?;
    let ty = intern(types, TyShape::Array(element, length as u64))?;
    Ok(Node::Make {
        head: Head { ty, span },
        parts,
        order: Items::from_vec(order),
    })
}

/// `[e, ..]`; refused with `WrongNumber` where an array of another length is expected, and with `TypeNotKnown` where it has no elements and
/// no type of elements is expected.
pub fn array(
    alloc: Global,
    types: &mut Types,
    want: Want,
    parts: Items<Node>,
    span: Span,
) -> Result<Node, TypeError>
    ensures array { Gives result (λ node. (node, types.new)) (array types.old want parts span) }
{
    if !has_length(types, want, parts.as_slice().len() as u64) {
        return Err(TypeError::Refused(Code::WrongNumber, span));
    }
    match known_element(types, want, parts.as_slice()) {
        Some(element) => array_made(alloc, types, element, parts, span),
        None => Err(TypeError::Refused(Code::TypeNotKnown, span)),
    }
}

fn repeat_made(
    alloc: Global,
    types: &mut Types,
    element: Node,
    length: u64,
    span: Span,
) -> Result<Node, TypeError>
    ensures { Gives result (λ node. (node, types.new)) (repeat_made types.old element length span) }
{
    let ty = intern(types, TyShape::Array(element.head().ty, length))?;
    let element = Boxed::new(alloc, element)?;
    Ok(Node::Repeat {
        head: Head { ty, span },
        element,
        length,
    })
}

/// `[e; n]`; refused with `WrongNumber` where an array of another length is expected. What is expected of its element is what
/// is expected of the first element of an array.
pub fn repeat(
    alloc: Global,
    types: &mut Types,
    want: Want,
    element: Node,
    length: u64,
    span: Span,
) -> Result<Node, TypeError>
    ensures array { Gives result (λ node. (node, types.new)) (repeat types.old want element length span) }
{
    if has_length(types, want, length) {
        repeat_made(alloc, types, element, length, span)
    } else {
        Err(TypeError::Refused(Code::WrongNumber, span))
    }
}
