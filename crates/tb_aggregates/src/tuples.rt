//! Tuples.

ghost use Rattle.std.specs.Prelude.{◌≡◌, [], ◌∷◌, ◌++◌, IfOk, OnOk};
ghost use Rattle.tb_rules.specs.Answers.{Gives};
ghost use Rattle.tb_aggregates.specs.Tuples.{tuple_part, tuple_want, types_of, has_number, tuple_made, tuple};

use crate::orders::up_to;
use sqlite_items::Items;
use std::alloc::{AllocError, Global};
use tb_perm::{Code, Span};
use tb_rules::{TypeError, TypeKind, Want, expected, intern, into_or_free, kind};
use tb_thir::{Head, Node};
use tb_types::{Parts, Ty, TyShape, Types};

/// The part of this number, where it is a tuple.
fn tuple_part(types: &Types, ty: Ty, at: usize) -> Option<Ty>
    ensures { result ≡ tuple_part types.now ty at }
{
    match kind(types, ty) {
        TypeKind::Tuple => types.part(ty, at),
        _ => None,
    }
}

/// What is expected of the part of this number of a tuple: its type in the tuple that is expected, with coercions.
pub fn tuple_want(types: &Types, want: Want, at: usize) -> Want
    ensures want { result ≡ tuple_want types.now want at }
{
    match expected(want) {
        Some(ty) => into_or_free(tuple_part(types, ty, at)),
        None => Want::Free,
    }
}

fn push(list: &mut Vec<Ty>, node: &Node) -> Result<(), AllocError>
    ensures { OnOk result (list.new.items ≡ list.old.items ++ types_of (node.now ∷ [])) }
{
    list.push(node.head().ty)?;
    Ok(())
}

fn types_of(alloc: Global, parts: &[Node]) -> Result<Vec<Ty>, AllocError>
    ensures { IfOk result (λ list. list.items ≡ types_of parts.now) }
{
    let mut list = Vec::new(alloc);
    for part in parts {
        push(&mut list, part)?;
    }
    Ok(list)
}

/// Whether no tuple with another number of parts is expected.
fn has_number(types: &Types, want: Want, count: usize) -> bool
    ensures { result ≡ has_number types.now want count }
{
    match expected(want) {
        None => true,
        Some(ty) => match kind(types, ty) {
            TypeKind::Tuple => types.part_count(ty) == count,
            _ => true,
        },
    }
}

fn tuple_made(
    alloc: Global,
    types: &mut Types,
    parts: Items<Node>,
    span: Span,
) -> Result<Node, TypeError>
    ensures { Gives result (λ node. (node, types.new)) (tuple_made types.old parts span) }
{
    let list = types_of(alloc, parts.as_slice())?;
    let order = up_to(alloc, parts.as_slice().len())?;
    let ty = intern(types, TyShape::Tuple(Parts::from_vec(list)))?;
    Ok(Node::Make {
        head: Head { ty, span },
        parts,
        order: Items::from_vec(order),
    })
}

/// A tuple of these parts; refused with `WrongNumber` where a tuple of another number of parts is expected.
pub fn tuple(
    alloc: Global,
    types: &mut Types,
    want: Want,
    parts: Items<Node>,
    span: Span,
) -> Result<Node, TypeError>
    ensures tuple { Gives result (λ node. (node, types.new)) (tuple types.old want parts span) }
{
    if has_number(types, want, parts.as_slice().len()) {
        tuple_made(alloc, types, parts, span)
    } else {
        Err(TypeError::Refused(Code::WrongNumber, span))
    }
}
