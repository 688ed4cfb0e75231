//! Dereferences, written and inserted.

ghost use Rattle.std.specs.Prelude.{◌≡◌, IfOk};
ghost use Rattle.tb_rules.specs.Answers.{Gives};
ghost use Rattle.tb_places.specs.Derefs.{followed, behind, follow, deref_all, pointed, deref_of};

use sqlite_items::Boxed;
use std::alloc::{AllocError, Global};
use tb_perm::{Code, Span};
use tb_rules::{TypeError, TypeKind, deref, kind};
use tb_thir::{Head, Node};
use tb_types::{Ty, Types};

/// What a reference or `Box` of this kind leads to, and whether that is mutable where the pointer is.
fn followed(kind: TypeKind, mutable: bool) -> Option<(Ty, bool)>
    ensures { result ≡ followed kind mutable }
{
    match kind {
        TypeKind::Ref(unique, to) => Some((to, unique)),
        TypeKind::Boxed(part) => Some((part, mutable)),
        _ => None,
    }
}

/// The type that lies behind so many references and Boxes at most.
pub fn behind(types: &Types, depth: u32, ty: Ty) -> Ty
    ensures { result ≡ behind types.now depth ty }
{
    if depth == 0 {
        return ty;
    }
    match followed(kind(types, ty), true) {
        None => ty,
        Some((to, _)) => behind(types, depth - 1, to),
    }
}

/// The place that lies behind so many references and Boxes at most.
fn follow(alloc: Global, types: &Types, depth: u32, node: Node) -> Result<Node, AllocError>
    ensures { IfOk result (λ found. found ≡ follow types.now depth node) }
{
    if depth == 0 {
        return Ok(node);
    }
    match followed(kind(types, node.head().ty), node.is_mutable()) {
        None => Ok(node),
        Some((ty, mutable)) => {
            let place = deref(alloc, ty, mutable, node)?;
            let found = follow(alloc, types, depth - 1, place)?;
            Ok(found)
        }
    }
}

/// The node before a dot or a bracket, with references and Boxes dereferenced as often as needed. What a type is made of has
/// a lesser number, so a type is behind as many pointers at most as its number says.
pub fn deref_all(alloc: Global, types: &Types, node: Node) -> Result<Node, AllocError>
    ensures place { IfOk result (λ found. found ≡ deref_all types.now node) }
{
    let depth = node.head().ty.0;
    follow(alloc, types, depth, node)
}

/// What a pointer of this kind leads to, and whether that is mutable, or what forbids to follow it.
fn pointed(kind: TypeKind, is_unsafe: bool, mutable: bool) -> Result<(Ty, bool), Code>
    ensures { result ≡ pointed kind is_unsafe mutable }
{
    match kind {
        TypeKind::Ref(unique, to) => Ok((to, unique)),
        TypeKind::Boxed(part) => Ok((part, mutable)),
        TypeKind::Raw(unique, to) => if is_unsafe {
            Ok((to, unique))
        } else {
            Err(Code::NeedsUnsafe)
        },
        _ => Err(Code::OperatorNotForType),
    }
}

/// `*e`: what a reference, a `Box` or a raw pointer leads to. It is refused with `OperatorNotForType` for other types, and
/// with `NeedsUnsafe` for a raw pointer outside `unsafe`.
pub fn deref_of(
    alloc: Global,
    types: &Types,
    is_unsafe: bool,
    operand: Node,
    span: Span,
) -> Result<Node, TypeError>
    ensures deref { Gives result (λ node. node) (deref_of types.now is_unsafe operand span) }
{
    match pointed(
        kind(types, operand.head().ty),
        is_unsafe,
        operand.is_mutable(),
    ) {
        Err(code) => Err(TypeError::Refused(code, span)),
        Ok((ty, mutable)) => {
            let pointer = Boxed::new(alloc, operand)?;
            Ok(Node::Deref {
                head: Head { ty, span },
                pointer,
                mutable,
            })
        }
    }
}
