//! Elements of arrays and slices.

ghost use Rattle.std.specs.Prelude.{◌≡◌};
ghost use Rattle.tb_rules.specs.Answers.{Gives};
ghost use Rattle.tb_places.specs.Elements.{element_of, index_by, index_want, index_found, index};

use crate::dereference::{behind, deref_all};
use sqlite_items::Boxed;
use std::alloc::Global;
use tb_perm::{Code, Span};
use tb_rules::{Scalars, TypeError, TypeKind, Want, kind};
use tb_thir::{Head, Node};
use tb_types::{Ty, Types};

fn element_of(kind: TypeKind) -> Option<Ty>
    ensures { result ≡ element_of kind }
{
    match kind {
        TypeKind::Array(part, _) | TypeKind::Slice(part) => Some(part),
        _ => None,
    }
}

fn index_by(element: Option<Ty>, usize: Ty) -> Want
    ensures { result ≡ index_by element usize }
{
    match element {
        Some(_) => Want::Just(usize),
        None => Want::Free,
    }
}

/// What is expected of the index, after a base of this type: a `usize` where it is an array or a slice, or a reference or
/// `Box` to one.
pub fn index_want(types: &Types, scalars: &Scalars, base: Ty) -> Want
    ensures want { result ≡ index_want types.now scalars.now base }
{
    let ty = behind(types, base.0, base);
    index_by(element_of(kind(types, ty)), scalars.usize)
}

fn index_found(
    alloc: Global,
    element: Option<Ty>,
    base: Node,
    at: Node,
    span: Span,
) -> Result<Node, TypeError>
    ensures { Gives result (λ node. node) (index_found element base at span) }
{
    match element {
        None => Err(TypeError::Refused(Code::NoSuchFieldOrCall, span)),
        Some(ty) => {
            let mutable = base.is_mutable();
            let base = Boxed::new(alloc, base)?;
            let index = Boxed::new(alloc, at)?;
            Ok(Node::Index {
                head: Head { ty, span },
                base,
                index,
                mutable,
            })
        }
    }
}

/// `e[e]`: an element of an array or a slice, behind references and Boxes; refused with `NoSuchFieldOrCall` for other types.
pub fn index(
    alloc: Global,
    types: &Types,
    base: Node,
    at: Node,
    span: Span,
) -> Result<Node, TypeError>
    ensures element { Gives result (λ node. node) (index types.now base at span) }
{
    let place = deref_all(alloc, types, base)?;
    let element = element_of(kind(types, place.head().ty));
    index_found(alloc, element, place, at, span)
}
