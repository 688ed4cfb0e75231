//! Coercions.

ghost use Rattle.std.specs.Prelude.{◌≡◌, IfOk};
ghost use Rattle.std.specs.Option.{option_map};
ghost use Rattle.tb_rules.specs.Coercions.{raw_kind, ref_kind, applied, from_unique, is_const, weakening, target_of, to_slice, slicing, coercion_of, coerced, holding, held_by, held};

use crate::node::{cast, reborrow};
use crate::type_kind::{TypeKind, kind};
use sqlite_items::Boxed;
use std::alloc::{AllocError, Global};
use tb_thir::{BorrowKind, Head, Node};
use tb_types::{Ty, Types};

/// What a coercion makes of a node.
#[derive(Clone, Copy, Debug, PartialEq, Eq)]
pub enum Coercion {
    /// A borrow of what it leads to, of this type; whether that is mutable there.
    Reborrow(BorrowKind, Ty, bool),
    /// A cast.
    Cast,
    /// A reference to an array of this length becomes one to a slice.
    Unsize(u64),
}

pub fn raw_kind(mutable: bool) -> BorrowKind
    ensures { result ≡ raw_kind mutable }
{
    if mutable {
        BorrowKind::RawMut
    } else {
        BorrowKind::RawConst
    }
}

fn ref_kind(mutable: bool) -> BorrowKind
    ensures { result ≡ ref_kind mutable }
{
    if mutable {
        BorrowKind::Mut
    } else {
        BorrowKind::Shared
    }
}

/// The node that a coercion makes, of the type and at the place of `head`.
pub fn applied(
    alloc: Global,
    head: Head,
    coercion: Coercion,
    node: Node,
) -> Result<Node, AllocError>
    ensures applied { IfOk result (λ made. made ≡ applied head coercion node) }
{
    match coercion {
        Coercion::Reborrow(kind, content, mutable) => {
            reborrow(alloc, head, kind, content, mutable, node)
        }
        Coercion::Cast => cast(alloc, head, node),
        Coercion::Unsize(length) => {
            let operand = Boxed::new(alloc, node)?;
            Ok(Node::Unsize {
                head,
                operand,
                length,
            })
        }
    }
}

/// From `&mut T` to `*mut T`, `*const T` or `&T`.
fn from_unique(content: Ty, to: TypeKind) -> Option<Coercion>
    ensures { result ≡ from_unique content to }
{
    match to {
        TypeKind::Raw(mutable, pointee) => if content == pointee {
            Some(Coercion::Reborrow(raw_kind(mutable), content, true))
        } else {
            None
        },
        TypeKind::Ref(mutable, pointee) => if !mutable && content == pointee {
            Some(Coercion::Reborrow(BorrowKind::Shared, content, true))
        } else {
            None
        },
        _ => None,
    }
}

/// Whether it is a `*const` to this type.
fn is_const(content: Ty, to: TypeKind) -> bool
    ensures { result ≡ is_const content to }
{
    match to {
        TypeKind::Raw(mutable, pointee) => !mutable && content == pointee,
        _ => false,
    }
}

/// How a pointer becomes one that may do less: `&mut T` becomes `*mut T`, `*const T` or `&T`, and `&T` and `*mut T` become `*const T`.
pub fn weakening(from: TypeKind, to: TypeKind) -> Option<Coercion>
    ensures weakening { result ≡ weakening from to }
{
    match from {
        TypeKind::Ref(mutable, content) => if mutable {
            from_unique(content, to)
        } else if is_const(content, to) {
            Some(Coercion::Reborrow(BorrowKind::RawConst, content, false))
        } else {
            None
        },
        TypeKind::Raw(mutable, content) => if mutable && is_const(content, to) {
            Some(Coercion::Cast)
        } else {
            None
        },
        _ => None,
    }
}

/// What a reference leads to, if it is `&mut` where that is asked, and `&` where not.
fn target_of(mutable: bool, to: TypeKind) -> Option<Ty>
    ensures { result ≡ target_of mutable to }
{
    match to {
        TypeKind::Ref(other, pointee) => if mutable {
            if other { Some(pointee) } else { None }
        } else {
            if other { None } else { Some(pointee) }
        },
        _ => None,
    }
}

fn to_slice(part: Ty, length: u64, to: TypeKind) -> Option<Coercion>
    ensures { result ≡ to_slice part length to }
{
    match to {
        TypeKind::Slice(element) => if part == element {
            Some(Coercion::Unsize(length))
        } else {
            None
        },
        _ => None,
    }
}

/// An array becomes a slice of its elements.
fn slicing(from: TypeKind, to: TypeKind) -> Option<Coercion>
    ensures { result ≡ slicing from to }
{
    match from {
        TypeKind::Array(part, length) => to_slice(part, length, to),
        _ => None,
    }
}

/// The coercion from types of one kind to those of another, if there is one.
fn coercion_of(types: &Types, from: TypeKind, to: TypeKind) -> Option<Coercion>
    ensures { result ≡ coercion_of types.now from to }
{
    match from {
        TypeKind::Ref(mutable, content) => match target_of(mutable, to) {
            Some(pointee) => slicing(kind(types, content), kind(types, pointee)),
            None => weakening(from, to),
        },
        _ => weakening(from, to),
    }
}

/// The node with a coercion to another type, where there is one: `&mut T` to `*mut T`, `*const T` and `&T`, `&T` to `*const T`,
/// `*mut T` to `*const T`, and references to arrays to references to slices. The type and the span of the new node
/// are those of `head`.
pub fn coerced(
    alloc: Global,
    types: &Types,
    head: Head,
    node: Node,
) -> Result<Option<Node>, AllocError>
    ensures coerced { IfOk result (λ made. made ≡ coerced types.now head node) }
{
    let from = kind(types, node.head().ty);
    match coercion_of(types, from, kind(types, head.ty)) {
        Some(found) => Ok(Some(applied(alloc, head, found, node)?)),
        None => Ok(None),
    }
}

fn holding(kind: TypeKind) -> Option<Coercion>
    ensures { result ≡ holding kind }
{
    match kind {
        TypeKind::Ref(mutable, content) => {
            Some(Coercion::Reborrow(ref_kind(mutable), content, mutable))
        }
        _ => None,
    }
}

/// A node of the very type that is expected: a reference that is a place is reborrowed.
pub fn held(alloc: Global, kind: TypeKind, node: Node) -> Result<Node, AllocError>
    ensures { IfOk result (λ made. made ≡ held kind node) }
{
    match holding(kind) {
        Some(found) => if node.is_place() {
            let head = node.head();
            applied(alloc, head, found, node)
        } else {
            Ok(node)
        },
        None => Ok(node),
    }
}
