//! Receivers of methods.

ghost use Rattle.std.specs.Prelude.{◌≡◌, ◌∷◌, true, false, IfOk, OnOk};
ghost use Rattle.tb_types.specs.declared.shape.TyShape.TheVariants as shape;
ghost use Rattle.tb_rules.specs.Made.{made};
ghost use Rattle.tb_rules.specs.Nodes.{type_of};
ghost use Rattle.tb_calls.specs.Methods.{passing_of, borrowed_as, received};

use sqlite_items::Items;
use std::alloc::{AllocError, Global};
use tb_rules::{borrow, intern};
use tb_thir::{BorrowKind, Head, Node};
use tb_types::{Builtin, TyShape, Types};

/// How a call takes its receiver.
#[derive(Clone, Copy)]
pub enum Passing {
    Value,
    /// By `&`.
    Shared,
    /// By `&mut`.
    Unique,
}

pub fn passing_of(builtin: Builtin) -> Passing
    ensures { result ≡ passing_of builtin }
{
    match builtin {
        Builtin::CellGet
        | Builtin::CellSet
        | Builtin::CellAsPtr
        | Builtin::UnsafeCellGet
        | Builtin::SliceAsPtr => Passing::Shared,
        Builtin::SliceAsMutPtr => Passing::Unique,
        _ => Passing::Value,
    }
}

fn borrowed_as(
    alloc: Global,
    types: &mut Types,
    mutable: bool,
    kind: BorrowKind,
    place: Node,
) -> Result<Node, AllocError>
    ensures node { IfOk result (λ node. node ≡ (borrowed_as (made types.old (shape.Ref mutable (type_of place))) kind place).0) }
    ensures types { OnOk result (types.new ≡ (borrowed_as (made types.old (shape.Ref mutable (type_of place))) kind place).1) }
{
    let Head { ty: content, span } = place.head();
    let ty = intern(types, TyShape::Ref(mutable, content))?;
    borrow(alloc, Head { ty, span }, kind, place)
}

/// The receiver as a call takes it.
pub fn received(
    alloc: Global,
    types: &mut Types,
    way: Passing,
    place: Node,
) -> Result<Node, AllocError>
    ensures node { IfOk result (λ node. node ≡ (received types.old way place).0) }
    ensures types { OnOk result (types.new ≡ (received types.old way place).1) }
{
    match way {
        Passing::Value => Ok(place),
        Passing::Shared => borrowed_as(alloc, types, false, BorrowKind::Shared, place),
        Passing::Unique => borrowed_as(alloc, types, true, BorrowKind::Mut, place),
    }
}

/// A receiver, and then the arguments.
pub fn before(
    alloc: Global,
    receiver: Node,
    arguments: Items<Node>,
) -> Result<Items<Node>, AllocError>
    ensures { IfOk result (λ all. all ≡ receiver ∷ arguments) }
{
    let mut all = Items::new(alloc);
    all.push(receiver)?;
    all.append(arguments)?;
    Ok(all)
}
