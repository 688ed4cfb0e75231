//! What a built-in call gives.

ghost use Rattle.std.specs.Prelude.{◌≡◌, IfOk, OnOk};
ghost use Rattle.tb_types.specs.declared.shape.TyShape.TheVariants as shape;
ghost use Rattle.tb_rules.specs.Answers.{Gives};
ghost use Rattle.tb_rules.specs.Made.{made};
ghost use Rattle.tb_calls.specs.Built.{holder_shape, reference_to, answer_of, built};

use crate::rows::{Answer, Holder};
use sqlite_items::Items;
use std::alloc::AllocError;
use tb_perm::Span;
use tb_rules::{Scalars, TypeError, intern};
use tb_thir::{Head, Node};
use tb_types::{Builtin, Ty, TyShape, Types};

fn holder_shape(holder: Holder, ty: Ty) -> TyShape
    ensures { result ≡ holder_shape holder ty }
{
    match holder {
        Holder::Boxed => TyShape::Boxed(ty),
        Holder::Cell => TyShape::Cell(ty),
        Holder::UnsafeCell => TyShape::UnsafeCell(ty),
    }
}

/// The type of references to slices of a type.
fn slice_reference(types: &mut Types, mutable: bool, element: Ty) -> Result<Ty, AllocError>
    ensures number { IfOk result (λ ty. ty ≡ (reference_to mutable (made types.old (shape.Slice element))).0) }
    ensures types { OnOk result (types.new ≡ (reference_to mutable (made types.old (shape.Slice element))).1) }
{
    let slice = intern(types, TyShape::Slice(element))?;
    intern(types, TyShape::Ref(mutable, slice))
}

/// The type that a call gives, by what it is about.
fn answer_type(
    types: &mut Types,
    scalars: &Scalars,
    answer: Answer,
    about: Ty,
) -> Result<Ty, AllocError>
    ensures number { IfOk result (λ ty. ty ≡ (answer_of types.old scalars.now answer about).0) }
    ensures types { OnOk result (types.new ≡ (answer_of types.old scalars.now answer about).1) }
{
    match answer {
        Answer::Unit => Ok(scalars.unit),
        Answer::Bool => Ok(scalars.boolean),
        Answer::Int(kind) => Ok(scalars.integer(kind)),
        Answer::About => Ok(about),
        Answer::Holder(holder) => intern(types, holder_shape(holder, about)),
        Answer::Ref(mutable) => intern(types, TyShape::Ref(mutable, about)),
        Answer::Raw(mutable) => intern(types, TyShape::Raw(mutable, about)),
        Answer::Slice(mutable) => slice_reference(types, mutable, about),
        Answer::Bytes => intern(types, TyShape::Raw(true, scalars.u8)),
        Answer::Layout => intern(types, TyShape::Struct(0)),
    }
}

/// The node of a built-in call.
pub fn built(
    types: &mut Types,
    scalars: &Scalars,
    answer: Answer,
    builtin: Builtin,
    about: Ty,
    arguments: Items<Node>,
    span: Span,
) -> Result<Node, TypeError>
    ensures built { Gives result (λ node. (node, types.new)) (built types.old scalars.now answer builtin about arguments span) }
{
    let ty = answer_type(types, scalars, answer, about)?;
    Ok(Node::Builtin {
        head: Head { ty, span },
        builtin,
        about,
        arguments,
    })
}
