//! Which types may stand where a value has them.

ghost use Rattle.std.specs.Prelude.{◌≡◌};
ghost use Rattle.tb_types.specs.Table.{shape_at};
ghost use Rattle.tb_types.specs.Pieces.{side_by_side};
ghost use Rattle.tb_rules.specs.Kinds.{kind_at};
ghost use Rattle.tb_rules.specs.Allowed.{is_copied, is_owner, is_part, is_part_if, is_copied_if, are_parts, are_copied, is_element, is_struct, is_allowed, is_small, type_fault};

use crate::made::is_type;
use crate::type_kind::{TypeKind, is_slice, kind};
use tb_perm::Code;
use tb_types::{Ty, Types};

fn is_copied(types: &Types, ty: Ty) -> bool
    ensures { result ≡ is_copied types.now ty }
{
    is_type(types, ty) && types.is_copy(ty)
}

fn is_owner(types: &Types, ty: Ty) -> bool
    ensures { result ≡ is_owner types.now ty }
{
    is_type(types, ty) && types.owns_box(ty)
}

fn is_part(types: &Types, ty: Ty) -> bool
    ensures { result ≡ is_part types.now ty }
{
    !is_slice(kind(types, ty))
}

fn is_part_if(types: &Types, ty: Option<Ty>) -> bool
    ensures { result ≡ is_part_if types.now ty }
{
    match ty {
        Some(ty) => is_part(types, ty),
        None => true,
    }
}

fn is_copied_if(types: &Types, ty: Option<Ty>) -> bool
    ensures { result ≡ is_copied_if types.now ty }
{
    match ty {
        Some(ty) => is_copied(types, ty),
        None => true,
    }
}

/// Whether no part of a tuple and no field of a struct is a slice.
#[tactic(auto, using(crate::proofs::Parts::parts_step))]
fn are_parts(types: &Types, ty: Ty) -> bool
    ensures { result ≡ are_parts types.now (side_by_side types.now (shape_at types.now ty)) }
{
    for at in 0..types.part_count(ty) {
        if !is_part_if(types, types.part(ty, at)) {
            return false;
        }
    }
    true
}

/// Whether all parts of a tuple and all fields of a struct are `Copy`.
#[tactic(auto, using(crate::proofs::Parts::copied_step))]
fn are_copied(types: &Types, ty: Ty) -> bool
    ensures { result ≡ are_copied types.now (side_by_side types.now (shape_at types.now ty)) }
{
    for at in 0..types.part_count(ty) {
        if !is_copied_if(types, types.part(ty, at)) {
            return false;
        }
    }
    true
}

fn is_element(types: &Types, ty: Ty) -> bool
    ensures { result ≡ is_element types.now ty }
{
    is_part(types, ty) && !is_owner(types, ty)
}

fn is_struct(types: &Types, ty: Ty) -> bool
    ensures { result ≡ is_struct types.now ty (side_by_side types.now (shape_at types.now ty)) }
{
    are_parts(types, ty) && (!is_copied(types, ty) || are_copied(types, ty))
}

fn is_allowed(types: &Types, ty: Ty) -> bool
    ensures { result ≡ is_allowed types.now ty (side_by_side types.now (shape_at types.now ty)) (kind_at types.now ty) }
{
    match kind(types, ty) {
        TypeKind::Array(part, _) => is_element(types, part),
        TypeKind::Cell(part) => is_element(types, part) && is_copied(types, part),
        TypeKind::UnsafeCell(part) => is_element(types, part),
        TypeKind::Boxed(part) | TypeKind::Slice(part) => is_part(types, part),
        TypeKind::Tuple => are_parts(types, ty),
        TypeKind::Struct(_) => is_struct(types, ty),
        _ => true,
    }
}

fn is_small(types: &Types, ty: Ty) -> bool
    ensures { result ≡ is_small types.now ty }
{
    is_type(types, ty) && types.fits(ty)
}

/// What forbids that a value has a type. `TypeNotAllowedHere`: a slice lies in it other than behind a reference or raw
/// pointer, a `Box` in the elements of an array or in a cell, what is not `Copy` in a `Cell`, or in a struct that derives `Copy`.
/// Else `TypeTooLarge`: it has more than 1,048,576 bytes, 4,194,304 parts or 1,024 levels.
pub fn type_fault(types: &Types, ty: Ty) -> Option<Code>
    ensures fault { result ≡ type_fault types.now ty }
{
    if !is_allowed(types, ty) {
        Some(Code::TypeNotAllowedHere)
    } else if !is_small(types, ty) {
        Some(Code::TypeTooLarge)
    } else {
        None
    }
}
