ghost use Rattle.std.specs.Prelude.{◌≡◌, ◌≤◌, ◌^◌, [], length, slice_get};
ghost use Rattle.tb_types.specs.Table.{fields_at, shape_at};
ghost use Rattle.tb_types.specs.Folded.{types_of};
ghost use Rattle.tb_types.specs.Pieces.{content, side_by_side, part, find};
ghost use Rattle.tb_types.specs.Kept.{table_of};

use crate::item::Item;
use crate::shape::{Ty, TyShape};
use indexmap::IndexSet;

/// What a box, cell, array, slice, reference or raw pointer is made around.
pub fn content(shapes: &[TyShape], ty: Ty) -> Option<Ty>
    ensures { result ≡ content (table_of shapes.now []) ty }
{
    match shapes.get(ty.0 as usize) {
        Some(
            TyShape::Array(part, _)
            | TyShape::Ref(_, part)
            | TyShape::Raw(_, part)
            | TyShape::Boxed(part)
            | TyShape::Cell(part)
            | TyShape::UnsafeCell(part)
            | TyShape::Slice(part),
        ) => Some(*part),
        _ => None,
    }
}

/// How many parts a tuple and how many fields a struct has.
pub fn part_count(shapes: &[TyShape], items: &[Item], ty: Ty) -> usize
    ensures { result ≡ length (side_by_side (table_of shapes.now items.now) (shape_at (table_of shapes.now items.now) ty)) }
{
    match shapes.get(ty.0 as usize) {
        Some(TyShape::Tuple(parts)) => parts.as_slice().len(),
        Some(TyShape::Struct(item)) => field_count(items, *item),
        _ => 0,
    }
}

/// How many fields a struct has that may be declared.
fn field_count(items: &[Item], item: u32) -> usize
    ensures { result ≡ length (types_of (fields_at (table_of [] items.now) item)) }
{
    let Some(item) = items.get(item as usize) else {
        return 0;
    };
    match &item.fields {
        Some(fields) => fields.len(),
        None => 0,
    }
}

/// The type of a part of a tuple or of a field of a struct.
pub fn part(shapes: &[TyShape], items: &[Item], ty: Ty, at: usize) -> Option<Ty>
    ensures { result ≡ part (table_of shapes.now items.now) ty at }
{
    match shapes.get(ty.0 as usize) {
        Some(TyShape::Tuple(parts)) => parts.as_slice().get(at).copied(),
        Some(TyShape::Struct(item)) => field_type(items, *item, at),
        _ => None,
    }
}

/// The type of a field of a struct that may be declared.
fn field_type(items: &[Item], item: u32, at: usize) -> Option<Ty>
    ensures { result ≡ slice_get (types_of (fields_at (table_of [] items.now) item)) at }
{
    let Some(item) = items.get(item as usize) else {
        return None;
    };
    let Some(fields) = &item.fields else {
        return None;
    };
    match fields.as_slice().get(at) {
        Some(field) => Some(field.ty),
        None => None,
    }
}

/// The type of a shape, if it has one.
pub fn find(shapes: &IndexSet<TyShape>, shape: &TyShape) -> Option<Ty>
    requires { length shapes.now.keys ≤ 2 ^ 31 }
    ensures { result ≡ find (table_of shapes.now.keys []) shape.now }
{
    match shapes.get_index_of(shape) {
        Some(at) => Some(Ty(at as u32)),
        None => None,
    }
}
