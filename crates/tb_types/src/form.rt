ghost use Rattle.std.specs.Prelude.{◌≡◌, [], Some};
ghost use Rattle.std.specs.Option.{option_copied};
ghost use Rattle.tb_types.specs.Forms.{content_of, held, is_ty, is_int, is_bool, is_unit, is_byte, is_thin, are_sizes, is_layout, is_form};
ghost use Rattle.tb_types.specs.Table.{shape_at};
ghost use Rattle.tb_types.specs.Kept.{table_of};

use crate::item::{Field, Item};
use crate::shape::{IntKind, Ty, TyShape};

/// A type that is made around one other.
#[derive(Clone, Copy, Debug, PartialEq, Eq)]
pub enum Around {
    /// `Box<T>`.
    Boxed,
    /// `Cell<T>`.
    Cell,
    /// `UnsafeCell<T>`.
    UnsafeCell,
    /// `[T]`.
    Slice,
    /// `[T]` or an array of `T`.
    Elements,
    /// `&T`, or `&mut T` where true.
    Ref(bool),
    /// `*const T`, or `*mut T` where true.
    Raw(bool),
}

/// A type in a row of the table of built-in calls, by what the row calls T.
#[derive(Clone, Copy, Debug, PartialEq, Eq)]
pub enum Form {
    /// T itself.
    T,
    /// Made around T.
    Of(Around),
    /// Made around what is made around T, the outer first.
    Within(Around, Around),
    /// `()`.
    Unit,
    /// `bool`.
    Bool,
    /// An integer type.
    Int(IntKind),
    /// `*mut u8`.
    BytePointer,
    /// A raw pointer to any type but a slice; `*mut` where true.
    Thin(bool),
    /// The type of layouts: struct 0, where that has two `usize` fields.
    Layout,
}

/// What a shape of this kind is made around.
fn content_of(shape: &TyShape, around: Around) -> Option<Ty>
    ensures { result ≡ content_of shape.now around }
{
    match (shape, around) {
        (TyShape::Boxed(part), Around::Boxed)
        | (TyShape::Cell(part), Around::Cell)
        | (TyShape::UnsafeCell(part), Around::UnsafeCell)
        | (TyShape::Slice(part), Around::Slice)
        | (TyShape::Slice(part), Around::Elements)
        | (TyShape::Array(part, _), Around::Elements) => Some(*part),
        (TyShape::Ref(true, to), Around::Ref(true))
        | (TyShape::Ref(false, to), Around::Ref(false))
        | (TyShape::Raw(true, to), Around::Raw(true))
        | (TyShape::Raw(false, to), Around::Raw(false)) => Some(*to),
        _ => None,
    }
}

/// What a type that may be there is made around.
fn held(shapes: &[TyShape], around: Around, ty: Option<Ty>) -> Option<Ty>
    ensures { result ≡ held (table_of shapes.now []) around ty }
{
    let Some(ty) = ty else {
        return None;
    };
    match shapes.get(ty.0 as usize) {
        Some(shape) => content_of(shape, around),
        None => None,
    }
}

/// Whether it is this type.
fn is_ty(ty: Ty, found: Option<Ty>) -> bool
    ensures { result ≡ is_ty ty found }
{
    match found {
        Some(found) => found == ty,
        None => false,
    }
}

/// Whether a type is this integer type.
fn is_int(shapes: &[TyShape], kind: IntKind, ty: Ty) -> bool
    ensures { result ≡ is_int kind (shape_at (table_of shapes.now []) ty) }
{
    match shapes.get(ty.0 as usize) {
        Some(TyShape::Int(found)) => *found == kind,
        _ => false,
    }
}

/// Whether a type is `()`.
fn is_unit(shapes: &[TyShape], ty: Ty) -> bool
    ensures { result ≡ is_unit (shape_at (table_of shapes.now []) ty) }
{
    matches!(shapes.get(ty.0 as usize), Some(TyShape::Unit))
}

/// Whether a type is `bool`.
fn is_bool(shapes: &[TyShape], ty: Ty) -> bool
    ensures { result ≡ is_bool (shape_at (table_of shapes.now []) ty) }
{
    matches!(shapes.get(ty.0 as usize), Some(TyShape::Bool))
}

/// Whether it is `u8`.
fn is_byte(shapes: &[TyShape], ty: Option<Ty>) -> bool
    ensures { result ≡ is_byte (table_of shapes.now []) ty }
{
    match ty {
        Some(ty) => is_int(shapes, IntKind::U8, ty),
        None => false,
    }
}

/// Whether it is a type and no slice.
fn is_thin(shapes: &[TyShape], ty: Option<Ty>) -> bool
    ensures { result ≡ is_thin (table_of shapes.now []) ty }
{
    match ty {
        Some(ty) => !matches!(shapes.get(ty.0 as usize), Some(TyShape::Slice(_))),
        None => false,
    }
}

/// Whether the fields are two of type `usize`.
fn are_sizes(shapes: &[TyShape], fields: &[Field]) -> bool
    ensures { result ≡ are_sizes (table_of shapes.now []) (Some fields.now) }
{
    match fields {
        [size, align] => {
            is_int(shapes, IntKind::Usize, size.ty) && is_int(shapes, IntKind::Usize, align.ty)
        }
        _ => false,
    }
}

/// Whether a type is struct 0, and this is the struct of layouts.
fn is_layout(shapes: &[TyShape], items: &[Item], ty: Ty) -> bool
    ensures { result ≡ is_layout (table_of shapes.now items.now) (shape_at (table_of shapes.now items.now) ty) }
{
    let Some(TyShape::Struct(0)) = shapes.get(ty.0 as usize) else {
        return false;
    };
    match items.get(0) {
        Some(item) => match &item.fields {
            Some(fields) => are_sizes(shapes, fields.as_slice()),
            None => false,
        },
        None => false,
    }
}

/// Whether a type is of the form, where T is `t`.
pub fn is_form(shapes: &[TyShape], items: &[Item], form: Form, t: Ty, ty: Ty) -> bool
    ensures { result ≡ is_form (table_of shapes.now items.now) form t ty }
{
    match form {
        Form::T => ty == t,
        Form::Of(around) => is_ty(t, held(shapes, around, Some(ty))),
        Form::Within(outer, inner) => is_ty(t, held(shapes, inner, held(shapes, outer, Some(ty)))),
        Form::Unit => is_unit(shapes, ty),
        Form::Bool => is_bool(shapes, ty),
        Form::Int(kind) => is_int(shapes, kind, ty),
        Form::BytePointer => is_byte(shapes, held(shapes, Around::Raw(true), Some(ty))),
        Form::Thin(mutable) => is_thin(shapes, held(shapes, Around::Raw(mutable), Some(ty))),
        Form::Layout => is_layout(shapes, items, ty),
    }
}
