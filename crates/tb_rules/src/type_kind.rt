//! The kinds of types.

ghost use Rattle.std.specs.Prelude.{◌≡◌};
ghost use Rattle.tb_rules.specs.Kinds.{kind_in, kind_at, is_slice};

use tb_types::{IntKind, Ty, TyShape, Types};

/// What a type is made of, without the parts of a tuple.
#[derive(Clone, Copy, Debug, PartialEq, Eq)]
pub enum TypeKind {
    Int(IntKind),
    Bool,
    Char,
    /// `()`
    Unit,
    Tuple,
    /// An array of this element and length.
    Array(Ty, u64),
    /// The struct of this declaration number.
    Struct(u32),
    /// A reference to a type; `&mut` where it is true.
    Ref(bool, Ty),
    /// A raw pointer to a type; `*mut` where it is true.
    Raw(bool, Ty),
    /// `Box<T>`
    Boxed(Ty),
    /// `Cell<T>`
    Cell(Ty),
    /// `UnsafeCell<T>`
    UnsafeCell(Ty),
    /// `[T]`
    Slice(Ty),
    /// The number is none of a type.
    Missing,
}

fn kind_in(shape: &TyShape) -> TypeKind
    ensures { result ≡ kind_in shape.now }
{
    match shape {
        TyShape::Int(kind) => TypeKind::Int(*kind),
        TyShape::Bool => TypeKind::Bool,
        TyShape::Char => TypeKind::Char,
        TyShape::Unit => TypeKind::Unit,
        TyShape::Tuple(_) => TypeKind::Tuple,
        TyShape::Array(part, length) => TypeKind::Array(*part, *length),
        TyShape::Struct(item) => TypeKind::Struct(*item),
        TyShape::Ref(mutable, to) => TypeKind::Ref(*mutable, *to),
        TyShape::Raw(mutable, to) => TypeKind::Raw(*mutable, *to),
        TyShape::Boxed(part) => TypeKind::Boxed(*part),
        TyShape::Cell(part) => TypeKind::Cell(*part),
        TyShape::UnsafeCell(part) => TypeKind::UnsafeCell(*part),
        TyShape::Slice(part) => TypeKind::Slice(*part),
    }
}

/// The kind of a type of a table.
pub fn kind(types: &Types, ty: Ty) -> TypeKind
    ensures kind { result ≡ kind_at types.now ty }
{
    if ty.0 < types.count() {
        kind_in(types.shape(ty))
    } else {
        TypeKind::Missing
    }
}

/// Whether types of the kind are slices.
pub fn is_slice(kind: TypeKind) -> bool
    ensures slice { result ≡ is_slice kind }
{
    match kind {
        TypeKind::Slice(_) => true,
        _ => false,
    }
}
