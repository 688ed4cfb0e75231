ghost use Rattle.std.specs.Prelude.{◌≡◌, ◌≤◌, IfSome};
ghost use Rattle.tb_types.specs.Table.{shape_at};
ghost use Rattle.tb_types.specs.Extent.{int_bytes};
ghost use Rattle.tb_value.specs.Kinds.{is_slice, pointer_kind, kind_of, kind_in, kind_at, width};

use tb_layout::LeafShape;
use tb_types::{IntKind, Ty, TyShape, Types};

/// What a scalar type holds, apart from the types that it names.
#[derive(Clone, Copy, Debug, PartialEq, Eq)]
pub enum ScalarKind {
    Int(IntKind),
    Bool,
    Char,
    /// A pointer to a sized type, or a box; the address may be 0 where the part is true.
    Thin(bool),
    /// A pointer to a slice: an address, then a length in elements.
    Wide(bool),
}

/// Whether a type is `[T]`.
fn is_slice(types: &Types, ty: Ty) -> bool
    ensures { result ≡ is_slice (shape_at types.now ty) }
{
    if ty.0 >= types.count() {
        return false;
    }
    matches!(types.shape(ty), TyShape::Slice(_))
}

/// What a pointer to a type holds.
fn pointer_kind(types: &Types, to: Ty, null: bool) -> ScalarKind
    ensures { result ≡ pointer_kind types.now to null }
{
    if is_slice(types, to) {
        ScalarKind::Wide(null)
    } else {
        ScalarKind::Thin(null)
    }
}

/// How many bytes an integer type has.
fn int_bytes(kind: IntKind) -> u32
    ensures { result ≡ int_bytes kind }
{
    match kind {
        IntKind::I8 | IntKind::U8 => 1,
        IntKind::I16 | IntKind::U16 => 2,
        IntKind::I32 | IntKind::U32 => 4,
        IntKind::I64 | IntKind::Isize | IntKind::U64 | IntKind::Usize => 8,
    }
}

/// What a type of a shape holds, where it is scalar.
fn kind_in(types: &Types, shape: &TyShape) -> Option<ScalarKind>
    ensures { result ≡ kind_in types.now (Some shape.now) }
{
    match shape {
        TyShape::Int(kind) => Some(ScalarKind::Int(*kind)),
        TyShape::Bool => Some(ScalarKind::Bool),
        TyShape::Char => Some(ScalarKind::Char),
        TyShape::Ref(_, to) => Some(pointer_kind(types, *to, false)),
        TyShape::Raw(_, to) => Some(pointer_kind(types, *to, true)),
        TyShape::Boxed(_) => Some(ScalarKind::Thin(false)),
        _ => None,
    }
}

impl ScalarKind {
    /// What a leaf of a type holds.
    pub fn of_leaf(types: &Types, shape: LeafShape) -> ScalarKind
        ensures { result ≡ kind_of types.now shape }
    {
        match shape {
            LeafShape::Int(kind) => ScalarKind::Int(kind),
            LeafShape::Bool => ScalarKind::Bool,
            LeafShape::Char => ScalarKind::Char,
            LeafShape::Ref(_, to) => pointer_kind(types, to, false),
            LeafShape::Raw(_, to) => pointer_kind(types, to, true),
            LeafShape::Boxed(_) => ScalarKind::Thin(false),
        }
    }

    /// What a type holds, where it is scalar: an integer type, `bool`, `char`, a reference, a raw pointer or
    /// a box.
    pub fn of_type(types: &Types, ty: Ty) -> Option<ScalarKind>
        ensures { result ≡ kind_at types.now ty }
    {
        if ty.0 >= types.count() {
            return None;
        }
        kind_in(types, types.shape(ty))
    }

    /// How many bytes a value has.
    pub fn width(self) -> u32
        ensures value { result ≡ width self }
        ensures small { result ≤ 16 }
    {
        match self {
            ScalarKind::Int(kind) => int_bytes(kind),
            ScalarKind::Bool => 1,
            ScalarKind::Char => 4,
            ScalarKind::Thin(_) => 8,
            ScalarKind::Wide(_) => 16,
        }
    }
}
