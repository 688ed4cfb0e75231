ghost use Rattle.std.specs.Prelude.{◌≡◌, [], length, map};
ghost use Rattle.std.specs.List.{AllByRecursion};
ghost use Rattle.std.specs.Option.{option_copied};
ghost use Rattle.tb_types.specs.Table.{IsType, AreNamed, fields_of, named_in};
ghost use Rattle.tb_types.specs.Trees.{tree_in, tree_of, trees_by, is_plain, are_plain, is_pointee};
ghost use Rattle.tb_types.specs.Folded.{node_in, types_in, types_of};
ghost use Rattle.tb_types.specs.Extent.{nothing, laid, int_bytes, pointer_to, extent_in};
ghost use Rattle.tb_types.specs.Capped.{capped, capped_row, IsSmall, IsSmallRow};
ghost use Rattle.tb_types.specs.Known.{known_by, known_at, extent_at, IsWithin, ArePlain, AreSmall};
ghost use Rattle.tb_types.specs.Kept.{table_of};

use crate::extent::{
    EMPTY, Extent, NOTHING, Row, closed, pointer, repeated, scalar, with_part, wrapped,
};
use crate::facts::{Facts, facts_of_shape};
use crate::item::{Field, Item};
use crate::shape::{IntKind, Ty, TyShape};

/// What is kept of each type.
#[derive(Clone, Copy, Debug, PartialEq, Eq)]
pub struct Known {
    pub facts: Facts,
    /// In the type as it is written, `[T]` stands directly behind a reference or raw pointer alone.
    pub plain: bool,
    /// How much the type takes, with counts that stand still above all limits.
    pub extent: Extent,
}

/// What is kept of a type of this shape, from what is kept of the types that it names and of what lies
/// in it.
pub fn known_of_shape(shape: &TyShape, shapes: &[TyShape], items: &[Item], known: &[Known]) -> Known
    requires within { AllByRecursion (IsWithin known.now) (node_in (table_of shapes.now items.now) shape.now).parts }
    requires named { AllByRecursion (IsType (table_of shapes.now items.now)) (named_in shape.now) }
    requires names { AreNamed shapes.now }
    requires len { length known.now ≡ length shapes.now }
    requires plain { ArePlain (table_of shapes.now items.now) known.now }
    requires small { AreSmall known.now }
    ensures known { result ≡ known_by (node_in (table_of shapes.now items.now) shape.now) (map (known_at known.now) (node_in (table_of shapes.now items.now) shape.now).parts) }
    ensures small { IsSmall result.extent }
{
    let plain = is_plain(shape, shapes, known);
    Known {
        facts: facts_of_shape(shape, items, known, plain),
        plain,
        extent: extent_of_shape(shape, shapes, items, known),
    }
}

/// Whether in a type of this shape `[T]` stands directly behind a reference or raw pointer alone.
fn is_plain(shape: &TyShape, shapes: &[TyShape], known: &[Known]) -> bool
    requires named { AllByRecursion (IsType (table_of shapes.now [])) (named_in shape.now) }
    requires names { AreNamed shapes.now }
    requires len { length known.now ≡ length shapes.now }
    requires plain { ArePlain (table_of shapes.now []) known.now }
    ensures { result ≡ is_plain (tree_in shape.now (tree_of (table_of shapes.now []))) }
{
    match shape {
        TyShape::Int(_) | TyShape::Bool | TyShape::Char | TyShape::Unit | TyShape::Struct(_) =>
            true,
        TyShape::Tuple(parts) => are_plain(parts.as_slice(), shapes, known),
        TyShape::Array(part, _)
        | TyShape::Boxed(part)
        | TyShape::Cell(part)
        | TyShape::UnsafeCell(part) => known[part.0 as usize].plain,
        TyShape::Ref(_, to) | TyShape::Raw(_, to) => is_pointee(*to, shapes, known),
        TyShape::Slice(_) => false,
    }
}

/// Whether in each of these types `[T]` stands directly behind a reference or raw pointer alone.
fn are_plain(parts: &[Ty], shapes: &[TyShape], known: &[Known]) -> bool
    requires named { AllByRecursion (IsType (table_of shapes.now [])) parts.now }
    requires len { length known.now ≡ length shapes.now }
    requires plain { ArePlain (table_of shapes.now []) known.now }
    ensures { result ≡ are_plain (trees_by (tree_of (table_of shapes.now [])) parts.now) }
{
    let mut plain = true;
    for part in parts {
        plain = plain && known[part.0 as usize].plain;
    }
    plain
}

/// Whether a reference or raw pointer to the type is so.
fn is_pointee(to: Ty, shapes: &[TyShape], known: &[Known]) -> bool
    requires ty { IsType (table_of shapes.now []) to }
    requires names { AreNamed shapes.now }
    requires len { length known.now ≡ length shapes.now }
    requires plain { ArePlain (table_of shapes.now []) known.now }
    ensures { result ≡ is_pointee (tree_of (table_of shapes.now []) to) }
{
    match &shapes[to.0 as usize] {
        TyShape::Slice(part) => known[part.0 as usize].plain,
        _ => known[to.0 as usize].plain,
    }
}

/// The bytes of an integer type, which are its alignment too.
fn int_bytes(kind: IntKind) -> u64
    ensures { result ≡ int_bytes kind }
{
    match kind {
        IntKind::I8 | IntKind::U8 => 1,
        IntKind::I16 | IntKind::U16 => 2,
        IntKind::I32 | IntKind::U32 => 4,
        IntKind::I64 | IntKind::U64 | IntKind::Isize | IntKind::Usize => 8,
    }
}

/// The extent of a pointer to a type.
fn pointer_to(shapes: &[TyShape], to: Ty) -> Extent
    requires { IsType (table_of shapes.now []) to }
    ensures extent { result ≡ capped (pointer_to (tree_of (table_of shapes.now []) to)) }
    ensures small { IsSmall result }
{
    match &shapes[to.0 as usize] {
        TyShape::Slice(_) => pointer(16),
        _ => pointer(8),
    }
}

/// The extent of a type of this shape, from those of what lies in it.
fn extent_of_shape(shape: &TyShape, shapes: &[TyShape], items: &[Item], known: &[Known]) -> Extent
    requires within { AllByRecursion (IsWithin known.now) (node_in (table_of shapes.now items.now) shape.now).parts }
    requires named { AllByRecursion (IsType (table_of shapes.now items.now)) (named_in shape.now) }
    requires small { AreSmall known.now }
    ensures extent { result ≡ capped (extent_in (tree_in shape.now (tree_of (table_of shapes.now []))) (map (extent_at known.now) (node_in (table_of shapes.now items.now) shape.now).parts)) }
    ensures small { IsSmall result }
{
    match shape {
        TyShape::Int(kind) => scalar(int_bytes(*kind)),
        TyShape::Bool => scalar(1),
        TyShape::Char => scalar(4),
        TyShape::Unit => EMPTY,
        TyShape::Tuple(parts) => closed(row_of_parts(parts.as_slice(), known)),
        TyShape::Array(part, n) => repeated(*n, extent_at(known, *part)),
        TyShape::Struct(item) => closed(row_of_item(items.get(*item as usize), known)),
        TyShape::Ref(_, to) | TyShape::Raw(_, to) => pointer_to(shapes, *to),
        TyShape::Boxed(_) => pointer(8),
        TyShape::Cell(part) | TyShape::UnsafeCell(part) => wrapped(extent_at(known, *part)),
        TyShape::Slice(part) => repeated(0, extent_at(known, *part)),
    }
}

/// The extent of a type.
fn extent_at(known: &[Known], part: Ty) -> Extent
    requires within { IsWithin known.now part }
    requires small { AreSmall known.now }
    ensures extent { result ≡ extent_at known.now part }
    ensures small { IsSmall result }
{
    known[part.0 as usize].extent
}

/// Parts laid one behind another.
fn row_of_parts(parts: &[Ty], known: &[Known]) -> Row
    requires within { AllByRecursion (IsWithin known.now) parts.now }
    requires small { AreSmall known.now }
    ensures row { result ≡ capped_row (laid nothing (map (extent_at known.now) parts.now)) }
    ensures small { IsSmallRow result }
{
    let mut row = NOTHING;
    for part in parts {
        row = with_part(row, extent_at(known, *part));
    }
    row
}

/// The fields of a struct that may be declared laid one behind another.
fn row_of_item(item: Option<&Item>, known: &[Known]) -> Row
    requires within { AllByRecursion (IsWithin known.now) (types_of (fields_of (option_copied item))) }
    requires small { AreSmall known.now }
    ensures row { result ≡ capped_row (laid nothing (map (extent_at known.now) (types_of (fields_of (option_copied item.entry))))) }
    ensures small { IsSmallRow result }
{
    let Some(item) = item else {
        return NOTHING;
    };
    match &item.fields {
        Some(fields) => row_of_fields(fields.as_slice(), known),
        None => NOTHING,
    }
}

/// The fields of a struct laid one behind another.
fn row_of_fields(fields: &[Field], known: &[Known]) -> Row
    requires within { AllByRecursion (IsWithin known.now) (types_in fields.now) }
    requires small { AreSmall known.now }
    ensures row { result ≡ capped_row (laid nothing (map (extent_at known.now) (types_in fields.now))) }
    ensures small { IsSmallRow result }
{
    let mut row = NOTHING;
    for field in fields {
        row = with_part(row, extent_at(known, field.ty));
    }
    row
}
