ghost use Rattle.std.specs.Prelude.{◌≡◌, ◌<◌, None, IsTrue};
ghost use Rattle.std.specs.List.{AllByRecursion};
ghost use Rattle.tb_types.specs.Table.{named_in, item_named};
ghost use Rattle.tb_types.specs.declared.shape.Ty.{Ty};

use tb_types::{Ty, TyShape, Types};

/// Whether the types are below a number.
fn are_below(parts: &[Ty], count: u32) -> bool
    ensures { IsTrue result → AllByRecursion (λ (ty : Ty). ty.0 < count) parts.now }
{
    let Some((first, rest)) = parts.split_first() else {
        return true;
    };
    first.0 < count && are_below(rest, count)
}

/// Whether a shape names types below a number alone, and no struct.
fn is_known(shape: &TyShape, count: u32) -> bool
    ensures named { IsTrue result → AllByRecursion (λ (ty : Ty). ty.0 < count) (named_in shape.now) }
    ensures item { IsTrue result → item_named shape.now ≡ None }
{
    match shape {
        TyShape::Tuple(parts) => are_below(parts.as_slice(), count),
        TyShape::Array(part, _)
        | TyShape::Ref(_, part)
        | TyShape::Raw(_, part)
        | TyShape::Boxed(part)
        | TyShape::Cell(part)
        | TyShape::UnsafeCell(part)
        | TyShape::Slice(part) => part.0 < count,
        TyShape::Struct(_) => false,
        _ => true,
    }
}

/// The type of a shape, where it names types that are there and no struct.
pub fn add(types: &mut Types, shape: TyShape) -> Option<Ty>
    ensures { types.new.items ≡ types.old.items }
{
    if types.count() > 9999 || !is_known(&shape, types.count()) {
        return None;
    }
    match types.intern(shape) {
        Ok(ty) => Some(ty),
        Err(_) => None,
    }
}
