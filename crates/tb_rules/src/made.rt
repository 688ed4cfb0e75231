//! Types that are made.

ghost use Rattle.std.specs.Prelude.{◌≡◌, true, IfOk, IfSome, OnOk};
ghost use Rattle.std.specs.List.{AllByRecursion};
ghost use Rattle.tb_types.specs.Table.{IsType, IsDeclared, named_in, item_named, with_shape, place_of};
ghost use Rattle.tb_rules.specs.Made.{is_type, are_types};

use std::alloc::AllocError;
use tb_types::{Ty, TyShape, Types};

/// The most types of a table.
const MOST: u32 = 1 << 31;

/// The type of a shape in a table, which has it afterwards. A table has room for 2^31 types, and none for shapes
/// that name a type or a struct that it does not have.
pub fn intern(types: &mut Types, shape: TyShape) -> Result<Ty, AllocError>
    ensures number { IfOk result (λ ty. ty ≡ place_of types.old shape) }
    ensures types { OnOk result (types.new ≡ with_shape types.old shape) }
{
    if types.count() < MOST && are_known(types, &shape) {
        types.intern(shape)
    } else {
        Err(AllocError)
    }
}

pub fn is_type(types: &Types, ty: Ty) -> bool
    ensures { result ≡ is_type types.now ty }
{
    ty.0 < types.count()
}

fn are_types(types: &Types, list: &[Ty]) -> bool
    ensures { result ≡ are_types types.now list.now }
{
    for ty in list {
        if !is_type(types, *ty) {
            return false;
        }
    }
    true
}

/// Whether the types and the struct that a shape names are of the table.
#[tactic(auto, using(crate::proofs::Known::types_are))]
fn are_known(types: &Types, shape: &TyShape) -> bool
    ensures named { result ≡ true → AllByRecursion (IsType types.now) (named_in shape.now) }
    ensures declared { result ≡ true → IfSome (item_named shape.now) (IsDeclared types.now) }
{
    match shape {
        TyShape::Int(_) | TyShape::Bool | TyShape::Char | TyShape::Unit => true,
        TyShape::Tuple(parts) => are_types(types, parts.as_slice()),
        TyShape::Struct(item) => types.defined(*item),
        TyShape::Array(part, _)
        | TyShape::Ref(_, part)
        | TyShape::Raw(_, part)
        | TyShape::Boxed(part)
        | TyShape::Cell(part)
        | TyShape::UnsafeCell(part)
        | TyShape::Slice(part) => is_type(types, *part),
    }
}
