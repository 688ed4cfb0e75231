//! Types of a table that grows.

ghost use Rattle.std.specs.Prelude.{◌≡◌, IfOk, OnOk, IfSome};
ghost use Rattle.std.specs.List.{AllByRecursion};
ghost use Rattle.tb_types.specs.Table.{IsType, IsDeclared, named_in, item_named};
ghost use Rattle.tb_types.specs.Trees.{tree_in, tree_of};
ghost use Rattle.tb_written.specs.Kept.{Keeps};

use std::alloc::AllocError;
use tb_types::{Ty, TyShape, Types};

/// The most types of a table.
const MOST: u32 = 1 << 31;

/// The type of a shape, in a table of fewer than 2^31 types. The types that it names are of the table.
pub fn intern(types: &mut Types, shape: TyShape) -> Result<Ty, AllocError>
    requires named { AllByRecursion (IsType types.old) (named_in shape) }
    requires declared { IfSome (item_named shape) (IsDeclared types.old) }
    ensures kept { OnOk result (Keeps types.old types.new) }
    ensures is_type { IfOk result (λ ty. IsType types.new ty) }
    ensures tree { IfOk result (λ ty. tree_of types.new ty ≡ tree_in shape (tree_of types.new)) }
{
    types.law_types();
    if types.count() >= MOST {
        return Err(AllocError);
    }
    let ty = types.intern(shape)?;
    types.law_types();
    Ok(ty)
}
