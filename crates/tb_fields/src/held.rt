//! The structs that lie in a type.

ghost use Rattle.std.specs.Prelude.{◌≡◌, ◌<◌, ◌≤◌, ◌++◌, ◌∷◌, [], length, OnOk};
ghost use Rattle.std.specs.List.{AllByRecursion};
ghost use Rattle.tb_types.specs.declared.shape.Ty.{Ty};
ghost use Rattle.tb_types.specs.Table.{IsType, named_in};
ghost use Rattle.tb_types.specs.Trees.{trees_by, tree_in, tree_of};
ghost use Rattle.tb_fields.specs.Held.{structs_in, structs_in_all};
ghost use Rattle.tb_fields.specs.Fields.{told_fields, held_in};
ghost use Rattle.tb_fields.specs.Defined.{AreTyped};

use std::alloc::AllocError;
use tb_types::{Field, Ty, TyShape, Types};

fn add(list: &mut Vec<u32>, number: u32) -> Result<(), AllocError>
    ensures { OnOk result (list.new.items ≡ list.old.items ++ number ∷ []) }
{
    list.push(number)?;
    Ok(())
}

/// Puts the structs that lie in a type behind others.
#[cycle(holding)]
fn add_type(types: &Types, list: &mut Vec<u32>, ty: Ty) -> Result<(), AllocError>
    requires { IsType types.now ty }
    ensures { OnOk result (list.new.items ≡ list.old.items ++ structs_in (tree_of types.now ty)) }
{
    types.law_types();
    add_shape(types, list, ty.0, types.shape(ty))
}

/// Puts the structs that lie in a type of a shape behind others. It names types of numbers below the bound.
#[cycle(holding)]
fn add_shape(
    types: &Types,
    list: &mut Vec<u32>,
    bound: u32,
    shape: &TyShape,
) -> Result<(), AllocError>
    requires bound { bound ≤ length types.now.shapes }
    requires named { AllByRecursion (λ (part : Ty). part.0 < bound) (named_in shape.now) }
    ensures { OnOk result (list.new.items ≡ list.old.items ++ structs_in (tree_in shape.now (tree_of types.now))) }
{
    match shape {
        TyShape::Struct(number) => add(list, *number),
        TyShape::Tuple(parts) => add_parts(types, list, bound, parts.as_slice()),
        TyShape::Array(part, _)
        | TyShape::Boxed(part)
        | TyShape::Cell(part)
        | TyShape::UnsafeCell(part)
        | TyShape::Slice(part) => add_type(types, list, *part),
        _ => Ok(()),
    }
}

#[cycle(holding)]
fn add_parts(types: &Types, list: &mut Vec<u32>, bound: u32, parts: &[Ty]) -> Result<(), AllocError>
    requires bound { bound ≤ length types.now.shapes }
    requires parts { AllByRecursion (λ (part : Ty). part.0 < bound) parts.now }
    ensures { OnOk result (list.new.items ≡ list.old.items ++ structs_in_all (trees_by (tree_of types.now) parts.now)) }
{
    for part in parts {
        add_type(types, list, *part)?;
    }
    Ok(())
}

/// Puts the structs that lie in fields behind others.
pub fn add_fields(types: &Types, list: &mut Vec<u32>, fields: &[Field]) -> Result<(), AllocError>
    requires typed { AreTyped types.now fields.now }
    ensures { OnOk result (list.new.items ≡ list.old.items ++ held_in (told_fields types.now fields.now)) }
{
    for field in fields {
        add_type(types, list, field.ty)?;
    }
    Ok(())
}
