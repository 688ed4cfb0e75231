//! The fields of a struct, with types of a table.

ghost use Rattle.std.specs.Prelude.{◌≡◌, [], ◌∷◌, IfOk, OnOk};
ghost use Rattle.tb_written.specs.Written.{written};
ghost use Rattle.tb_written.specs.Kept.{AreDeclared};
ghost use Rattle.tb_fields.specs.Fields.{or_unit, written_field, written_fields};
ghost use Rattle.tb_fields.specs.Defined.{IsMade, AreTyped, AreMade};

use std::alloc::{AllocError, Global};
use tb_ast::{Field, TypeExpr};
use tb_lookup::FileNames;
use tb_structs::shown;
use tb_types::{Field as TypeField, Name, Ty, TyShape, Types};
use tb_written::{Scope, intern, written_type};

/// The type of a field. No field depends on a type parameter; if one did, its type would count as `()`.
fn field_type(
    alloc: Global,
    file: &FileNames,
    types: &mut Types,
    ty: &TypeExpr,
) -> Result<Ty, AllocError>
    requires declared { AreDeclared types.old file.now }
    ensures { IfOk result (λ made. IsMade types.old types.new made (or_unit (written file.now [] ty.now))) }
{
    let scope = Scope {
        alloc,
        file,
        parameters: &[],
    };
    match written_type(&scope, types, ty)? {
        Some(made) => Ok(made),
        None => intern(types, TyShape::Unit),
    }
}

/// Puts a field behind others.
fn add_field(
    alloc: Global,
    file: &FileNames,
    types: &mut Types,
    list: &mut Vec<TypeField>,
    field: &Field,
) -> Result<(), AllocError>
    requires declared { AreDeclared types.old file.now }
    requires typed { AreTyped types.old list.old.items }
    ensures { OnOk result (AreMade types.old types.new list.old.items list.new.items (written_field file.now field.now ∷ [])) }
{
    let ty = field_type(alloc, file, types, &field.ty)?;
    let name = Name::new(alloc, shown(field.name.name.bytes.as_slice()))?;
    list.push(TypeField { name, ty })?;
    Ok(())
}

/// The fields that are written, with their types.
pub fn fields_of(
    alloc: Global,
    file: &FileNames,
    types: &mut Types,
    fields: &[Field],
) -> Result<Vec<TypeField>, AllocError>
    requires declared { AreDeclared types.old file.now }
    ensures { IfOk result (λ list. AreMade types.old types.new [] list.items (written_fields file.now fields.now)) }
{
    let mut list = Vec::new(alloc);
    for field in fields {
        add_field(alloc, file, types, &mut list, field)?;
    }
    Ok(list)
}
