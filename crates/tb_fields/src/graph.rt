//! Which structs hold which.

ghost use Rattle.std.specs.Prelude.{◌≡◌, [], ◌∷◌, ◌++◌, IfOk, OnOk};
ghost use Rattle.std.specs.List.{AllByRecursion};
ghost use Rattle.tb_types.specs.Table.{IsDeclared};
ghost use Rattle.tb_written.specs.Kept.{Keeps, AreDeclared};
ghost use Rattle.tb_fields.specs.Fields.{told_structs, held_by, struct_graph};
ghost use Rattle.tb_fields.specs.Defined.{IsRow, AreRows, AreBelow};

use crate::fields::fields_of;
use crate::held::add_fields;
use std::alloc::{AllocError, Global};
use tb_ast::Struct;
use tb_lookup::FileNames;
use tb_types::Types;

/// The structs that lie in the fields of a struct.
fn row(
    alloc: Global,
    file: &FileNames,
    types: &mut Types,
    one: &Struct,
) -> Result<Vec<u32>, AllocError>
    requires declared { AreDeclared types.old file.now }
    ensures { IfOk result (λ row. IsRow types.old types.new row.items (held_by file.now one.now)) }
{
    let fields = fields_of(alloc, file, types, one.fields.as_slice())?;
    let mut row = Vec::new(alloc);
    add_fields(types, &mut row, &fields)?;
    types.law_types();
    Ok(row)
}

fn push(rows: &mut Vec<Vec<u32>>, row: Vec<u32>) -> Result<(), AllocError>
    ensures { OnOk result (rows.new.items ≡ rows.old.items ++ row ∷ []) }
{
    rows.push(row)?;
    Ok(())
}

/// Puts the row of a struct behind others.
fn add_row(
    alloc: Global,
    file: &FileNames,
    types: &mut Types,
    rows: &mut Vec<Vec<u32>>,
    one: &Struct,
) -> Result<(), AllocError>
    requires declared { AreDeclared types.old file.now }
    requires below { AreBelow types.old rows.old.items }
    ensures { OnOk result (AreRows types.old types.new rows.old.items rows.new.items (held_by file.now one.now ∷ [])) }
{
    let row = row(alloc, file, types, one)?;
    push(rows, row)
}

/// For each struct the numbers of those that lie in it; `Layout`, which is 0, holds none.
pub fn struct_graph(
    alloc: Global,
    file: &FileNames,
    types: &mut Types,
    structs: &[&Struct],
) -> Result<Vec<Vec<u32>>, AllocError>
    requires declared { AreDeclared types.old file.now }
    ensures { IfOk result (λ rows. AreRows types.old types.new [] rows.items (struct_graph file.now (told_structs structs.now))) }
{
    let mut rows = Vec::new(alloc);
    push(&mut rows, Vec::new(alloc))?;
    for one in structs {
        add_row(alloc, file, types, &mut rows, one)?;
    }
    Ok(rows)
}
