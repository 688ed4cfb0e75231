//! The structs of a file get their fields, each after those that lie in it.

ghost use Rattle.std.specs.Prelude.{◌≡◌, ◌<◌, ◌^◌, [], None, Some, length, OnOk};
ghost use Rattle.std.specs.Option.{option_map};
ghost use Rattle.tb_types.specs.Table.{IsDeclared, fields_at};
ghost use Rattle.tb_ast.specs.declared.item.Struct.{Struct};
ghost use Rattle.tb_order.specs.Graph.{graph_of, AreNodes};
ghost use Rattle.tb_order.specs.Answer.{OrdersAll};
ghost use Rattle.tb_written.specs.Kept.{AreDeclared};
ghost use Rattle.tb_fields.specs.Fields.{structs_of, told_structs, struct_at, held_by, struct_graph};
ghost use Rattle.tb_fields.specs.Defined.{AreHeld, Defines, DefinesIf, IsReady, AreDefined, AreBlank, HaveFields, Completes};

use crate::error::FieldError;
use crate::fields::fields_of;
use crate::graph::struct_graph;
use crate::structs::{struct_at, structs_of};
use std::alloc::{AllocError, Global};
use tb_ast::{Item, Struct};
use tb_lookup::FileNames;
use tb_order::{Order, order_of};
use tb_perm::Span;
use tb_types::Types;

/// The most structs of a file.
const MOST: usize = 1 << 30;

/// Gives a struct its fields.
fn define_struct(
    alloc: Global,
    file: &FileNames,
    types: &mut Types,
    number: u32,
    one: &Struct,
) -> Result<(), AllocError>
    requires declared { AreDeclared types.old file.now }
    requires number { IsDeclared types.old number }
    requires once { fields_at types.old number ≡ None }
    requires held { AreHeld types.old (held_by file.now one.now) }
    ensures { OnOk result (Defines file.now types.old types.new number one.now) }
{
    let fields = fields_of(alloc, file, types, one.fields.as_slice())?;
    types.law_types();
    types.define(number, fields)?;
    Ok(())
}

/// Gives the struct of a number its fields, unless it is `Layout`.
fn define_node(
    alloc: Global,
    file: &FileNames,
    types: &mut Types,
    structs: &[&Struct],
    number: u32,
) -> Result<(), AllocError>
    requires declared { AreDeclared types.old file.now }
    requires number { IsDeclared types.old number }
    requires ready { IsReady file.now types.old number (struct_at (told_structs structs.now) number) }
    ensures { OnOk result (DefinesIf file.now types.old types.new number (struct_at (told_structs structs.now) number)) }
{
    match struct_at(structs, number) {
        Some(one) => define_struct(alloc, file, types, number, one),
        None => Ok(()),
    }
}

/// Gives each struct its fields, in this order.
fn define_all(
    alloc: Global,
    file: &FileNames,
    types: &mut Types,
    structs: &[&Struct],
    numbers: &[u32],
) -> Result<(), AllocError>
    requires declared { AreDeclared types.old file.now }
    requires count { length types.old.items ≡ length (struct_graph file.now (told_structs structs.now)) }
    requires blank { AreDefined file.now types.old types.old (told_structs structs.now) [] }
    requires order { OrdersAll (struct_graph file.now (told_structs structs.now)) numbers.now }
    ensures { OnOk result (AreDefined file.now types.old types.new (told_structs structs.now) numbers.now) }
{
    for number in numbers {
        types.law_types();
        define_node(alloc, file, types, structs, *number)?;
    }
    Ok(())
}

/// Where the struct of a number is named.
fn place(structs: &[&Struct], number: u32) -> Span
    requires { (one : Struct) × (struct_at (told_structs structs.now) number ≡ Some one) }
    ensures { option_map (λ (one : Struct). one.name.span) (struct_at (told_structs structs.now) number) ≡ Some result }
{
    match struct_at(structs, number) {
        Some(one) => one.name.span,
        None => unreachable!(),
    }
}

/// Gives the structs their fields by a graph of which holds which.
fn define_by(
    alloc: Global,
    file: &FileNames,
    types: &mut Types,
    structs: &[&Struct],
    graph: &[Vec<u32>],
) -> Result<(), FieldError>
    requires declared { AreDeclared types.old file.now }
    requires count { length types.old.items ≡ length (struct_graph file.now (told_structs structs.now)) }
    requires blank { AreDefined file.now types.old types.old (told_structs structs.now) [] }
    requires graph { graph_of graph.now ≡ struct_graph file.now (told_structs structs.now) }
    requires nodes { AreNodes (graph_of graph.now) }
    requires few { length graph.now < 2 ^ 32 }
    ensures { Completes file.now (told_structs structs.now) result (HaveFields file.now types.old types.new (told_structs structs.now)) }
{
    match order_of(alloc, graph)? {
        Order::Sorted(numbers) => {
            define_all(alloc, file, types, structs, numbers.as_slice())?;
            Ok(())
        }
        Order::Circle(number) => Err(FieldError::HoldsItself(place(structs, number))),
    }
}

/// Gives the structs of a file their fields, with types that are put to the others. `file` has the names of
/// the file, and its structs are declared in `types`, and not defined.
///
/// # Errors
///
/// `HoldsItself` with the place of the first struct in the text that holds itself, as a whole or through others,
/// other than behind a reference or raw pointer; and `Memory`.
pub fn define_structs(
    alloc: Global,
    file: &FileNames,
    types: &mut Types,
    items: &[Item],
) -> Result<(), FieldError>
    requires declared { AreDeclared types.old file.now }
    requires blank { AreBlank types.old items.now }
    ensures defined { Completes file.now (structs_of items.now) result (HaveFields file.now types.old types.new (structs_of items.now)) }
{
    let list = structs_of(alloc, items)?;
    let structs = list.as_slice();
    if structs.len() > MOST {
        return Err(FieldError::Memory);
    }
    let rows = struct_graph(alloc, file, types, structs)?;
    define_by(alloc, file, types, structs, rows.as_slice())
}
