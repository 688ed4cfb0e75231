//! The heads of the functions of a file.

ghost use Rattle.std.specs.Prelude.{◌≡◌, [], ◌∷◌, ◌++◌, IfOk, OnOk};
ghost use Rattle.std.specs.List.{AllByRecursion};
ghost use Rattle.tb_written.specs.Kept.{AreDeclared};
ghost use Rattle.tb_signatures.specs.Signatures.{IsTyped, signature_of, signatures_by, signatures_in, AreSigned};

use crate::signature::{Signature, signature_of};
use std::alloc::{AllocError, Global};
use tb_ast::{Function, Item, ItemKind};
use tb_lookup::FileNames;
use tb_types::Types;

fn push(list: &mut Vec<Signature>, signature: Signature) -> Result<(), AllocError>
    ensures { OnOk result (list.new.items ≡ list.old.items ++ signature ∷ []) }
{
    list.push(signature)?;
    Ok(())
}

/// Puts the head of a function behind others.
fn add(
    alloc: Global,
    file: &FileNames,
    types: &mut Types,
    list: &mut Vec<Signature>,
    function: &Function,
) -> Result<(), AllocError>
    requires declared { AreDeclared types.old file.now }
    requires typed { AllByRecursion (IsTyped types.old) list.old.items }
    ensures { OnOk result (AreSigned types.old types.new list.old.items list.new.items (signature_of file.now function.now ∷ [])) }
{
    let signature = signature_of(alloc, file, types, function)?;
    push(list, signature)
}

/// The same of an item, if it is a function.
fn add_item(
    alloc: Global,
    file: &FileNames,
    types: &mut Types,
    list: &mut Vec<Signature>,
    kind: &ItemKind,
) -> Result<(), AllocError>
    requires declared { AreDeclared types.old file.now }
    requires typed { AllByRecursion (IsTyped types.old) list.old.items }
    ensures { OnOk result (AreSigned types.old types.new list.old.items list.new.items (signatures_by file.now kind.now)) }
{
    match kind {
        ItemKind::Function(function) => add(alloc, file, types, list, function),
        _ => Ok(()),
    }
}

/// The heads of the functions of a file, each at the number of its function, with types that are put to the others. `file`
/// has the names of the file, and its structs are declared in `types`.
pub fn signatures(
    alloc: Global,
    file: &FileNames,
    types: &mut Types,
    items: &[Item],
) -> Result<Vec<Signature>, AllocError>
    requires declared { AreDeclared types.old file.now }
    ensures signatures { IfOk result (λ list. AreSigned types.old types.new [] list.items (signatures_in file.now items.now)) }
{
    let mut list = Vec::new(alloc);
    for item in items {
        add_item(alloc, file, types, &mut list, &item.kind)?;
    }
    Ok(list)
}
