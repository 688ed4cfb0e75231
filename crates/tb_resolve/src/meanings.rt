//! What the mentions of a whole file mean.

ghost use Rattle.std.specs.Prelude.{◌≡◌, [], ◌∷◌, ◌++◌, IfOk, OnOk};
ghost use Rattle.std.specs.List.{AllByRecursion};
ghost use Rattle.tb_names.specs.Names.{first_of};
ghost use Rattle.tb_written.specs.Kept.{AreDeclared};
ghost use Rattle.tb_mentions.specs.Walks.{item_meanings, item_unknowns, Gives};
ghost use Rattle.tb_resolve.specs.Meanings.{meanings_in, unknowns_in, unknown_faults, AreMeant, IsListed};

use sqlite_items::Items;
use std::alloc::{AllocError, Global};
use tb_ast::Item;
use tb_lookup::FileNames;
use tb_mentions::{Meaning, MentionError, item_meanings};
use tb_perm::Span;
use tb_structs::declared_types;
use tb_types::Types;

fn add(lists: &mut Vec<Items<Meaning>>, list: Vec<Meaning>) -> Result<(), AllocError>
    ensures { OnOk result (lists.new.items ≡ lists.old.items ++ list.items ∷ []) }
{
    lists.push(Items::from_vec(list))?;
    Ok(())
}

/// Puts what the mentions of an item mean behind the lists of the items before it.
fn add_item(
    alloc: Global,
    file: &FileNames,
    types: &mut Types,
    lists: &mut Vec<Items<Meaning>>,
    item: &Item,
) -> Result<(), MentionError>
    requires declared { AreDeclared types.old file.now }
    requires meant { AllByRecursion (AreMeant types.old) lists.old.items }
    ensures { Gives result (item_unknowns file.now item.now) (λ _. IsListed types.old types.new lists.old.items lists.new.items (item_meanings file.now item.now ∷ [])) }
{
    let list = item_meanings(alloc, file, types, item)?;
    add(lists, list)?;
    Ok(())
}

/// What the mentions of each item mean, item by item. `file` has the names of the file, and its structs are
/// declared in `types`, to which the written types come.
///
/// # Errors
///
/// `Unknown` with the place of the first name in the text that means nothing, and `Memory`.
pub fn file_meanings(
    alloc: Global,
    file: &FileNames,
    types: &mut Types,
    items: &[Item],
) -> Result<Vec<Items<Meaning>>, MentionError>
    requires declared { AreDeclared types.old file.now }
    ensures meanings { Gives result (unknowns_in file.now items.now) (λ lists. IsListed types.old types.new [] lists.items (meanings_in file.now items.now)) }
{
    let mut lists = Vec::new(alloc);
    for item in items {
        add_item(alloc, file, types, &mut lists, item)?;
    }
    Ok(lists)
}

/// The place of the first name of a file that means nothing: a word of an attribute, the bound of a type
/// parameter, the path of a `use`, what lies outside, a variable, a function, a struct or a type.
pub fn unknown_fault(alloc: Global, items: &[Item]) -> Result<Option<Span>, AllocError>
    ensures first { IfOk result (λ fault. fault ≡ first_of (unknown_faults items.now)) }
{
    let file = FileNames::of(alloc, items)?;
    let mut types = declared_types(alloc, items)?;
    match file_meanings(alloc, &file, &mut types, items) {
        Ok(_) => Ok(None),
        Err(MentionError::Unknown(span)) => Ok(Some(span)),
        Err(MentionError::Memory) => Err(AllocError),
    }
}
