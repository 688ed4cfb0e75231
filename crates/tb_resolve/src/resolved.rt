//! The names of a file, or its first fault.

ghost use Rattle.std.specs.Prelude.{◌≡◌, [], ⊤};
ghost use Rattle.tb_perm.specs.declared.code.Code.TheVariants.{UnknownName};
ghost use Rattle.tb_names.specs.Names.{first_of};
ghost use Rattle.tb_lookup.specs.Files.{file_names};
ghost use Rattle.tb_written.specs.Kept.{AreDeclared};
ghost use Rattle.tb_fields.specs.Fields.{structs_of};
ghost use Rattle.tb_fields.specs.Defined.{AreBlank, HaveFields};
ghost use Rattle.tb_resolve.specs.Meanings.{unknowns_in, meanings_in, IsListed};
ghost use Rattle.tb_resolve.specs.Resolved.{coded, given_fault, Resolves, Passes, PassesCircle};

use crate::error::NameError;
use crate::meanings::file_meanings;
use crate::names::Names;
use sqlite_items::Items;
use std::alloc::Global;
use tb_ast::{Item, Tree};
use tb_fields::{FieldError, define_structs};
use tb_lookup::FileNames;
use tb_mentions::{Meaning, MentionError};
use tb_names::{limit_fault, main_fault, repeat_fault};
use tb_perm::{Code, Span};
use tb_signatures::signatures;
use tb_structs::declared_types;
use tb_types::Types;

/// Refuses where there is a fault of this code.
fn pass(code: Code, found: Option<Span>) -> Result<(), NameError>
    ensures { Passes result (coded code found) (λ _. ⊤) }
{
    match found {
        Some(span) => Err(NameError::Refused(code, span)),
        None => Ok(()),
    }
}

/// Refuses a file that passes a limit or gives a name twice.
fn pass_given(alloc: Global, items: &[Item]) -> Result<(), NameError>
    ensures { Passes result (given_fault items.now) (λ _. ⊤) }
{
    pass(Code::TooManyParts, limit_fault(alloc, items)?)?;
    pass(Code::NameGivenTwice, repeat_fault(alloc, items)?)
}

/// What the mentions of the items mean; refuses where one means nothing.
fn meanings_of(
    alloc: Global,
    file: &FileNames,
    types: &mut Types,
    items: &[Item],
) -> Result<Vec<Items<Meaning>>, NameError>
    requires declared { AreDeclared types.old file.now }
    ensures { Passes result (coded UnknownName (first_of (unknowns_in file.now items.now))) (λ lists. IsListed types.old types.new [] lists.items (meanings_in file.now items.now)) }
{
    match file_meanings(alloc, file, types, items) {
        Ok(lists) => Ok(lists),
        Err(MentionError::Unknown(span)) => Err(NameError::Refused(Code::UnknownName, span)),
        Err(MentionError::Memory) => Err(NameError::Memory),
    }
}

/// Gives the structs their fields; refuses where one holds itself.
fn define(
    alloc: Global,
    file: &FileNames,
    types: &mut Types,
    items: &[Item],
) -> Result<(), NameError>
    requires file { file.now ≡ file_names items.now }
    requires declared { AreDeclared types.old file.now }
    requires blank { AreBlank types.old items.now }
    ensures { PassesCircle result items.now (HaveFields file.now types.old types.new (structs_of items.now)) }
{
    match define_structs(alloc, file, types, items) {
        Ok(()) => Ok(()),
        Err(FieldError::HoldsItself(span)) => Err(NameError::Refused(Code::TypeHoldsItself, span)),
        Err(FieldError::Memory) => Err(NameError::Memory),
    }
}

/// What the names of a file mean.
///
/// # Errors
///
/// `Refused` with the first fault. Faults of one kind after another are looked for in the whole file, and of
/// each kind the first in the text is answered: a limit that is passed (N5), a name that is given twice (N3), a
/// name that is unknown (N2), a struct that holds itself other than behind a reference or raw pointer (N4), and
/// a `main` that is missing, or has parameters, type parameters or a result (N1). And `Memory`.
pub fn resolve(alloc: Global, tree: &Tree) -> Result<Names, NameError>
    ensures resolved { Resolves tree.now result }
{
    let items = tree.items.as_slice();
    pass_given(alloc, items)?;
    let file = FileNames::of(alloc, items)?;
    let mut types = declared_types(alloc, items)?;
    let meanings = meanings_of(alloc, &file, &mut types, items)?;
    let functions = signatures(alloc, &file, &mut types, items)?;
    types.law_types();
    define(alloc, &file, &mut types, items)?;
    pass(Code::NoMainFunction, main_fault(tree))?;
    Ok(Names {
        types,
        functions,
        meanings,
    })
}
