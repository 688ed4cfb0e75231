//! How many items, fields, parameters and parts of a tuple there may be.

ghost use Rattle.std.specs.Prelude.{◌≡◌, ◌≤◌, length, map, IfOk};
ghost use Rattle.std.specs.List.{list_any};
ghost use Rattle.tb_names.specs.Names.{first_of};
ghost use Rattle.tb_outline.specs.Outlines.{told_step};
ghost use Rattle.tb_names.specs.Limits.{is_wide, type_parameters, type_parameters_of, is_long, passes_limit, item_place, limit_faults};

use std::alloc::{AllocError, Global};
use tb_ast::{GenericParameter, Generics, Item, ItemKind};
use tb_outline::{Step, outline};
use tb_perm::Span;

/// The most items of a file.
const ITEMS: usize = 4096;

/// The most fields of a struct.
const FIELDS: usize = 256;

/// The most parameters of a function.
const PARAMETERS: usize = 64;

/// The most type parameters of a function.
const TYPE_PARAMETERS: usize = 12;

/// The most parts of a tuple.
const PARTS: usize = 12;

fn is_wide(step: Step<'_>) -> bool
    ensures { result ≡ is_wide (told_step step.entry) }
{
    match step {
        Step::Parts(count) => count > PARTS,
        _ => false,
    }
}

fn has_wide(steps: &[Step<'_>]) -> bool
    ensures { result ≡ list_any is_wide (map told_step steps.now) }
{
    for step in steps {
        if is_wide(*step) {
            return true;
        }
    }
    false
}

fn count_types(parameters: &[GenericParameter]) -> usize
    ensures value { result ≡ length (type_parameters parameters.now) }
    ensures most { result ≤ length parameters.now }
{
    let mut count = 0;
    for parameter in parameters {
        if let GenericParameter::Named { .. } = parameter {
            count += 1;
        }
    }
    count
}

/// How many type parameters there are.
pub fn type_parameter_count(generics: &Option<Generics>) -> usize
    ensures { result ≡ length (type_parameters_of generics.now) }
{
    match generics {
        Some(generics) => count_types(generics.parameters.as_slice()),
        None => 0,
    }
}

fn is_long(kind: &ItemKind) -> bool
    ensures { result ≡ is_long kind.now }
{
    match kind {
        ItemKind::Struct(item) => item.fields.len() > FIELDS,
        ItemKind::Function(function) => {
            function.parameters.len() > PARAMETERS
                || type_parameter_count(&function.generics) > TYPE_PARAMETERS
        }
        _ => false,
    }
}

fn item_place(kind: &ItemKind) -> Span
    ensures { result ≡ item_place kind.now }
{
    match kind {
        ItemKind::Use(item) => item.use_keyword,
        ItemKind::Struct(item) => item.name.span,
        ItemKind::Function(function) => function.name.span,
        ItemKind::Extern(block) => block.extern_keyword,
    }
}

fn passes_limit(alloc: Global, item: &Item) -> Result<bool, AllocError>
    ensures { IfOk result (λ passes. passes ≡ passes_limit item.now) }
{
    if is_long(&item.kind) {
        return Ok(true);
    }
    let steps = outline(alloc, item)?;
    Ok(has_wide(&steps))
}

/// Where the first item is named that passes a limit: more than 256 fields, 64 parameters, 12 type
/// parameters or 12 parts of a tuple or its type, or the 4,097th item.
pub fn limit_fault(alloc: Global, items: &[Item]) -> Result<Option<Span>, AllocError>
    ensures first { IfOk result (λ fault. fault ≡ first_of (limit_faults items.now)) }
{
    for (number, item) in items.iter().enumerate() {
        if number >= ITEMS || passes_limit(alloc, item)? {
            return Ok(Some(item_place(&item.kind)));
        }
    }
    Ok(None)
}
