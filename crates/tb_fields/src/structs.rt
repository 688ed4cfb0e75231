//! The structs of a file by their numbers.

ghost use Rattle.std.specs.Prelude.{◌≡◌, IfOk};
ghost use Rattle.std.specs.Option.{option_map};
ghost use Rattle.tb_fields.specs.Fields.{structs_of, told_structs, struct_at};

use std::alloc::{AllocError, Global};
use tb_ast::{Item, ItemKind, Struct};

/// The structs of a file in the order of the text.
pub fn structs_of(alloc: Global, items: &[Item]) -> Result<Vec<&Struct>, AllocError>
    ensures { IfOk result (λ structs. told_structs structs.items ≡ structs_of items.now) }
{
    let mut structs = Vec::new(alloc);
    for item in items {
        match &item.kind {
            ItemKind::Struct(one) => structs.push(one)?,
            _ => {}
        }
    }
    Ok(structs)
}

/// The struct of this number: 0 is `Layout`, and those of the file are counted from 1.
pub fn struct_at<'a>(structs: &[&'a Struct], number: u32) -> Option<&'a Struct>
    ensures { option_map (λ one. one.now) result ≡ struct_at (told_structs structs.now) number }
{
    match number.checked_sub(1) {
        Some(at) => structs.get(at as usize).copied(),
        None => None,
    }
}
