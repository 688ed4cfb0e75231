//! The paths that `use` may name.

ghost use Rattle.std.specs.Prelude.{◌≡◌, IfOk};
ghost use Rattle.std.specs.List.{list_all, list_any};
ghost use Rattle.tb_names.specs.Names.{lent};
ghost use Rattle.tb_lookup.specs.Paths.{followed};
ghost use Rattle.tb_lookup.specs.Lookups.{imports, is_text_among, is_import_text, begins_path, is_part_of, are_imports, is_import};

use crate::path::{follow, spelled};
use std::alloc::{AllocError, Global};
use tb_ast::{Ident, Use};

/// The paths that `use` may name.
const IMPORTS: [&[u8]; 20] = [
    b"std::cell::Cell",
    b"std::cell::UnsafeCell",
    b"std::ptr",
    b"std::mem",
    b"std::slice",
    b"std::mem::size_of",
    b"std::mem::align_of",
    b"core::cell::Cell",
    b"core::cell::UnsafeCell",
    b"core::ptr",
    b"core::mem",
    b"core::slice",
    b"core::mem::size_of",
    b"core::mem::align_of",
    b"std::alloc::alloc",
    b"std::alloc::dealloc",
    b"std::alloc::Layout",
    b"alloc::alloc",
    b"alloc::dealloc",
    b"alloc::Layout",
];

fn is_text_among(paths: &[&[u8]], text: &[u8]) -> bool
    ensures { result ≡ is_text_among (lent paths.now) text.now }
{
    for path in paths {
        if text == *path {
            return true;
        }
    }
    false
}

fn is_import_text(text: &[u8]) -> bool
    ensures { result ≡ is_import_text text.now }
{
    is_text_among(&IMPORTS, text)
}

/// Whether the path is this text, or begins with it and `::`.
fn begins_path(text: &[u8], path: &[u8]) -> bool
    ensures { result ≡ begins_path text.now path.now }
{
    if text == path {
        return true;
    }
    path.starts_with(text) && path[text.len()..].starts_with(b"::")
}

fn is_part_of(paths: &[&[u8]], text: &[u8]) -> bool
    ensures { result ≡ is_part_of (lent paths.now) text.now }
{
    for path in paths {
        if begins_path(text, path) {
            return true;
        }
    }
    false
}

/// Whether the text is what several of the known paths have in common.
fn is_part(text: &[u8]) -> bool
    ensures { result ≡ is_part_of imports text.now }
{
    is_part_of(&IMPORTS, text)
}

fn are_imports(alloc: Global, text: &[u8], names: &[Ident]) -> Result<bool, AllocError>
    ensures { IfOk result (λ known. known ≡ are_imports text.now names.now) }
{
    for name in names {
        let mut path = Vec::from_slice(alloc, text)?;
        follow(&mut path, name)?;
        if !is_import_text(&path) {
            return Ok(false);
        }
    }
    Ok(true)
}

/// Whether a `use` names paths that are known: those of `std` and `core` to `cell::Cell`, `cell::UnsafeCell`,
/// `ptr`, `mem`, `slice`, `mem::size_of` and `mem::align_of`, and `alloc`, `dealloc` and `Layout` behind
/// `alloc::` and `std::alloc::`; or such paths by their common part and names in braces.
pub fn is_import(alloc: Global, item: &Use) -> Result<bool, AllocError>
    ensures known { IfOk result (λ known. known ≡ is_import item.now) }
{
    let text = spelled(alloc, item.path.segments.as_slice())?;
    match &item.group {
        None => Ok(is_import_text(&text)),
        Some(group) => {
            if is_part(&text) {
                are_imports(alloc, &text, group.names.as_slice())
            } else {
                Ok(false)
            }
        }
    }
}
