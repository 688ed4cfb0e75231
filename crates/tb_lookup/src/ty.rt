//! Types by their paths.

ghost use Rattle.std.specs.Prelude.{◌≡◌, ℕ, Option, position, IfOk};
ghost use Rattle.std.specs.Option.{option_map};
ghost use Rattle.std.specs.Str.{bytes_eq};
ghost use Rattle.tb_names.specs.Names.{name_of, names_of, is_among, told};
ghost use Rattle.tb_lookup.specs.Paths.{words_of};
ghost use Rattle.tb_lookup.specs.Lookups.{type_by, type_word, type_in_alloc, type_name, struct_by, struct_word, literal_struct};

use crate::built_in::built_in_type;
use crate::file::{FileNames, Named};
use crate::path::{in_alloc, is_named, spelled};
use std::alloc::{AllocError, Global};
use tb_ast::{Ident, Path};
use tb_types::IntKind;

/// What a path in a type names.
#[derive(Clone, Copy, Debug, PartialEq, Eq)]
pub enum TypeName {
    Int(IntKind),
    Bool,
    Char,
    /// `Box`, with a type.
    Boxed,
    /// `Cell`, with a type.
    Cell,
    /// `UnsafeCell`, with a type.
    UnsafeCell,
    /// The struct of this number: 0 is `Layout`, and those of the file are counted from 1.
    Struct(u32),
    /// The type parameter of this number of the function, from 0.
    Parameter(usize),
}

/// The number of the first of the identifiers that has this name.
pub fn place_among(idents: &[&Ident], name: &[u8]) -> Option<usize>
    ensures { result ≡ position (bytes_eq name.now) (names_of (told idents.now)) }
{
    for (number, ident) in idents.iter().enumerate() {
        if name == ident.name.bytes.as_slice() {
            return Some(number);
        }
    }
    None
}

/// Whether one of the identifiers has this name.
pub fn is_among(idents: &[&Ident], name: &[u8]) -> bool
    ensures { result ≡ is_among (names_of (told idents.now)) name.now }
{
    for ident in idents {
        if name == ident.name.bytes.as_slice() {
            return true;
        }
    }
    false
}

/// A word that is no type parameter.
fn type_by(named: Option<Named>, word: &[u8]) -> Option<TypeName>
    ensures { result ≡ type_by named word.now }
{
    match named {
        None => built_in_type(word),
        Some(Named::Struct(number)) => Some(TypeName::Struct(number)),
        Some(Named::Function(_)) | Some(Named::Getchar) => None,
    }
}

fn type_word(file: &FileNames, parameters: &[&Ident], word: &[u8]) -> Option<TypeName>
    ensures { result ≡ type_word file.now (names_of (told parameters.now)) word.now }
{
    match place_among(parameters, word) {
        Some(number) => Some(TypeName::Parameter(number)),
        None => type_by(file.get(word), word),
    }
}

fn type_in_alloc(alloc: Global, words: &[Ident]) -> Result<Option<TypeName>, AllocError>
    ensures { IfOk result (λ ty. ty ≡ type_in_alloc (words_of words.now)) }
{
    let text = spelled(alloc, words)?;
    if text.as_slice() == b"Layout".as_slice() {
        Ok(Some(TypeName::Struct(0)))
    } else {
        Ok(None)
    }
}

/// What the path of a type names, in a function of these type parameters. A type parameter hides all else; an
/// item of the file hides `Layout`, but neither `alloc::Layout` nor `std::alloc::Layout`.
pub fn type_name(
    alloc: Global,
    file: &FileNames,
    parameters: &[&Ident],
    path: &Path,
) -> Result<Option<TypeName>, AllocError>
    ensures named { IfOk result (λ name. name ≡ type_name file.now (names_of (told parameters.now)) (words_of path.now.segments)) }
{
    match path.segments.as_slice() {
        [word] => Ok(type_word(file, parameters, word.name.bytes.as_slice())),
        words => type_in_alloc(alloc, in_alloc(words)),
    }
}

fn struct_by(named: Option<Named>) -> Option<u32>
    ensures { result ≡ struct_by named }
{
    match named {
        Some(Named::Struct(number)) => Some(number),
        _ => None,
    }
}

fn struct_word(file: &FileNames, parameters: &[&Ident], word: &[u8]) -> Option<u32>
    ensures { result ≡ struct_word file.now (names_of (told parameters.now)) word.now }
{
    if is_among(parameters, word) {
        None
    } else {
        struct_by(file.get(word))
    }
}

/// The struct of the file that the path of a struct literal names, by its number from 1, in a function of these
/// type parameters.
pub fn literal_struct(file: &FileNames, parameters: &[&Ident], path: &Path) -> Option<u32>
    ensures named { result ≡ literal_struct file.now (names_of (told parameters.now)) (words_of path.now.segments) }
{
    match path.segments.as_slice() {
        [word] => struct_word(file, parameters, word.name.bytes.as_slice()),
        _ => None,
    }
}
