//! Paths as lists of words, and as texts.

ghost use Rattle.std.specs.Prelude.{◌≡◌, IfOk, OnOk};
ghost use Rattle.std.specs.Str.{bytes_eq};
ghost use Rattle.tb_names.specs.Names.{name_of};
ghost use Rattle.tb_lookup.specs.Paths.{words_of, spelled, followed, unrooted, behind_alloc, in_alloc};

use std::alloc::{AllocError, Global};
use tb_ast::Ident;

/// Whether the identifier has this name.
pub fn is_named(ident: &Ident, name: &[u8]) -> bool
    ensures { result ≡ bytes_eq (name_of ident.now) name.now }
{
    ident.name.bytes.as_slice() == name
}

/// Puts one more word behind a text, with `::` before it where there is something.
pub fn follow(text: &mut Vec<u8>, word: &Ident) -> Result<(), AllocError>
    ensures { OnOk result (text.new.items ≡ followed text.old.items (name_of word.now)) }
{
    if !text.is_empty() {
        text.extend_from_slice(b"::")?;
    }
    text.extend_from_slice(word.name.bytes.as_slice())?;
    Ok(())
}

/// The words, with `::` between them.
pub fn spelled(alloc: Global, words: &[Ident]) -> Result<Vec<u8>, AllocError>
    ensures { IfOk result (λ text. text.items ≡ spelled (words_of words.now)) }
{
    let mut text = Vec::new(alloc);
    for word in words {
        follow(&mut text, word)?;
    }
    Ok(text)
}

/// What stands behind `std::` or `core::`, where the path begins so.
pub fn unrooted(words: &[Ident]) -> &[Ident]
    ensures { words_of result.now ≡ unrooted (words_of words.now) }
{
    match words {
        [first, rest @ ..] => {
            if is_named(first, b"std") || is_named(first, b"core") {
                rest
            } else {
                words
            }
        }
        [] => words,
    }
}

/// What stands behind `alloc::`, and nothing where the path does not begin so.
fn behind_alloc(words: &[Ident]) -> &[Ident]
    ensures { words_of result.now ≡ behind_alloc (words_of words.now) }
{
    match words {
        [first, rest @ ..] => { if is_named(first, b"alloc") { rest } else { &[] } }
        [] => words,
    }
}

/// What stands behind `alloc::` or `std::alloc::`.
pub fn in_alloc(words: &[Ident]) -> &[Ident]
    ensures { words_of result.now ≡ in_alloc (words_of words.now) }
{
    match words {
        [first, rest @ ..] => {
            if is_named(first, b"std") {
                behind_alloc(rest)
            } else {
                behind_alloc(words)
            }
        }
        [] => words,
    }
}
