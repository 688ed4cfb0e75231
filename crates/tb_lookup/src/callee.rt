//! What is called, by its path.

ghost use Rattle.std.specs.Prelude.{◌≡◌, Option, IfOk};
ghost use Rattle.std.specs.Str.{bytes_eq};
ghost use Rattle.tb_names.specs.Names.{name_of, names_of, told};
ghost use Rattle.tb_lookup.specs.Paths.{words_of};
ghost use Rattle.tb_lookup.specs.Lookups.{or_call, is_outside, known_call, built_in_call, call_by, hides_type, unless, call_in, begins_with, called};

use crate::built_in::{built_in_call as call_row, call_in_alloc};
use crate::file::{FileNames, Named};
use crate::path::{in_alloc, is_named, spelled, unrooted};
use crate::ty::is_among;
use std::alloc::{AllocError, Global};
use tb_ast::{Ident, Path};
use tb_types::Builtin;

/// What is called.
#[derive(Clone, Copy, Debug, PartialEq, Eq)]
pub enum Callee {
    /// The function of this number of the file, from 0.
    Function(u32),
    /// A call that is built in.
    Builtin(Builtin),
    /// `drop`, which is built in, too.
    DropValue,
}

fn or_call(first: Option<Callee>, second: Option<Callee>) -> Option<Callee>
    ensures { result ≡ or_call first second }
{
    match first {
        Some(call) => Some(call),
        None => second,
    }
}

fn is_outside(named: Option<Named>) -> bool
    ensures { result ≡ is_outside named }
{
    match named {
        Some(Named::Getchar) => true,
        _ => false,
    }
}

fn known_call(file: &FileNames, call: Option<Callee>) -> Option<Callee>
    ensures { result ≡ known_call file.now call }
{
    match call {
        Some(Callee::Builtin(Builtin::Getchar)) => {
            if is_outside(file.get(b"getchar")) {
                call
            } else {
                None
            }
        }
        _ => call,
    }
}

/// The call of this path among those that are built in.
fn built_in_call(
    alloc: Global,
    file: &FileNames,
    words: &[Ident],
) -> Result<Option<Callee>, AllocError>
    ensures { IfOk result (λ call. call ≡ built_in_call file.now (words_of words.now)) }
{
    let first = spelled(alloc, unrooted(words))?;
    let second = spelled(alloc, in_alloc(words))?;
    let call = or_call(call_row(&first), call_in_alloc(&second));
    Ok(known_call(file, call))
}

fn call_by(named: Option<Named>, call: Option<Callee>) -> Option<Callee>
    ensures { result ≡ call_by named call }
{
    match named {
        None | Some(Named::Getchar) => call,
        Some(Named::Function(number)) => Some(Callee::Function(number)),
        Some(Named::Struct(_)) => None,
    }
}

fn hides_type(file: &FileNames, word: &Ident) -> bool
    ensures { result ≡ hides_type file.now (name_of word.now) }
{
    is_named(word, b"Layout") && file.get(word.name.bytes.as_slice()).is_some()
}

fn call_in(alloc: Global, file: &FileNames, words: &[Ident]) -> Result<Option<Callee>, AllocError>
    ensures { IfOk result (λ call. call ≡ call_in file.now (words_of words.now)) }
{
    match words {
        [] => Ok(None),
        [word, rest @ ..] => {
            let call = built_in_call(alloc, file, words)?;
            if rest.is_empty() {
                Ok(call_by(file.get(word.name.bytes.as_slice()), call))
            } else {
                Ok(unless(hides_type(file, word), call))
            }
        }
    }
}

fn unless(hidden: bool, call: Option<Callee>) -> Option<Callee>
    ensures { result ≡ unless hidden call }
{
    if hidden { None } else { call }
}

fn begins_with(parameters: &[&Ident], words: &[Ident]) -> bool
    ensures { result ≡ begins_with (names_of (told parameters.now)) (words_of words.now) }
{
    match words {
        [] => false,
        [word, ..] => is_among(parameters, word.name.bytes.as_slice()),
    }
}

/// What a path names as the callee of a call, in a function of these type parameters: a function of the file,
/// or else a built-in call.
///
/// The path of a built-in call may begin with `std::` or `core::`; `alloc`, `dealloc` and `Layout` may stand
/// behind `alloc::` and `std::alloc::`. An item of the file hides the built-in call of its name, but no path
/// of more words, apart from `Layout::`. A type parameter hides all that its name begins. `getchar` is known
/// where an `extern` item has it.
pub fn called(
    alloc: Global,
    file: &FileNames,
    parameters: &[&Ident],
    path: &Path,
) -> Result<Option<Callee>, AllocError>
    ensures named { IfOk result (λ call. call ≡ called file.now (names_of (told parameters.now)) (words_of path.now.segments)) }
{
    let words = path.segments.as_slice();
    if begins_with(parameters, words) {
        Ok(None)
    } else {
        call_in(alloc, file, words)
    }
}
