//! Names of an item that are no mentions: the words of attributes, the bounds of type parameters, the path of a `use`, and functions outside.

ghost use Rattle.std.specs.Prelude.{◌≡◌, ◌&&◌, IfOk, codes};
ghost use Rattle.std.specs.List.{list_all};
ghost use Rattle.std.specs.Str.{bytes_eq};
ghost use Rattle.tb_names.specs.Names.{name_of, is_among, first_of, lent};
ghost use Rattle.tb_mentions.specs.Heads.{strangers, meta_strangers, attribute_strangers, bound_strangers, bounds_strangers, generic_strangers, generics_strangers, use_strangers, is_lifetime, are_lifetimes, has_no_types, is_word, is_i32, is_known_outside, outside_strangers, extern_strangers, kind_strangers, head_strangers};

use std::alloc::{AllocError, Global};
use tb_ast::{
    Attribute, Bounds, ExternBlock, ForeignFunction, GenericParameter, Generics, Ident, Item,
    ItemKind, Meta, Path, TypeArgument, TypeArguments, TypeExpr, Use,
};
use tb_lookup::is_import;
use tb_perm::Span;

/// The words of `derive`.
const DERIVES: [&[u8]; 3] = [b"Clone", b"Copy", b"Debug"];

/// The word of `repr`.
const REPRS: [&[u8]; 1] = [b"C"];

/// The bounds of type parameters.
const BOUNDS: [&[u8]; 2] = [b"Copy", b"Clone"];

fn is_one_of(words: &[&[u8]], ident: &Ident) -> bool
    ensures { result ≡ is_among (lent words.now) (name_of ident.now) }
{
    for word in words {
        if ident.name.bytes.as_slice() == *word {
            return true;
        }
    }
    false
}

/// The place of the first identifier that is none of these words.
fn stranger(words: &[&[u8]], idents: &[Ident]) -> Option<Span>
    ensures { result ≡ first_of (strangers (lent words.now) idents.now) }
{
    for ident in idents {
        if !is_one_of(words, ident) {
            return Some(ident.span);
        }
    }
    None
}

fn meta_stranger(meta: &Meta) -> Option<Span>
    ensures { result ≡ first_of (meta_strangers meta.now) }
{
    match meta {
        Meta::Allow(_) => None,
        Meta::Derive(list) => stranger(&DERIVES, list.names.as_slice()),
        Meta::Repr(repr) => {
            if is_one_of(&REPRS, &repr.name) {
                None
            } else {
                Some(repr.name.span)
            }
        }
    }
}

fn attribute_stranger(attributes: &[Attribute]) -> Option<Span>
    ensures { result ≡ first_of (attribute_strangers attributes.now) }
{
    for attribute in attributes {
        if let Some(span) = meta_stranger(&attribute.meta) {
            return Some(span);
        }
    }
    None
}

fn bounds_stranger(bounds: &Option<Bounds>) -> Option<Span>
    ensures { result ≡ first_of (bounds_strangers bounds.now) }
{
    match bounds {
        Some(bounds) => stranger(&BOUNDS, bounds.names.as_slice()),
        None => None,
    }
}

fn bound_stranger(parameter: &GenericParameter) -> Option<Span>
    ensures { result ≡ first_of (bound_strangers parameter.now) }
{
    match parameter {
        GenericParameter::Lifetime(_) => None,
        GenericParameter::Named { bounds, .. } => bounds_stranger(bounds),
    }
}

fn generic_stranger(parameters: &[GenericParameter]) -> Option<Span>
    ensures { result ≡ first_of (generic_strangers parameters.now) }
{
    for parameter in parameters {
        if let Some(span) = bound_stranger(parameter) {
            return Some(span);
        }
    }
    None
}

fn generics_stranger(generics: &Option<Generics>) -> Option<Span>
    ensures { result ≡ first_of (generics_strangers generics.now) }
{
    match generics {
        Some(generics) => generic_stranger(generics.parameters.as_slice()),
        None => None,
    }
}

fn use_stranger(alloc: Global, item: &Use) -> Result<Option<Span>, AllocError>
    ensures { IfOk result (λ span. span ≡ first_of (use_strangers item.now)) }
{
    if is_import(alloc, item)? {
        Ok(None)
    } else {
        Ok(Some(item.span))
    }
}

fn is_lifetime(argument: &TypeArgument) -> bool
    ensures { result ≡ is_lifetime argument.now }
{
    match argument {
        TypeArgument::Lifetime(_) => true,
        TypeArgument::TypeExpr(_) => false,
    }
}

fn are_lifetimes(arguments: &[TypeArgument]) -> bool
    ensures { result ≡ are_lifetimes arguments.now }
{
    for argument in arguments {
        if !is_lifetime(argument) {
            return false;
        }
    }
    true
}

fn has_no_types(arguments: &Option<TypeArguments>) -> bool
    ensures { result ≡ has_no_types arguments.now }
{
    match arguments {
        Some(arguments) => are_lifetimes(arguments.arguments.as_slice()),
        None => true,
    }
}

fn is_word(path: &Path, word: &[u8]) -> bool
    ensures { result ≡ is_word path.now word.now }
{
    match path.segments.as_slice() {
        [ident] => ident.name.bytes.as_slice() == word,
        _ => false,
    }
}

fn is_i32(ty: &TypeExpr) -> bool
    ensures { result ≡ is_i32 ty.now }
{
    match ty {
        TypeExpr::Path {
            path,
            arguments,
            ..
        } => is_word(path, b"i32") && has_no_types(arguments),
        _ => false,
    }
}

fn is_known_outside(function: &ForeignFunction) -> bool
    ensures { result ≡ is_known_outside function.now }
{
    function.name.name.bytes.as_slice() == b"getchar".as_slice() && is_i32(&function.result.ty)
}

fn outside_stranger(functions: &[ForeignFunction]) -> Option<Span>
    ensures { result ≡ first_of (outside_strangers functions.now) }
{
    for function in functions {
        if !is_known_outside(function) {
            return Some(function.name.span);
        }
    }
    None
}

fn extern_stranger(block: &ExternBlock) -> Option<Span>
    ensures { result ≡ first_of (extern_strangers block.now) }
{
    if block.abi.text.source.as_slice() != b"C".as_slice() {
        return Some(block.abi.span);
    }
    outside_stranger(block.functions.as_slice())
}

fn kind_stranger(alloc: Global, kind: &ItemKind) -> Result<Option<Span>, AllocError>
    ensures { IfOk result (λ span. span ≡ first_of (kind_strangers kind.now)) }
{
    match kind {
        ItemKind::Use(item) => use_stranger(alloc, item),
        ItemKind::Struct(_) => Ok(None),
        ItemKind::Function(function) => Ok(generics_stranger(&function.generics)),
        ItemKind::Extern(block) => Ok(extern_stranger(block)),
    }
}

/// The place of the first name of an item that is no mention and that is unknown: a word of an attribute, the bound of a
/// type parameter, the path of a `use`, the text of an `extern`, or a function outside.
pub fn head_stranger(alloc: Global, item: &Item) -> Result<Option<Span>, AllocError>
    ensures first { IfOk result (λ span. span ≡ first_of (head_strangers item.now)) }
{
    match attribute_stranger(item.attributes.as_slice()) {
        Some(span) => Ok(Some(span)),
        None => kind_stranger(alloc, &item.kind),
    }
}
