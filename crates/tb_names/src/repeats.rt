//! Names that are given twice.

ghost use Rattle.std.specs.Prelude.{◌≡◌, ◌∷◌, [], not, None, IfOk, OnOk};
ghost use Rattle.tb_names.specs.Names.{name_of, is_among, first_of, told, lent};
ghost use Rattle.tb_names.specs.Limits.{type_parameters, type_parameters_of};
ghost use Rattle.tb_names.specs.Repeats.{built_in, with_name, with_all, with_names, repeats, field_names, parameter_names, foreign_names, given_names, inner_repeats, repeat_faults};

use crate::word::Word;
use indexmap::IndexSet;
use std::alloc::{AllocError, Global};
use tb_ast::{
    Field, ForeignFunction, GenericParameter, Generics, Ident, Item, ItemKind, Parameter,
};
use tb_perm::Span;

/// The names that no item may have, since they are built in.
const BUILT_IN: [&[u8]; 18] = [
    b"drop",
    b"size_of",
    b"align_of",
    b"Box",
    b"Cell",
    b"UnsafeCell",
    b"i8",
    b"i16",
    b"i32",
    b"i64",
    b"isize",
    b"u8",
    b"u16",
    b"u32",
    b"u64",
    b"usize",
    b"bool",
    b"char",
];

/// The names that were given so far.
#[derive(Drop)]
struct Given {
    alloc: Global,
    names: IndexSet<Word>,
}

impl Given {
    fn none(alloc: Global) -> Given
        ensures { result.names.keys ≡ [] }
    {
        Given {
            alloc,
            names: IndexSet::new(alloc),
        }
    }

    /// Puts a name to the others, and says whether it is new.
    fn add(&mut self, name: &[u8]) -> Result<bool, AllocError>
        ensures new { IfOk result (λ new. new ≡ not (is_among self.old.names.keys name.now)) }
        ensures names { OnOk result (self.new.names.keys ≡ with_name self.old.names.keys name.now) }
    {
        let word = Word::new(self.alloc, name)?;
        match self.names.insert(word) {
            Ok(new) => Ok(new),
            Err(_) => Err(AllocError),
        }
    }

    /// Puts the name of an identifier to the others, and gives its place where it is not new.
    fn repeat(&mut self, ident: &Ident) -> Result<Option<Span>, AllocError>
        ensures fault { IfOk result (λ fault. fault ≡ first_of (repeats self.old.names.keys (ident.now ∷ []))) }
        ensures names { OnOk result (self.new.names.keys ≡ with_name self.old.names.keys (name_of ident.now)) }
    {
        if self.add(ident.name.bytes.as_slice())? {
            Ok(None)
        } else {
            Ok(Some(ident.span))
        }
    }
}

impl Given {
    /// The place of the first identifier whose name is not new. Where there is none, all their names are
    /// put to the others.
    fn first(&mut self, idents: &[&Ident]) -> Result<Option<Span>, AllocError>
        ensures fault { IfOk result (λ fault. fault ≡ first_of (repeats self.old.names.keys (told idents.now))) }
        ensures names { IfOk result (λ fault. fault ≡ None → self.new.names.keys ≡ with_names self.old.names.keys (told idents.now)) }
    {
        for ident in idents {
            if let Some(span) = self.repeat(ident)? {
                return Ok(Some(span));
            }
        }
        Ok(None)
    }
}

/// The place of the first identifier whose name an earlier one has.
fn inner(alloc: Global, idents: &[&Ident]) -> Result<Option<Span>, AllocError>
    ensures { IfOk result (λ fault. fault ≡ first_of (repeats [] (told idents.now))) }
{
    let mut given = Given::none(alloc);
    given.first(idents)
}

fn field_names(alloc: Global, fields: &[Field]) -> Result<Vec<&Ident>, AllocError>
    ensures { IfOk result (λ names. told names.items ≡ field_names fields.now) }
{
    let mut names = Vec::new(alloc);
    for field in fields {
        names.push(&field.name)?;
    }
    Ok(names)
}

fn parameter_names(alloc: Global, parameters: &[Parameter]) -> Result<Vec<&Ident>, AllocError>
    ensures { IfOk result (λ names. told names.items ≡ parameter_names parameters.now) }
{
    let mut names = Vec::new(alloc);
    for parameter in parameters {
        names.push(&parameter.name)?;
    }
    Ok(names)
}

fn type_names(alloc: Global, parameters: &[GenericParameter]) -> Result<Vec<&Ident>, AllocError>
    ensures { IfOk result (λ names. told names.items ≡ type_parameters parameters.now) }
{
    let mut names = Vec::new(alloc);
    for parameter in parameters {
        match parameter {
            GenericParameter::Named { name, .. } => names.push(name)?,
            GenericParameter::Lifetime(_) => {}
        }
    }
    Ok(names)
}

/// The type parameters of a function, in the order of the text; lifetimes are none.
pub fn type_parameters(
    alloc: Global,
    generics: &Option<Generics>,
) -> Result<Vec<&Ident>, AllocError>
    ensures parameters { IfOk result (λ names. told names.items ≡ type_parameters_of generics.now) }
{
    match generics {
        Some(generics) => type_names(alloc, generics.parameters.as_slice()),
        None => Ok(Vec::new(alloc)),
    }
}

fn foreign_names(alloc: Global, functions: &[ForeignFunction]) -> Result<Vec<&Ident>, AllocError>
    ensures { IfOk result (λ names. told names.items ≡ foreign_names functions.now) }
{
    let mut names = Vec::new(alloc);
    for function in functions {
        if function.name.name.bytes.as_slice() == b"getchar".as_slice() {
            names.push(&function.name)?;
        }
    }
    Ok(names)
}

/// The names that an item gives in the file.
fn given_names(alloc: Global, kind: &ItemKind) -> Result<Vec<&Ident>, AllocError>
    ensures { IfOk result (λ names. told names.items ≡ given_names kind.now) }
{
    let mut names = Vec::new(alloc);
    match kind {
        ItemKind::Use(_) => {}
        ItemKind::Struct(item) => names.push(&item.name)?,
        ItemKind::Function(function) => names.push(&function.name)?,
        ItemKind::Extern(block) => return foreign_names(alloc, block.functions.as_slice()),
    }
    Ok(names)
}

/// The place of the first repeat among the names within an item.
fn inner_repeat(alloc: Global, kind: &ItemKind) -> Result<Option<Span>, AllocError>
    ensures { IfOk result (λ fault. fault ≡ first_of (inner_repeats kind.now)) }
{
    match kind {
        ItemKind::Struct(item) => {
            let names = field_names(alloc, item.fields.as_slice())?;
            inner(alloc, &names)
        }
        ItemKind::Function(function) => {
            let types = type_parameters(alloc, &function.generics)?;
            if let Some(span) = inner(alloc, &types)? {
                return Ok(Some(span));
            }
            let names = parameter_names(alloc, function.parameters.as_slice())?;
            inner(alloc, &names)
        }
        _ => Ok(None),
    }
}

/// These names.
fn all(alloc: Global, names: &[&[u8]]) -> Result<Given, AllocError>
    ensures { IfOk result (λ given. given.names.keys ≡ with_all [] (lent names.now)) }
{
    let mut given = Given::none(alloc);
    for name in names {
        given.add(name)?;
    }
    Ok(given)
}

/// The names that are built in.
fn built_in(alloc: Global) -> Result<Given, AllocError>
    ensures { IfOk result (λ given. given.names.keys ≡ built_in) }
{
    all(alloc, &BUILT_IN)
}

/// The place of the first name that is given twice: the later of two equal names of items, or one that is
/// built in; of two fields of a struct; of two parameters or type parameters of a function.
pub fn repeat_fault(alloc: Global, items: &[Item]) -> Result<Option<Span>, AllocError>
    ensures first { IfOk result (λ fault. fault ≡ first_of (repeat_faults items.now)) }
{
    let mut given = built_in(alloc)?;
    for item in items {
        let names = given_names(alloc, &item.kind)?;
        if let Some(span) = given.first(&names)? {
            return Ok(Some(span));
        }
        if let Some(span) = inner_repeat(alloc, &item.kind)? {
            return Ok(Some(span));
        }
    }
    Ok(None)
}
