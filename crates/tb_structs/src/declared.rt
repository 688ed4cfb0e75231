//! Structs are declared before their fields have types, so that each may name any other.

ghost use Rattle.std.specs.Prelude.{◌≡◌, ◌<◌, ◌^◌, length, OnOk, IfOk, codes};
ghost use Rattle.std.specs.Str.{bytes_eq};
ghost use Rattle.tb_names.specs.Names.{name_of};
ghost use Rattle.tb_lookup.specs.Files.{file_names};
ghost use Rattle.tb_written.specs.Kept.{AreDeclared};
ghost use Rattle.tb_structs.specs.Structs.{shown, names_copy, meta_copies, derives_copy, nameless, layout_fields, layout_types, items_by, with_items, declared_items};

use std::alloc::{AllocError, Global};
use tb_ast::{Attribute, Ident, Item, ItemKind, Meta};
use tb_types::{Field, IntKind, Name, Ty, TyShape, Types};

/// A name as a text. Bytes that are no text, which no source has, count as the empty text.
#[tactic(auto, using(crate::proofs::Below::shown_text, crate::proofs::Below::shown_no_text))]
pub fn shown(bytes: &[u8]) -> &str
    ensures shown { result.now ≡ shown bytes.now }
{
    match std::str::from_utf8(bytes) {
        Ok(text) => text,
        Err(_) => "",
    }
}

fn names_copy(idents: &[Ident]) -> bool
    ensures { result ≡ names_copy idents.now }
{
    for ident in idents {
        if ident.name.bytes.as_slice() == b"Copy".as_slice() {
            return true;
        }
    }
    false
}

fn meta_copies(meta: &Meta) -> bool
    ensures { result ≡ meta_copies meta.now }
{
    match meta {
        Meta::Derive(list) => names_copy(list.names.as_slice()),
        Meta::Allow(_) | Meta::Repr(_) => false,
    }
}

fn derives_copy(attributes: &[Attribute]) -> bool
    ensures { result ≡ derives_copy attributes.now }
{
    for attribute in attributes {
        if meta_copies(&attribute.meta) {
            return true;
        }
    }
    false
}

/// A field without a name, so that no program can name it.
fn nameless(alloc: Global, ty: Ty) -> Result<Field, AllocError>
    ensures { IfOk result (λ field. field ≡ nameless ty) }
{
    let name = Name::new(alloc, "")?;
    Ok(Field { name, ty })
}

fn layout_fields(alloc: Global, ty: Ty) -> Result<Vec<Field>, AllocError>
    ensures { IfOk result (λ fields. fields.items ≡ layout_fields ty) }
{
    let mut fields = Vec::new(alloc);
    fields.push(nameless(alloc, ty)?)?;
    fields.push(nameless(alloc, ty)?)?;
    Ok(fields)
}

/// The types with `Layout` alone: a size and an alignment.
fn layout_types(alloc: Global) -> Result<Types, AllocError>
    ensures { IfOk result (λ types. types ≡ layout_types) }
{
    let mut types = Types::new(alloc);
    let ty = types.intern(TyShape::Int(IntKind::Usize))?;
    let layout = types.declare("Layout", true)?;
    let fields = layout_fields(alloc, ty)?;
    types.law_types();
    types.define(layout, fields)?;
    Ok(types)
}

fn declare_item(types: &mut Types, copy: bool, kind: &ItemKind) -> Result<(), AllocError>
    requires room { length types.old.items < 2 ^ 31 }
    ensures types { OnOk result (types.new ≡ with_items types.old (items_by copy kind.now)) }
{
    if let ItemKind::Struct(item) = kind {
        types.declare(shown(item.name.name.bytes.as_slice()), copy)?;
    }
    Ok(())
}

/// The most items of a file that is declared.
const MOST: usize = 1 << 30;

fn declare_all(alloc: Global, items: &[Item]) -> Result<Types, AllocError>
    ensures { IfOk result (λ types. types ≡ with_items layout_types (declared_items items.now)) }
{
    if items.len() > MOST {
        return Err(AllocError);
    }
    let mut types = layout_types(alloc)?;
    for item in items {
        let copy = derives_copy(item.attributes.as_slice());
        declare_item(&mut types, copy, &item.kind)?;
    }
    Ok(types)
}

/// The types of a file before its structs have fields: `Layout`, and then the structs in the order of the text, by the
/// numbers from 1. A file has at most 2^30 items.
#[tactic(auto, using(crate::proofs::Below::declares))]
pub fn declared_types(alloc: Global, items: &[Item]) -> Result<Types, AllocError>
    ensures types { IfOk result (λ types. types ≡ with_items layout_types (declared_items items.now)) }
    ensures declared { IfOk result (λ types. AreDeclared types (file_names items.now)) }
{
    let types = declare_all(alloc, items)?;
    Ok(types)
}
