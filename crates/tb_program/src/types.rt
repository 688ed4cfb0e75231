//! The text of types.

ghost use Rattle.std.specs.Prelude.{◌≡◌, ◌++◌, OnOk};
ghost use Rattle.tb_program.specs.Types.{kind_text, ref_text, raw_text, struct_text, shape_text, type_at, rest_text, parts_text, around_text, type_text};

use crate::pieces::{put, put_number};
use std::alloc::{AllocError, Global};
use tb_types::{IntKind, Ty, TyShape, Types};

/// The word of an integer type.
pub fn kind_word(kind: IntKind) -> &'static [u8]
    ensures word { result.now ≡ kind_text kind }
{
    match kind {
        IntKind::I8 => b"i8",
        IntKind::I16 => b"i16",
        IntKind::I32 => b"i32",
        IntKind::I64 => b"i64",
        IntKind::Isize => b"isize",
        IntKind::U8 => b"u8",
        IntKind::U16 => b"u16",
        IntKind::U32 => b"u32",
        IntKind::U64 => b"u64",
        IntKind::Usize => b"usize",
    }
}

fn ref_word(mutable: bool) -> &'static [u8]
    ensures { result.now ≡ ref_text mutable }
{
    if mutable { b"&mut " } else { b"&" }
}

fn raw_word(mutable: bool) -> &'static [u8]
    ensures { result.now ≡ raw_text mutable }
{
    if mutable { b"*mut " } else { b"*const " }
}

/// Puts the name of a struct behind a text.
fn put_struct(types: &Types, out: &mut Vec<u8>, item: u32) -> Result<(), AllocError>
    ensures { OnOk result (out.new.items ≡ out.old.items ++ struct_text types.now item) }
{
    if types.defined(item) {
        put(out, types.name(item).as_bytes())
    } else {
        Ok(())
    }
}

/// Puts a type behind a text, with what is written before and after it.
#[cycle(types)]
fn put_around(
    alloc: Global,
    types: &Types,
    out: &mut Vec<u8>,
    before: &[u8],
    ty: Ty,
    after: &[u8],
    depth: u32,
) -> Result<(), AllocError>
    ensures { OnOk result (out.new.items ≡ out.old.items ++ around_text before.now (type_at types.now depth ty) after.now) }
{
    put(out, before)?;
    put_at(alloc, types, out, ty, depth)?;
    put(out, after)
}

#[cycle(types)]
fn put_rest(
    alloc: Global,
    types: &Types,
    out: &mut Vec<u8>,
    parts: &[Ty],
    depth: u32,
) -> Result<(), AllocError>
    ensures { OnOk result (out.new.items ≡ out.old.items ++ rest_text (type_at types.now depth) parts.now) }
{
    for part in parts {
        put(out, b", ")?;
        put_at(alloc, types, out, *part, depth)?;
    }
    Ok(())
}

#[cycle(types)]
fn put_parts(
    alloc: Global,
    types: &Types,
    out: &mut Vec<u8>,
    parts: &[Ty],
    depth: u32,
) -> Result<(), AllocError>
    ensures { OnOk result (out.new.items ≡ out.old.items ++ parts_text (type_at types.now depth) parts.now) }
{
    match parts {
        [] => Ok(()),
        [first, rest @ ..] => {
            put_at(alloc, types, out, *first, depth)?;
            put_rest(alloc, types, out, rest, depth)
        }
    }
}

#[cycle(types)]
fn put_shape(
    alloc: Global,
    types: &Types,
    out: &mut Vec<u8>,
    shape: &TyShape,
    depth: u32,
) -> Result<(), AllocError>
    ensures { OnOk result (out.new.items ≡ out.old.items ++ shape_text types.now (type_at types.now depth) shape.now) }
{
    match shape {
        TyShape::Int(kind) => put(out, kind_word(*kind)),
        TyShape::Bool => put(out, b"bool"),
        TyShape::Char => put(out, b"char"),
        TyShape::Unit => put(out, b"()"),
        TyShape::Struct(item) => put_struct(types, out, *item),
        TyShape::Ref(mutable, to) => {
            put_around(alloc, types, out, ref_word(*mutable), *to, b"", depth)
        }
        TyShape::Raw(mutable, to) => {
            put_around(alloc, types, out, raw_word(*mutable), *to, b"", depth)
        }
        TyShape::Boxed(part) => put_around(alloc, types, out, b"Box<", *part, b">", depth),
        TyShape::Cell(part) => put_around(alloc, types, out, b"Cell<", *part, b">", depth),
        TyShape::UnsafeCell(part) => {
            put_around(alloc, types, out, b"UnsafeCell<", *part, b">", depth)
        }
        TyShape::Slice(part) => put_around(alloc, types, out, b"[", *part, b"]", depth),
        TyShape::Array(part, length) => {
            put_around(alloc, types, out, b"[", *part, b"; ", depth)?;
            put_number(alloc, out, *length)?;
            put(out, b"]")
        }
        TyShape::Tuple(parts) => {
            put(out, b"(")?;
            put_parts(alloc, types, out, parts.as_slice(), depth)?;
            put(out, b")")
        }
    }
}

/// Puts a type behind a text, going down so many times.
#[cycle(types)]
fn put_at(
    alloc: Global,
    types: &Types,
    out: &mut Vec<u8>,
    ty: Ty,
    depth: u32,
) -> Result<(), AllocError>
    ensures { OnOk result (out.new.items ≡ out.old.items ++ type_at types.now depth ty) }
{
    if depth == 0 || ty.0 >= types.count() {
        return put(out, b"()");
    }
    put_shape(alloc, types, out, types.shape(ty), depth - 1)
}

/// Puts a type behind a text, as it is written in a source. What is no type of the table counts as `()`.
pub fn put_type(alloc: Global, types: &Types, out: &mut Vec<u8>, ty: Ty) -> Result<(), AllocError>
    ensures put { OnOk result (out.new.items ≡ out.old.items ++ type_text types.now ty) }
{
    if ty.0 >= types.count() {
        return put(out, b"()");
    }
    put_at(alloc, types, out, ty, ty.0 + 1)
}
