//! The text of lines.

ghost use Rattle.std.specs.Prelude.{◌≡◌, ◌++◌, OnOk};
ghost use Rattle.tb_program.specs.Lines.{builtin_word, has_type, about_text, builtin_text, given_text, print_word, print_text, locals_text, function_name, call_text, given_if, load_text, store_text, switch_text, simple_text, line_text};

use crate::constants::{put_operand, put_operands, put_place};
use crate::line::Line;
use crate::operand::{Operand, Place};
use crate::pieces::{put, put_numbered};
use crate::program::Func;
use crate::rvalues::{put_one, put_rvalue, put_two};
use crate::types::put_type;
use std::alloc::{AllocError, Global};
use tb_types::{Builtin, Ty, Types};

/// The name of a built-in call, without type arguments.
fn builtin_word(builtin: Builtin) -> &'static [u8]
    ensures { result.now ≡ builtin_word builtin }
{
    match builtin {
        Builtin::BoxNew => b"Box::new",
        Builtin::BoxIntoRaw => b"Box::into_raw",
        Builtin::BoxLeak => b"Box::leak",
        Builtin::BoxFromRaw => b"Box::from_raw",
        Builtin::CellNew => b"Cell::new",
        Builtin::UnsafeCellNew => b"UnsafeCell::new",
        Builtin::CellGet | Builtin::UnsafeCellGet => b"get",
        Builtin::CellSet => b"set",
        Builtin::CellAsPtr | Builtin::SliceAsPtr => b"as_ptr",
        Builtin::Null => b"null",
        Builtin::NullMut => b"null_mut",
        Builtin::FromRawParts => b"from_raw_parts",
        Builtin::FromRawPartsMut => b"from_raw_parts_mut",
        Builtin::SizeOf => b"size_of",
        Builtin::AlignOf => b"align_of",
        Builtin::Add => b"add",
        Builtin::Sub => b"sub",
        Builtin::Offset => b"offset",
        Builtin::Read => b"read",
        Builtin::Write => b"write",
        Builtin::Cast => b"cast",
        Builtin::IsNull => b"is_null",
        Builtin::Addr => b"addr",
        Builtin::SliceAsMutPtr => b"as_mut_ptr",
        Builtin::Getchar => b"getchar",
        Builtin::LayoutNew => b"Layout::new",
        Builtin::LayoutFromSizeAlignUnchecked => b"Layout::from_size_align_unchecked",
        Builtin::LayoutSize => b"size",
        Builtin::LayoutAlign => b"align",
        Builtin::Alloc => b"alloc",
        Builtin::Dealloc => b"dealloc",
    }
}

/// Whether the call has a type argument.
fn has_type(builtin: Builtin) -> bool
    ensures { result ≡ has_type builtin }
{
    match builtin {
        Builtin::Null
        | Builtin::NullMut
        | Builtin::SizeOf
        | Builtin::AlignOf
        | Builtin::Cast
        | Builtin::LayoutNew => true,
        _ => false,
    }
}

/// Puts the type argument of a call behind a text, where it has one.
fn put_about(
    alloc: Global,
    types: &Types,
    out: &mut Vec<u8>,
    builtin: Builtin,
    about: Ty,
) -> Result<(), AllocError>
    ensures { OnOk result (out.new.items ≡ out.old.items ++ about_text types.now builtin about) }
{
    if has_type(builtin) {
        put(out, b"::<")?;
        put_type(alloc, types, out, about)?;
        put(out, b">")
    } else {
        Ok(())
    }
}

/// Puts the temporary behind a text that a line gives a value.
fn put_given(alloc: Global, out: &mut Vec<u8>, local: u32) -> Result<(), AllocError>
    ensures { OnOk result (out.new.items ≡ out.old.items ++ given_text local) }
{
    put_numbered(alloc, out, b"_", local)?;
    put(out, b" = ")
}

fn put_given_if(alloc: Global, out: &mut Vec<u8>, local: Option<u32>) -> Result<(), AllocError>
    ensures { OnOk result (out.new.items ≡ out.old.items ++ given_if local) }
{
    match local {
        Some(local) => put_given(alloc, out, local),
        None => Ok(()),
    }
}

fn put_builtin(
    alloc: Global,
    types: &Types,
    out: &mut Vec<u8>,
    local: Option<u32>,
    builtin: Builtin,
    about: Ty,
    operands: &[Operand],
) -> Result<(), AllocError>
    ensures { OnOk result (out.new.items ≡ out.old.items ++ builtin_text types.now local builtin about operands.now) }
{
    put_given_if(alloc, out, local)?;
    put(out, builtin_word(builtin))?;
    put_about(alloc, types, out, builtin, about)?;
    put_operands(alloc, out, operands)
}

fn print_word(newline: bool) -> &'static [u8]
    ensures { result.now ≡ print_word newline }
{
    if newline { b"println \"" } else { b"print \"" }
}

fn put_print(
    alloc: Global,
    out: &mut Vec<u8>,
    newline: bool,
    text: &[u8],
    operands: &[Operand],
) -> Result<(), AllocError>
    ensures { OnOk result (out.new.items ≡ out.old.items ++ print_text newline text.now operands.now) }
{
    put(out, print_word(newline))?;
    put(out, text)?;
    put(out, b"\"")?;
    put_operands(alloc, out, operands)
}

/// Puts temporaries behind a text, each after a space.
fn put_locals(alloc: Global, out: &mut Vec<u8>, locals: &[u32]) -> Result<(), AllocError>
    ensures { OnOk result (out.new.items ≡ out.old.items ++ locals_text locals.now) }
{
    for local in locals {
        put_numbered(alloc, out, b" _", *local)?;
    }
    Ok(())
}

/// Puts the name of a function behind a text; of one that is not there it has none.
fn put_function(out: &mut Vec<u8>, funcs: &[Func], function: u32) -> Result<(), AllocError>
    ensures { OnOk result (out.new.items ≡ out.old.items ++ function_name funcs.now function) }
{
    match funcs.get(function as usize) {
        Some(func) => put(out, func.name.as_str().as_bytes()),
        None => Ok(()),
    }
}

fn put_call(
    alloc: Global,
    funcs: &[Func],
    out: &mut Vec<u8>,
    local: u32,
    function: u32,
    operands: &[Operand],
    next: u32,
) -> Result<(), AllocError>
    ensures { OnOk result (out.new.items ≡ out.old.items ++ call_text funcs.now local function operands.now next) }
{
    put_given(alloc, out, local)?;
    put(out, b"call ")?;
    put_function(out, funcs, function)?;
    put_operands(alloc, out, operands)?;
    put_numbered(alloc, out, b" -> b", next)
}

fn put_load(alloc: Global, out: &mut Vec<u8>, local: u32, place: &Place) -> Result<(), AllocError>
    ensures { OnOk result (out.new.items ≡ out.old.items ++ load_text local place.now) }
{
    put_given(alloc, out, local)?;
    put(out, b"load ")?;
    put_place(alloc, out, place)
}

fn put_store(
    alloc: Global,
    out: &mut Vec<u8>,
    place: &Place,
    operand: Operand,
) -> Result<(), AllocError>
    ensures { OnOk result (out.new.items ≡ out.old.items ++ store_text place.now operand) }
{
    put(out, b"store ")?;
    put_place(alloc, out, place)?;
    put(out, b" ")?;
    put_operand(alloc, out, operand)
}

fn put_switch(
    alloc: Global,
    out: &mut Vec<u8>,
    operand: Operand,
    on_true: u32,
    on_false: u32,
) -> Result<(), AllocError>
    ensures { OnOk result (out.new.items ≡ out.old.items ++ switch_text operand on_true on_false) }
{
    put_one(alloc, out, b"switch", operand)?;
    put_numbered(alloc, out, b" b", on_true)?;
    put_numbered(alloc, out, b" b", on_false)
}

/// Puts a line behind a text that only names locals and blocks.
fn put_simple(alloc: Global, out: &mut Vec<u8>, line: &Line) -> Result<(), AllocError>
    ensures { OnOk result (out.new.items ≡ out.old.items ++ simple_text line.now) }
{
    match line {
        Line::Live(local) => put_numbered(alloc, out, b"live _", *local),
        Line::Dead(local) => put_numbered(alloc, out, b"dead _", *local),
        Line::Free(local) => put_numbered(alloc, out, b"free _", *local),
        Line::Retag(local) => put_numbered(alloc, out, b"retag _", *local),
        Line::RetagEntry(local) => put_numbered(alloc, out, b"retag-entry _", *local),
        Line::Goto(block) => put_numbered(alloc, out, b"goto b", *block),
        Line::Return => put(out, b"return"),
        Line::Panic => put(out, b"panic"),
        _ => Ok(()),
    }
}

/// Puts a line behind a text, in a program of these types and functions.
pub fn put_line(
    alloc: Global,
    types: &Types,
    funcs: &[Func],
    out: &mut Vec<u8>,
    line: &Line,
) -> Result<(), AllocError>
    ensures put { OnOk result (out.new.items ≡ out.old.items ++ line_text types.now funcs.now line.now) }
{
    match line {
        Line::Load(local, place) => put_load(alloc, out, *local, place),
        Line::Store(place, operand) => put_store(alloc, out, place, *operand),
        Line::Set(local, rvalue) => {
            put_given(alloc, out, *local)?;
            put_rvalue(alloc, types, out, rvalue)
        }
        Line::Bound(index, length) => put_two(alloc, out, b"bound", *index, *length),
        Line::Assert(operand) => put_one(alloc, out, b"assert", *operand),
        Line::Builtin(local, builtin, about, operands) => put_builtin(
            alloc,
            types,
            out,
            *local,
            *builtin,
            *about,
            operands.as_slice(),
        ),
        Line::Print(newline, text, operands) => {
            put_print(alloc, out, *newline, text.as_slice(), operands.as_slice())
        }
        Line::Clear(locals) => {
            put(out, b"clear")?;
            put_locals(alloc, out, locals.as_slice())
        }
        Line::Switch(operand, on_true, on_false) => {
            put_switch(alloc, out, *operand, *on_true, *on_false)
        }
        Line::Call(local, function, operands, next) => put_call(
            alloc,
            funcs,
            out,
            *local,
            *function,
            operands.as_slice(),
            *next,
        ),
        _ => put_simple(alloc, out, line),
    }
}
