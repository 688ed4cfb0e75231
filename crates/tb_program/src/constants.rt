//! The text of constants, operands and places.

ghost use Rattle.std.specs.Prelude.{◌≡◌, [], ◌∷◌, ◌++◌, OnOk, IsTrue};
ghost use Rattle.tb_program.specs.Operands.{int_text, is_plain_char, code_text, bool_text, char_text, constant_text, operand_text, operands_text, base_text, part_text, path_text, place_text};

use crate::operand::{Base, Constant, Operand, Part, Place};
use crate::pieces::{put, put_number, put_numbered};
use crate::types::kind_word;
use std::alloc::{AllocError, Global};
use tb_types::IntKind;

/// Puts an integer and its type behind a text.
fn put_int(alloc: Global, out: &mut Vec<u8>, value: i128, kind: IntKind) -> Result<(), AllocError>
    ensures { OnOk result (out.new.items ≡ out.old.items ++ int_text value kind) }
{
    let shown = format!(in alloc; "{value}")?;
    put(out, shown.as_bytes())?;
    put(out, kind_word(kind))
}

/// Whether a character stands for itself between quotes.
fn is_plain_char(value: char) -> bool
    ensures { result ≡ is_plain_char value }
{
    let code = value as u32;
    code >= 32 && code <= 126 && code != 39 && code != 92
}

fn put_plain(out: &mut Vec<u8>, value: char) -> Result<(), AllocError>
    requires { IsTrue (is_plain_char value) }
    ensures { OnOk result (out.new.items ≡ out.old.items ++ value ∷ []) }
{
    out.push(value as u8)?;
    Ok(())
}

fn put_code(alloc: Global, out: &mut Vec<u8>, code: u32) -> Result<(), AllocError>
    ensures { OnOk result (out.new.items ≡ out.old.items ++ code_text code) }
{
    let shown = format!(in alloc; "{code:x}")?;
    put(out, b"\\u{")?;
    put(out, shown.as_bytes())?;
    put(out, b"}")
}

/// Puts a character behind a text, between quotes.
fn put_char(alloc: Global, out: &mut Vec<u8>, value: char) -> Result<(), AllocError>
    ensures { OnOk result (out.new.items ≡ out.old.items ++ char_text value) }
{
    put(out, b"'")?;
    if is_plain_char(value) {
        put_plain(out, value)?;
    } else {
        put_code(alloc, out, value as u32)?;
    }
    put(out, b"'")
}

fn bool_word(value: bool) -> &'static [u8]
    ensures { result.now ≡ bool_text value }
{
    if value { b"true" } else { b"false" }
}

fn put_constant(alloc: Global, out: &mut Vec<u8>, constant: Constant) -> Result<(), AllocError>
    ensures { OnOk result (out.new.items ≡ out.old.items ++ constant_text constant) }
{
    match constant {
        Constant::Int(value, kind) => put_int(alloc, out, value, kind),
        Constant::Bool(value) => put(out, bool_word(value)),
        Constant::Char(value) => put_char(alloc, out, value),
        Constant::Unit => put(out, b"()"),
    }
}

/// Puts an operand behind a text.
pub fn put_operand(alloc: Global, out: &mut Vec<u8>, operand: Operand) -> Result<(), AllocError>
    ensures put { OnOk result (out.new.items ≡ out.old.items ++ operand_text operand) }
{
    match operand {
        Operand::Temp(local) => put_numbered(alloc, out, b"_", local),
        Operand::Const(constant) => put_constant(alloc, out, constant),
    }
}

/// Puts operands behind a text, each after a space.
pub fn put_operands(
    alloc: Global,
    out: &mut Vec<u8>,
    operands: &[Operand],
) -> Result<(), AllocError>
    ensures put { OnOk result (out.new.items ≡ out.old.items ++ operands_text operands.now) }
{
    for operand in operands {
        put(out, b" ")?;
        put_operand(alloc, out, *operand)?;
    }
    Ok(())
}

fn put_base(alloc: Global, out: &mut Vec<u8>, base: Base) -> Result<(), AllocError>
    ensures { OnOk result (out.new.items ≡ out.old.items ++ base_text base) }
{
    match base {
        Base::Variable(local) => put_numbered(alloc, out, b"_", local),
        Base::Deref(local) => put_numbered(alloc, out, b"*_", local),
    }
}

fn put_part(alloc: Global, out: &mut Vec<u8>, part: Part) -> Result<(), AllocError>
    ensures { OnOk result (out.new.items ≡ out.old.items ++ part_text part) }
{
    match part {
        Part::Field(number) => put_numbered(alloc, out, b".", number),
        Part::Index(operand) => {
            put(out, b"[")?;
            put_operand(alloc, out, operand)?;
            put(out, b"]")
        }
    }
}

fn put_path(alloc: Global, out: &mut Vec<u8>, parts: &[Part]) -> Result<(), AllocError>
    ensures { OnOk result (out.new.items ≡ out.old.items ++ path_text parts.now) }
{
    for part in parts {
        put_part(alloc, out, *part)?;
    }
    Ok(())
}

/// Puts a place behind a text.
pub fn put_place(alloc: Global, out: &mut Vec<u8>, place: &Place) -> Result<(), AllocError>
    ensures put { OnOk result (out.new.items ≡ out.old.items ++ place_text place.now) }
{
    put_base(alloc, out, place.base)?;
    put_path(alloc, out, place.parts.as_slice())
}
