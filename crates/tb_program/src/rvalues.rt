//! The text of what is computed.

ghost use Rattle.std.specs.Prelude.{◌≡◌, ◌++◌, OnOk};
ghost use Rattle.tb_program.specs.Rvalues.{borrow_text, unary_text, binary_text, one_text, two_text, counted_text, rvalue_text};

use crate::constants::{put_operand, put_operands, put_place};
use crate::operand::{BinOp, Operand, RefKind, Rvalue, UnOp};
use crate::pieces::{put, put_number};
use crate::types::put_type;
use std::alloc::{AllocError, Global};
use tb_types::Types;

fn borrow_word(kind: RefKind) -> &'static [u8]
    ensures { result.now ≡ borrow_text kind }
{
    match kind {
        RefKind::Shared => b"ref shared ",
        RefKind::Mut => b"ref mut ",
        RefKind::RawConst => b"ref rawconst ",
        RefKind::RawMut => b"ref rawmut ",
    }
}

fn unary_word(operator: UnOp) -> &'static [u8]
    ensures { result.now ≡ unary_text operator }
{
    match operator {
        UnOp::Neg => b"neg",
        UnOp::Not => b"not",
    }
}

fn binary_word(operator: BinOp) -> &'static [u8]
    ensures { result.now ≡ binary_text operator }
{
    match operator {
        BinOp::Add => b"add",
        BinOp::Sub => b"sub",
        BinOp::Mul => b"mul",
        BinOp::Div => b"div",
        BinOp::Rem => b"rem",
        BinOp::Shl => b"shl",
        BinOp::Shr => b"shr",
        BinOp::And => b"and",
        BinOp::Or => b"or",
        BinOp::Xor => b"xor",
        BinOp::Eq => b"eq",
        BinOp::Ne => b"ne",
        BinOp::Lt => b"lt",
        BinOp::Le => b"le",
        BinOp::Gt => b"gt",
        BinOp::Ge => b"ge",
    }
}

/// Puts a word and an operand behind a text.
pub fn put_one(
    alloc: Global,
    out: &mut Vec<u8>,
    word: &[u8],
    operand: Operand,
) -> Result<(), AllocError>
    ensures put { OnOk result (out.new.items ≡ out.old.items ++ one_text word.now operand) }
{
    put(out, word)?;
    put(out, b" ")?;
    put_operand(alloc, out, operand)
}

/// Puts a word and two operands behind a text.
pub fn put_two(
    alloc: Global,
    out: &mut Vec<u8>,
    word: &[u8],
    left: Operand,
    right: Operand,
) -> Result<(), AllocError>
    ensures put { OnOk result (out.new.items ≡ out.old.items ++ two_text word.now left right) }
{
    put_one(alloc, out, word, left)?;
    put(out, b" ")?;
    put_operand(alloc, out, right)
}

/// Puts a word, an operand and a number behind a text.
fn put_counted(
    alloc: Global,
    out: &mut Vec<u8>,
    word: &[u8],
    operand: Operand,
    count: u64,
) -> Result<(), AllocError>
    ensures { OnOk result (out.new.items ≡ out.old.items ++ counted_text word.now operand count) }
{
    put_one(alloc, out, word, operand)?;
    put(out, b" ")?;
    put_number(alloc, out, count)
}

/// Puts what is computed behind a text.
pub fn put_rvalue(
    alloc: Global,
    types: &Types,
    out: &mut Vec<u8>,
    rvalue: &Rvalue,
) -> Result<(), AllocError>
    ensures put { OnOk result (out.new.items ≡ out.old.items ++ rvalue_text types.now rvalue.now) }
{
    match rvalue {
        Rvalue::Ref(kind, place) => {
            put(out, borrow_word(*kind))?;
            put_place(alloc, out, place)
        }
        Rvalue::Use(operand) => put_one(alloc, out, b"use", *operand),
        Rvalue::Unary(operator, operand) => put_one(alloc, out, unary_word(*operator), *operand),
        Rvalue::Binary(operator, left, right) => {
            put_two(alloc, out, binary_word(*operator), *left, *right)
        }
        Rvalue::Cast(operand, ty) => {
            put_one(alloc, out, b"cast", *operand)?;
            put(out, b" ")?;
            put_type(alloc, types, out, *ty)
        }
        Rvalue::Make(ty, operands) => {
            put(out, b"make ")?;
            put_type(alloc, types, out, *ty)?;
            put_operands(alloc, out, operands.as_slice())
        }
        Rvalue::Repeat(operand, count) => put_counted(alloc, out, b"repeat", *operand, *count),
        Rvalue::Unsize(operand, count) => put_counted(alloc, out, b"unsize", *operand, *count),
        Rvalue::Len(operand) => put_one(alloc, out, b"len", *operand),
    }
}
