//! Literals.

ghost use Rattle.std.specs.Prelude.{◌≡◌};
ghost use Rattle.tb_rules.specs.Answers.{Gives};
ghost use Rattle.tb_operators.specs.Literals.{greatest, is_signed, is_in_range, signed, int_or_i32, int_expected, literal_kind, literal_of, integer, character, byte, boolean, unit};

use tb_perm::{Code, Span};
use tb_rules::{Scalars, TypeError, TypeKind, Want, expected, kind};
use tb_thir::{Constant, Head, Node};
use tb_types::{IntKind, Ty, Types};

/// The greatest integer of a type.
fn greatest(kind: IntKind) -> u64
    ensures { result ≡ greatest kind }
{
    match kind {
        IntKind::I8 => 127,
        IntKind::I16 => 32_767,
        IntKind::I32 => 2_147_483_647,
        IntKind::I64 | IntKind::Isize => 9_223_372_036_854_775_807,
        IntKind::U8 => 255,
        IntKind::U16 => 65_535,
        IntKind::U32 => 4_294_967_295,
        IntKind::U64 | IntKind::Usize => 18_446_744_073_709_551_615,
    }
}

/// Whether an integer type has negative numbers.
pub fn is_signed(kind: IntKind) -> bool
    ensures { result ≡ is_signed kind }
{
    match kind {
        IntKind::I8 | IntKind::I16 | IntKind::I32 | IntKind::I64 | IntKind::Isize => true,
        _ => false,
    }
}

/// Whether the integer, with or without `-` before it, is one of the type.
fn is_in_range(kind: IntKind, negative: bool, value: u64) -> bool
    ensures { result ≡ is_in_range kind negative value }
{
    if !negative {
        value <= greatest(kind)
    } else if is_signed(kind) {
        value <= greatest(kind) + 1
    } else {
        value == 0
    }
}

fn signed(negative: bool, value: u64) -> i128
    ensures { result ≡ signed negative value }
{
    if negative {
        0 - (value as i128)
    } else {
        value as i128
    }
}

fn int_or_i32(kind: TypeKind) -> IntKind
    ensures { result ≡ int_or_i32 kind }
{
    match kind {
        TypeKind::Int(kind) => kind,
        _ => IntKind::I32,
    }
}

fn int_expected(types: &Types, ty: Option<Ty>) -> IntKind
    ensures { result ≡ int_expected types.now ty }
{
    match ty {
        Some(ty) => int_or_i32(kind(types, ty)),
        None => IntKind::I32,
    }
}

/// The type of an integer literal: its suffix, or else the integer type that is expected, or else `i32`.
fn literal_kind(types: &Types, suffix: Option<IntKind>, want: Want) -> IntKind
    ensures { result ≡ literal_kind types.now suffix want }
{
    match suffix {
        Some(kind) => kind,
        None => int_expected(types, expected(want)),
    }
}

/// An integer literal, with the `-` before it; refused with `LiteralOutOfRange` where its type cannot hold it.
pub fn integer(
    types: &Types,
    scalars: &Scalars,
    want: Want,
    negative: bool,
    value: u64,
    suffix: Option<IntKind>,
    span: Span,
) -> Result<Node, TypeError>
    ensures integer { Gives result (λ node. node) (integer types.now scalars.now want negative value suffix span) }
{
    let kind = literal_kind(types, suffix, want);
    if is_in_range(kind, negative, value) {
        let head = Head {
            ty: scalars.integer(kind),
            span,
        };
        let value = Constant::Int(signed(negative, value), kind);
        Ok(Node::Literal { head, value })
    } else {
        Err(TypeError::Refused(Code::LiteralOutOfRange, span))
    }
}

/// A character literal.
pub fn character(scalars: &Scalars, value: char, span: Span) -> Node
    ensures character { result ≡ character scalars.now value span }
{
    Node::Literal {
        head: Head {
            ty: scalars.character,
            span,
        },
        value: Constant::Char(value),
    }
}

/// A byte literal, which is a `u8`.
pub fn byte(scalars: &Scalars, value: u8, span: Span) -> Node
    ensures byte { result ≡ byte scalars.now value span }
{
    Node::Literal {
        head: Head {
            ty: scalars.u8,
            span,
        },
        value: Constant::Int(value as i128, IntKind::U8),
    }
}

/// `true` or `false`.
pub fn boolean(scalars: &Scalars, value: bool, span: Span) -> Node
    ensures boolean { result ≡ boolean scalars.now value span }
{
    Node::Literal {
        head: Head {
            ty: scalars.boolean,
            span,
        },
        value: Constant::Bool(value),
    }
}

/// `()`
pub fn unit(scalars: &Scalars, span: Span) -> Node
    ensures unit { result ≡ unit scalars.now span }
{
    Node::Literal {
        head: Head {
            ty: scalars.unit,
            span,
        },
        value: Constant::Unit,
    }
}
