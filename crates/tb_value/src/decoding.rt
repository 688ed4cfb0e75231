//! Bytes as values of scalar types.
ghost use Rattle.std.specs.Prelude.{◌≡◌, ◌≤◌, ◌<◌, IsTrue, IfSome, Some, length};
ghost use Rattle.tb_value.specs.declared.kind.ScalarKind.{ScalarKind};
ghost use Rattle.tb_value.specs.Kinds.{kind_at, width};
ghost use Rattle.tb_value.specs.Scalars.{is_character, is_address, pointer_in, is_valid, scalar_of, first_uninit, decoded};

use crate::fault::ValueFault;
use crate::kind::ScalarKind;
use crate::number::{int_of, number_of};
use crate::prov::common_prov;
use crate::scalar::Scalar;
use tb_alloc::Ptr;
use tb_bytes::ByteVal;
use tb_types::{Ty, Types};

/// Whether a number is a Unicode scalar value.
fn is_character(number: u64) -> bool
    ensures { result ≡ is_character number }
{
    number < 0xD800 || (0xE000 <= number && number <= 0x10_FFFF)
}

/// Whether a pointer may have the address.
fn is_address(null: bool, address: u64) -> bool
    ensures { result ≡ is_address null address }
{
    null || address != 0
}

/// Whether initialised bytes are a valid value.
pub fn is_valid(kind: ScalarKind, bytes: &[ByteVal]) -> bool
    requires { length bytes.now ≡ width kind }
    ensures { result ≡ is_valid kind bytes.now }
{
    match kind {
        ScalarKind::Int(_) => true,
        ScalarKind::Bool => number_of(bytes) < 2,
        ScalarKind::Char => is_character(number_of(bytes)),
        ScalarKind::Thin(null) => is_address(null, number_of(bytes)),
        ScalarKind::Wide(null) => is_address(null, number_of(&bytes[..8])),
    }
}

/// The pointer that eight bytes are.
fn pointer_in(bytes: &[ByteVal]) -> Ptr
    requires { length bytes.now ≤ 8 }
    ensures { result ≡ pointer_in bytes.now }
{
    Ptr {
        addr: number_of(bytes),
        prov: common_prov(bytes),
    }
}

/// The character of a number.
fn character(number: u64) -> char
    requires { IsTrue (is_character number) }
    ensures { result ≡ number }
{
    match char::from_u32(number as u32) {
        Some(character) => character,
        None => unreachable!(),
    }
}

/// The value that valid bytes are.
fn scalar_of(kind: ScalarKind, bytes: &[ByteVal]) -> Scalar
    requires width { length bytes.now ≡ width kind }
    requires valid { IsTrue (is_valid kind bytes.now) }
    ensures { result ≡ scalar_of kind bytes.now }
{
    match kind {
        ScalarKind::Int(kind) => Scalar::Int(int_of(kind, number_of(bytes))),
        ScalarKind::Bool => Scalar::Bool(number_of(bytes) != 0),
        ScalarKind::Char => Scalar::Char(character(number_of(bytes))),
        ScalarKind::Thin(_) => Scalar::Thin(pointer_in(bytes)),
        ScalarKind::Wide(_) => Scalar::Wide(pointer_in(&bytes[..8]), number_of(&bytes[8..])),
    }
}

/// The first byte that is uninitialised.
pub fn first_uninit(bytes: &[ByteVal]) -> Option<usize>
    ensures value { result ≡ first_uninit bytes.now }
    ensures within { IfSome result (λ place. place < length bytes.now) }
{
    bytes.iter().position(|byte| !byte.is_init())
}

/// The value of a kind that bytes are.
fn decode_as(kind: ScalarKind, bytes: &[ByteVal]) -> Result<Scalar, ValueFault>
    requires { length bytes.now ≡ width kind }
    ensures { result ≡ decoded kind bytes.now }
{
    let _width = kind.width();
    if let Some(place) = first_uninit(bytes) {
        return Err(ValueFault::Uninit(place as u32));
    }
    if !is_valid(kind, bytes) {
        return Err(ValueFault::Invalid(0));
    }
    Ok(scalar_of(kind, bytes))
}

/// The value of a scalar type that bytes are, or why they are none: the first byte that is uninitialised, or else
/// that the value is not valid. Memory is not answered.
///
/// The type is an integer type, `bool`, `char`, a reference, a raw pointer or a box, and there are as many bytes
/// as it has. Of a pointer the provenance is kept where all eight bytes carry it; nothing else has one.
pub fn decode(types: &Types, ty: Ty, bytes: &[ByteVal]) -> Result<Scalar, ValueFault>
    requires { (kind : ScalarKind) × (kind_at types.now ty ≡ Some kind) × (length bytes.now ≡ width kind) }
    ensures { (kind : ScalarKind) → kind_at types.now ty ≡ Some kind → result ≡ decoded kind bytes.now }
{
    match ScalarKind::of_type(types, ty) {
        Some(kind) => decode_as(kind, bytes),
        None => unreachable!(),
    }
}
