//! Numbers as bytes, the lowest first, and integers as numbers.
ghost use Rattle.std.specs.Prelude.{◌≡◌, ◌≤◌, ◌<◌, ◌+◌, ◌^◌, ◌++◌, length, OnOk, pos};
ghost use Rattle.tb_value.specs.Numbers.{number_of, number_bytes, values_in, half_of, int_of, number_in, IsInt};

use std::alloc::AllocError;
use tb_bytes::ByteVal;
use tb_perm::Prov;
use tb_types::IntKind;

/// The number that at most eight bytes stand for.
#[tactic(auto, using(crate::proofs::Bounds::one_more))]
pub fn number_of(bytes: &[ByteVal]) -> u64
    requires { length bytes.now ≤ 8 }
    ensures value { result ≡ number_of bytes.now }
    ensures small { result < 256 ^ length bytes.now }
{
    match bytes {
        [] => 0,
        [first, rest @ ..] => first.value() as u64 + 256 * number_of(rest),
    }
}

/// Puts the lowest bytes of a number, so many, each with this provenance.
#[tactic(auto, using(crate::proofs::Steps::byte_step))]
pub fn put_number(
    bytes: &mut Vec<ByteVal>,
    count: u32,
    number: u64,
    prov: Option<Prov>,
) -> Result<(), AllocError>
    ensures { OnOk result (bytes.new.items ≡ bytes.old.items ++ number_bytes count number prov) }
{
    let mut left = number;
    for _ in 0..count {
        match bytes.push(ByteVal::Init((left % 256) as u8, prov)) {
            Ok(()) => {}
            Err(_) => return Err(AllocError),
        }
        left /= 256;
    }
    Ok(())
}

/// How many values an integer type has.
fn values_in(kind: IntKind) -> i128
    ensures { result ≡ pos (values_in kind) }
{
    match kind {
        IntKind::I8 | IntKind::U8 => 256,
        IntKind::I16 | IntKind::U16 => 65_536,
        IntKind::I32 | IntKind::U32 => 4_294_967_296,
        IntKind::I64 | IntKind::Isize | IntKind::U64 | IntKind::Usize => {
            18_446_744_073_709_551_616
        }
    }
}

/// From which number on those of an integer type stand for negative integers, if it is signed.
fn half_of(kind: IntKind) -> i128
    ensures { result ≡ pos (half_of kind) }
{
    match kind {
        IntKind::I8 => 128,
        IntKind::I16 => 32_768,
        IntKind::I32 => 2_147_483_648,
        IntKind::I64 | IntKind::Isize => 9_223_372_036_854_775_808,
        IntKind::U8 => 256,
        IntKind::U16 => 65_536,
        IntKind::U32 => 4_294_967_296,
        IntKind::U64 | IntKind::Usize => 18_446_744_073_709_551_616,
    }
}

/// The integer that a number stands for, by two's complement.
pub fn int_of(kind: IntKind, number: u64) -> i128
    ensures { result ≡ int_of kind number }
{
    let number = number as i128;
    if half_of(kind) <= number {
        number - values_in(kind)
    } else {
        number
    }
}

/// The number of an integer of the type.
pub fn number_in(kind: IntKind, int: i128) -> u64
    requires { IsInt kind int }
    ensures { result ≡ number_in kind int }
{
    if int < 0 {
        (int + values_in(kind)) as u64
    } else {
        int as u64
    }
}
