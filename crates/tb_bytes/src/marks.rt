//! What is kept of bytes besides their values: which are initialised, and their provenances.

ghost use Rattle.std.specs.Prelude.{◌≡◌, ◌≤◌, ◌<◌, ◌+◌, ◌-◌, ◌^◌, length, map, replicate, Some, slice_get, IsTrue, IfOk, OnOk, OnErr};
ghost use Rattle.std.specs.List.{slice_range, splice};
ghost use Rattle.tb_bytes.specs.Bytes.{is_init, prov_of, value_of, OnlyChanges};
ghost use Rattle.tb_bytes.specs.Parts.{byte_of, byte_list, IsClear, AreAlike};

use crate::byte_val::ByteVal;
use std::alloc::{AllocError, Global};
use tb_perm::Prov;
use tb_ranges::{Reader, Runs};

/// Marks the places of some bytes from `lo` on by their states and provenances. Bytes that are alike take
/// no lists of their own.
pub fn mark(
    alloc: Global,
    init: &mut Runs<bool>,
    provs: &mut Runs<Option<Prov>>,
    lo: u32,
    bytes: &[ByteVal],
) -> Result<(), AllocError>
    requires clear { IsClear init.old provs.old }
    requires within { lo + length bytes.now ≤ length init.old }
    ensures init { OnOk result (init.new ≡ splice init.old lo (lo + length bytes.now) (map is_init bytes.now)) }
    ensures provs { OnOk result (provs.new ≡ splice provs.old lo (lo + length bytes.now) (map prov_of bytes.now)) }
    ensures clear { IsClear init.new provs.new }
    ensures other_init { OnlyChanges lo (lo + length bytes.now) init.old init.new }
    ensures other_provs { OnlyChanges lo (lo + length bytes.now) provs.old provs.new }
{
    // No place lies beyond the size, so that each fits 32 bits.
    let _size = init.size();
    if !bytes.is_empty() {
        let first = bytes[0];
        if alike_end(bytes, 0, first) == bytes.len() {
            return mark_alike(init, provs, lo, lo + bytes.len() as u32, first);
        }
    }
    mark_each(alloc, init, provs, lo, bytes)
}

/// Marks the places of bytes of any kind. They lose their provenances first, and get new ones only once
/// it is known which are initialised.
fn mark_each(
    alloc: Global,
    init: &mut Runs<bool>,
    provs: &mut Runs<Option<Prov>>,
    lo: u32,
    bytes: &[ByteVal],
) -> Result<(), AllocError>
    requires clear { IsClear init.old provs.old }
    requires within { lo + length bytes.now ≤ length init.old }
    ensures init { OnOk result (init.new ≡ splice init.old lo (lo + length bytes.now) (map is_init bytes.now)) }
    ensures provs { OnOk result (provs.new ≡ splice provs.old lo (lo + length bytes.now) (map prov_of bytes.now)) }
    ensures clear { IsClear init.new provs.new }
    ensures other_init { OnlyChanges lo (lo + length bytes.now) init.old init.new }
    ensures other_provs { OnlyChanges lo (lo + length bytes.now) provs.old provs.new }
{
    // No place lies beyond the size, so that each fits 32 bits.
    let _size = init.size();
    let new_init = init_of(alloc, bytes)?;
    let new_provs = provs_of(alloc, bytes)?;
    set_prov(provs, lo, lo + bytes.len() as u32, None)?;
    init.overwrite(lo, new_init.runs())?;
    provs.overwrite(lo, new_provs.runs())?;
    Ok(())
}

/// Which of the bytes are initialised.
fn init_of(alloc: Global, bytes: &[ByteVal]) -> Result<Runs<bool>, AllocError>
    requires { length bytes.now < 2 ^ 32 }
    ensures { IfOk result (λ runs. runs ≡ map is_init bytes.now) }
{
    Runs::from_items(alloc, bytes, |byte| byte.is_init())
}

/// The provenances of the bytes.
fn provs_of(alloc: Global, bytes: &[ByteVal]) -> Result<Runs<Option<Prov>>, AllocError>
    requires { length bytes.now < 2 ^ 32 }
    ensures { IfOk result (λ runs. runs ≡ map prov_of bytes.now) }
{
    Runs::from_items(alloc, bytes, |byte| byte.prov())
}

/// The bytes at the places from `lo` to before `hi`, of which the first is initialised as `init` says first
/// and has the first provenance of `provs`, and so on.
pub fn read_bytes(
    alloc: Global,
    values: &[u8],
    lo: u32,
    hi: u32,
    mut init: Reader<'_, bool>,
    mut provs: Reader<'_, Option<Prov>>,
) -> Result<Vec<ByteVal>, AllocError>
    requires order { lo ≤ hi }
    requires within { hi ≤ length values.now }
    requires init { hi ≤ lo + length init }
    requires provs { hi ≤ lo + length provs }
    ensures { IfOk result (λ bytes. bytes.items ≡ byte_list (slice_range values.now lo hi) init.entry provs.entry) }
{
    let part = &values[lo as usize..hi as usize];
    let Ok(mut bytes) = Vec::with_capacity(alloc, part.len()) else {
        return Err(AllocError);
    };
    for value in part {
        match bytes.push(byte_of(*value, init.next(), provs.next())) {
            Ok(()) => {}
            Err(_) => return Err(AllocError),
        }
    }
    Ok(bytes)
}

/// The byte of a value, whether it counts, and a provenance.
fn byte_of(value: u8, init: bool, prov: Option<Prov>) -> ByteVal
    ensures { result ≡ byte_of value init prov }
{
    if init {
        ByteVal::Init(value, prov)
    } else {
        ByteVal::Uninit
    }
}

/// How far the bytes from a place on have the state and the provenance of the first.
fn alike_end(bytes: &[ByteVal], from: usize, first: ByteVal) -> usize
    requires { slice_get bytes.now from ≡ Some first }
    ensures more { from < result }
    ensures bound { result ≤ length bytes.now }
    ensures alike { AreAlike first (slice_range bytes.now from result) }
{
    let mut to = from + 1;
    while to < bytes.len() {
        if !is_alike(first, bytes[to]) {
            return to;
        }
        to += 1;
    }
    to
}

/// Whether two bytes have the same state and the same provenance.
fn is_alike(a: ByteVal, b: ByteVal) -> bool
    ensures init { IsTrue result → is_init b ≡ is_init a }
    ensures prov { IsTrue result → prov_of b ≡ prov_of a }
{
    match (a, b) {
        (ByteVal::Uninit, ByteVal::Uninit) => true,
        (ByteVal::Init(_, p), ByteVal::Init(_, q)) => p == q,
        _ => false,
    }
}

/// Marks places as one byte is. An uninitialised place loses its provenance first, and a place gets
/// one only once it is initialised.
fn mark_alike(
    init: &mut Runs<bool>,
    provs: &mut Runs<Option<Prov>>,
    lo: u32,
    hi: u32,
    byte: ByteVal,
) -> Result<(), AllocError>
    requires clear { IsClear init.old provs.old }
    requires order { lo ≤ hi }
    requires within { hi ≤ length init.old }
    ensures init { OnOk result (init.new ≡ splice init.old lo hi (replicate (hi - lo) (is_init byte))) }
    ensures provs { OnOk result (provs.new ≡ splice provs.old lo hi (replicate (hi - lo) (prov_of byte))) }
    ensures clear { IsClear init.new provs.new }
    ensures other_init { OnlyChanges lo hi init.old init.new }
    ensures other_provs { OnlyChanges lo hi provs.old provs.new }
{
    if byte.is_init() {
        set_init(init, lo, hi, true)?;
        set_prov(provs, lo, hi, byte.prov())?;
    } else {
        set_prov(provs, lo, hi, None)?;
        set_init(init, lo, hi, false)?;
    }
    Ok(())
}

fn set_init(init: &mut Runs<bool>, lo: u32, hi: u32, value: bool) -> Result<(), AllocError>
    requires order { lo ≤ hi }
    requires within { hi ≤ length init.old }
    ensures ok { OnOk result (init.new ≡ splice init.old lo hi (replicate (hi - lo) value)) }
    ensures err { OnErr result (init.new ≡ init.old) }
{
    match init.set(lo, hi, value) {
        Ok(()) => Ok(()),
        Err(_) => Err(AllocError),
    }
}

fn set_prov(
    provs: &mut Runs<Option<Prov>>,
    lo: u32,
    hi: u32,
    value: Option<Prov>,
) -> Result<(), AllocError>
    requires order { lo ≤ hi }
    requires within { hi ≤ length provs.old }
    ensures ok { OnOk result (provs.new ≡ splice provs.old lo hi (replicate (hi - lo) value)) }
    ensures err { OnErr result (provs.new ≡ provs.old) }
{
    match provs.set(lo, hi, value) {
        Ok(()) => Ok(()),
        Err(_) => Err(AllocError),
    }
}

/// Writes the values of bytes from `lo` on, 0 for those that have none.
pub fn write_values(values: &mut [u8], lo: usize, bytes: &[ByteVal])
    requires { lo + length bytes.now ≤ length values.old }
    ensures { values.new ≡ splice values.old lo (lo + length bytes.now) (map value_of bytes.now) }
{
    for (at, byte) in bytes.iter().enumerate() {
        values[lo + at] = byte.value();
    }
}
