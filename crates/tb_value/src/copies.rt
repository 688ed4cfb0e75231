ghost use Rattle.std.specs.Prelude.{◌≡◌, ◌≤◌, ◌⊎◌, Bool, true, length, IfOk, IfErr, Ok, Err};
ghost use Rattle.tb_types.specs.Table.{IsType};
ghost use Rattle.tb_types.specs.Extent.{extent_of, fits};
ghost use Rattle.tb_value.specs.Copies.{copy_of, fault_in, typed_copy};
ghost use Rattle.tb_value.specs.Spread.{AreSpread};
ghost use Rattle.tb_value.specs.Provs.{all_pass};
ghost use Rattle.tb_perm.specs.declared.tag.Prov.{Prov};

use crate::fault::ValueFault;
use crate::leaves::{copy_leaves, invalid_in, leaves_in, uninit_in};
use std::alloc::{AllocError, Global};
use tb_bytes::ByteVal;
use tb_layout::Leaf;
use tb_types::{Ty, Types};

/// Why bytes are no value, by their leaves.
fn fault_in(types: &Types, bytes: &[ByteVal], leaves: &[Leaf]) -> Option<ValueFault>
    requires small { length bytes.now ≤ 1048576 }
    requires spread { AreSpread types.now 0 (length bytes.now) leaves.now }
    ensures { result ≡ fault_in types.now bytes.now leaves.now }
{
    if let Some(place) = uninit_in(types, bytes, leaves) {
        return Some(ValueFault::Uninit(place));
    }
    if let Some(place) = invalid_in(types, bytes, leaves) {
        return Some(ValueFault::Invalid(place));
    }
    None
}

/// The typed copy of the bytes of a value, or why they are no value: the first byte that is uninitialised, over all
/// scalars, references, raw pointers and boxes of the type, or else the first of these that is not valid.
///
/// The padding of the copy is uninitialised. A pointer keeps its provenance where all eight bytes of its address carry
/// it, and no other byte keeps one. There are as many bytes as the type has.
pub fn copy(
    alloc: Global,
    types: &Types,
    ty: Ty,
    bytes: &[ByteVal],
) -> Result<Vec<ByteVal>, ValueFault>
    requires ty { IsType types.now ty }
    requires layout { fits types.now ty ≡ true }
    requires size { length bytes.now ≡ (extent_of types.now ty).size }
    ensures ok { IfOk result (λ copy. copy_of types.now ty bytes.now ≡ Ok copy.items) }
    ensures size { IfOk result (λ copy. length copy.items ≡ length bytes.now) }
    ensures provs { IfOk result (λ copy. (test : Prov → Bool) → all_pass test bytes.now ≡ true → all_pass test copy.items ≡ true) }
    ensures err { IfErr result (λ fault. (fault ≡ ValueFault.Memory) ⊎ (copy_of types.now ty bytes.now ≡ Err fault)) }
{
    let _size = types.size_align(ty);
    let Ok(leaves) = leaves_in(alloc, types, ty) else {
        return Err(ValueFault::Memory);
    };
    if let Some(fault) = fault_in(types, bytes, &leaves) {
        return Err(fault);
    }
    match copy_leaves(alloc, types, bytes, &leaves) {
        Ok(copy) => Ok(copy),
        Err(_) => Err(ValueFault::Memory),
    }
}

/// The bytes that a store writes: the typed copy, in which a scalar, reference, raw pointer or box whose bytes are no
/// value stands as it is given.
pub fn stored(
    alloc: Global,
    types: &Types,
    ty: Ty,
    bytes: &[ByteVal],
) -> Result<Vec<ByteVal>, AllocError>
    requires ty { IsType types.now ty }
    requires layout { fits types.now ty ≡ true }
    requires size { length bytes.now ≡ (extent_of types.now ty).size }
    ensures value { IfOk result (λ copy. copy.items ≡ typed_copy types.now ty bytes.now) }
    ensures size { IfOk result (λ copy. length copy.items ≡ length bytes.now) }
    ensures provs { IfOk result (λ copy. (test : Prov → Bool) → all_pass test bytes.now ≡ true → all_pass test copy.items ≡ true) }
{
    let _size = types.size_align(ty);
    let leaves = leaves_in(alloc, types, ty)?;
    copy_leaves(alloc, types, bytes, &leaves)
}
