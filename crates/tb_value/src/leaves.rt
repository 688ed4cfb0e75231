//! The leaves of a value, one by one.
ghost use Rattle.std.specs.Prelude.{◌≡◌, ◌≤◌, ◌++◌, ◌-◌, ◌&&◌, length, map, OnOk, IfOk, Bool, true};
ghost use Rattle.std.specs.List.{list_all};
ghost use Rattle.tb_bytes.specs.Bytes.{is_init};
ghost use Rattle.tb_types.specs.Table.{IsType};
ghost use Rattle.tb_types.specs.Extent.{extent_of, fits};
ghost use Rattle.tb_layout.specs.Leaves.{leaves_of};
ghost use Rattle.tb_value.specs.Kinds.{kind_of, width};
ghost use Rattle.tb_value.specs.Scalars.{is_valid, with_prov, cleaned};
ghost use Rattle.tb_value.specs.Copies.{leaf_end, leaf_bytes, uninit_in, invalid_in, copied_leaf, padding, copied};
ghost use Rattle.tb_value.specs.Spread.{AreSpread};
ghost use Rattle.tb_value.specs.Provs.{all_pass};
ghost use Rattle.tb_perm.specs.declared.tag.Prov.{Prov};

use crate::decoding::{first_uninit, is_valid};
use crate::kind::ScalarKind;
use crate::prov::{common_prov, with_prov};
use std::alloc::{AllocError, Global};
use tb_bytes::ByteVal;
use tb_layout::{Leaf, leaves};
use tb_perm::Prov;
use tb_types::{Ty, Types};

/// The leaves of a type.
pub fn leaves_in(alloc: Global, types: &Types, ty: Ty) -> Result<Vec<Leaf>, AllocError>
    requires ty { IsType types.now ty }
    requires layout { fits types.now ty ≡ true }
    ensures leaves { IfOk result (λ list. list.items ≡ leaves_of true types.now ty) }
    ensures spread { IfOk result (λ list. AreSpread types.now 0 (extent_of types.now ty).size list.items) }
{
    types.law_types();
    leaves(alloc, types, ty)
}

/// The bytes of a leaf.
fn bytes_of<'a>(types: &Types, bytes: &'a [ByteVal], leaf: Leaf) -> &'a [ByteVal]
    requires small { length bytes.now ≤ 1048576 }
    requires end { leaf_end types.now leaf ≤ length bytes.now }
    ensures bytes { result.now ≡ leaf_bytes types.now bytes.now leaf }
    ensures width { length result.now ≡ width (kind_of types.now leaf.shape) }
{
    let lo = leaf.at as usize;
    let hi = lo + ScalarKind::of_leaf(types, leaf.shape).width() as usize;
    &bytes[lo..hi]
}

/// The first byte of the leaves that is uninitialised.
pub fn uninit_in(types: &Types, bytes: &[ByteVal], leaves: &[Leaf]) -> Option<u32>
    requires small { length bytes.now ≤ 1048576 }
    requires spread { AreSpread types.now 0 (length bytes.now) leaves.now }
    ensures { result ≡ uninit_in types.now bytes.now leaves.now }
{
    for leaf in leaves {
        if let Some(place) = first_uninit(bytes_of(types, bytes, *leaf)) {
            return Some(leaf.at + place as u32);
        }
    }
    None
}

/// Where the first leaf begins whose bytes are not valid.
pub fn invalid_in(types: &Types, bytes: &[ByteVal], leaves: &[Leaf]) -> Option<u32>
    requires small { length bytes.now ≤ 1048576 }
    requires spread { AreSpread types.now 0 (length bytes.now) leaves.now }
    ensures { result ≡ invalid_in types.now bytes.now leaves.now }
{
    for leaf in leaves {
        let kind = ScalarKind::of_leaf(types, leaf.shape);
        if !is_valid(kind, bytes_of(types, bytes, *leaf)) {
            return Some(leaf.at);
        }
    }
    None
}

/// Puts bytes with another provenance.
fn put_bytes(
    copy: &mut Vec<ByteVal>,
    bytes: &[ByteVal],
    prov: Option<Prov>,
) -> Result<(), AllocError>
    ensures { OnOk result (copy.new.items ≡ copy.old.items ++ map (with_prov prov) bytes.now) }
{
    for byte in bytes {
        match copy.push(with_prov(prov, *byte)) {
            Ok(()) => {}
            Err(_) => return Err(AllocError),
        }
    }
    Ok(())
}

/// Puts the bytes of a value with the provenance that the value keeps.
fn put_value(copy: &mut Vec<ByteVal>, kind: ScalarKind, bytes: &[ByteVal]) -> Result<(), AllocError>
    requires { length bytes.now ≡ width kind }
    ensures { OnOk result (copy.new.items ≡ copy.old.items ++ cleaned kind bytes.now) }
{
    match kind {
        ScalarKind::Int(_) | ScalarKind::Bool | ScalarKind::Char => put_bytes(copy, bytes, None),
        ScalarKind::Thin(_) => put_bytes(copy, bytes, common_prov(bytes)),
        ScalarKind::Wide(_) => {
            put_bytes(copy, &bytes[..8], common_prov(&bytes[..8]))?;
            put_bytes(copy, &bytes[8..], None)
        }
    }
}

/// Whether all bytes are initialised.
fn are_init(bytes: &[ByteVal]) -> bool
    ensures { result ≡ list_all (λ byte. is_init byte) bytes.now }
{
    bytes.iter().all(|byte| byte.is_init())
}

/// Whether bytes are a value.
fn is_value(kind: ScalarKind, bytes: &[ByteVal]) -> bool
    requires { length bytes.now ≡ width kind }
    ensures { result ≡ list_all (λ byte. is_init byte) bytes.now && is_valid kind bytes.now }
{
    are_init(bytes) && is_valid(kind, bytes)
}

/// Puts the copy of a leaf.
fn put_copy(copy: &mut Vec<ByteVal>, kind: ScalarKind, bytes: &[ByteVal]) -> Result<(), AllocError>
    requires { length bytes.now ≡ width kind }
    ensures { OnOk result (copy.new.items ≡ copy.old.items ++ copied_leaf kind bytes.now) }
{
    if is_value(kind, bytes) {
        return put_value(copy, kind, bytes);
    }
    copy.extend_from_slice(bytes)
}

/// Puts padding, of so many bytes.
#[tactic(auto, using(crate::proofs::Steps::pad_step))]
fn put_padding(copy: &mut Vec<ByteVal>, count: usize) -> Result<(), AllocError>
    ensures { OnOk result (copy.new.items ≡ copy.old.items ++ padding count) }
{
    for _ in 0..count {
        match copy.push(ByteVal::Uninit) {
            Ok(()) => {}
            Err(_) => return Err(AllocError),
        }
    }
    Ok(())
}

/// Puts the copy of a leaf, and the padding from `at` on before it. Answers where the leaf ends.
fn put_leaf(
    types: &Types,
    copy: &mut Vec<ByteVal>,
    bytes: &[ByteVal],
    at: usize,
    leaf: Leaf,
) -> Result<usize, AllocError>
    requires small { length bytes.now ≤ 1048576 }
    requires begin { at ≤ leaf.at }
    requires end { leaf_end types.now leaf ≤ length bytes.now }
    ensures copy { OnOk result (copy.new.items ≡ copy.old.items ++ (padding (leaf.at - at) ++ copied_leaf (kind_of types.now leaf.shape) (leaf_bytes types.now bytes.now leaf))) }
    ensures end { IfOk result (λ to. to ≡ leaf_end types.now leaf) }
{
    let kind = ScalarKind::of_leaf(types, leaf.shape);
    put_padding(copy, leaf.at as usize - at)?;
    put_copy(copy, kind, bytes_of(types, bytes, leaf))?;
    Ok((leaf.at + kind.width()) as usize)
}

/// The copies of leaves, with the padding around them.
fn copy_parts(
    alloc: Global,
    types: &Types,
    bytes: &[ByteVal],
    leaves: &[Leaf],
) -> Result<Vec<ByteVal>, AllocError>
    requires small { length bytes.now ≤ 1048576 }
    requires spread { AreSpread types.now 0 (length bytes.now) leaves.now }
    ensures { IfOk result (λ copy. copy.items ≡ copied types.now bytes.now 0 leaves.now) }
{
    let mut copy = Vec::with_capacity(alloc, bytes.len())?;
    let mut at = 0;
    for leaf in leaves {
        at = put_leaf(types, &mut copy, bytes, at, *leaf)?;
    }
    put_padding(&mut copy, bytes.len() - at)?;
    Ok(copy)
}

/// The copies of leaves: there are as many bytes as before, and no other provenance than they had.
pub fn copy_leaves(
    alloc: Global,
    types: &Types,
    bytes: &[ByteVal],
    leaves: &[Leaf],
) -> Result<Vec<ByteVal>, AllocError>
    requires small { length bytes.now ≤ 1048576 }
    requires spread { AreSpread types.now 0 (length bytes.now) leaves.now }
    ensures value { IfOk result (λ copy. copy.items ≡ copied types.now bytes.now 0 leaves.now) }
    ensures size { IfOk result (λ copy. length copy.items ≡ length bytes.now) }
    ensures provs { IfOk result (λ copy. (test : Prov → Bool) → all_pass test bytes.now ≡ true → all_pass test copy.items ≡ true) }
{
    copy_parts(alloc, types, bytes, leaves)
}
