//! The walk over the leaves of a type, which copies, validity and retags share.
ghost use Rattle.std.specs.Prelude.{◌≡◌, ◌≤◌, ◌*◌, ◌+◌, ◌++◌, Bool, Some, true, false, map, IfOk, OnOk};
ghost use Rattle.std.specs.List.{AllByRecursion};
ghost use Rattle.tb_types.specs.Table.{IsType, named_in, shape_at};
ghost use Rattle.tb_types.specs.Folded.{node_in};
ghost use Rattle.tb_types.specs.Pieces.{side_by_side};
ghost use Rattle.tb_types.specs.Extent.{rounded, extent_in, extent_of, is_within, fits};
ghost use Rattle.tb_layout.specs.LaysOut.{AreRoomy};
ghost use Rattle.tb_layout.specs.Leaves.{moved, leaves_from, repeated_leaves, if_all, stands, leaf_if, leaves_in, leaves_of};

use crate::leaf::{Leaf, LeafShape};
use crate::marks::MOST_LEVELS;
use crate::offsets::round_up;
use std::alloc::{AllocError, Global};
use tb_types::{Ty, TyShape, Types};

/// Whether a walk over all leaves, or else over those at which a retag stands, gives such a leaf.
fn stands(all: bool, shape: LeafShape) -> bool
    ensures { result ≡ stands all shape }
{
    if all {
        return true;
    }
    match shape {
        LeafShape::Ref(_, _) | LeafShape::Boxed(_) => true,
        _ => false,
    }
}

/// Puts a leaf, if the walk gives it.
fn put_leaf(leaves: &mut Vec<Leaf>, at: u32, shape: LeafShape, all: bool) -> Result<(), AllocError>
    ensures { OnOk result (leaves.new.items ≡ leaves.old.items ++ moved at (leaf_if (stands all shape) shape)) }
{
    if !stands(all, shape) {
        return Ok(());
    }
    match leaves.push(Leaf { at, shape }) {
        Ok(()) => Ok(()),
        Err(_) => Err(AllocError),
    }
}

/// Puts the leaves of a type that begins at `at` and has at most `left` levels.
#[cycle(walking)]
fn put_leaves(
    types: &Types,
    leaves: &mut Vec<Leaf>,
    at: u32,
    ty: Ty,
    all: bool,
    left: u32,
) -> Result<(), AllocError>
    requires ty { IsType types.now ty }
    requires layout { fits types.now ty ≡ true }
    requires left { (extent_of types.now ty).levels ≤ left }
    requires room { at + (extent_of types.now ty).size ≤ 1048576 }
    ensures { OnOk result (leaves.new.items ≡ leaves.old.items ++ moved at (leaves_of all types.now ty)) }
{
    types.law_types();
    put_leaves_of_shape(types, leaves, at, ty, types.shape(ty), all, left)
}

/// Puts the leaves of a type of a shape.
#[cycle(walking)]
fn put_leaves_of_shape(
    types: &Types,
    leaves: &mut Vec<Leaf>,
    at: u32,
    ty: Ty,
    shape: &TyShape,
    all: bool,
    left: u32,
) -> Result<(), AllocError>
    requires shape { shape_at types.now ty ≡ Some shape.now }
    requires named { AllByRecursion (IsType types.now) (named_in shape.now) }
    requires parts { AllByRecursion (IsType types.now) (node_in types.now shape.now).parts }
    requires layout { is_within (extent_in (node_in types.now shape.now).tree (map (extent_of types.now) (node_in types.now shape.now).parts)) ≡ true }
    requires left { (extent_in (node_in types.now shape.now).tree (map (extent_of types.now) (node_in types.now shape.now).parts)).levels ≤ left }
    requires room { at + (extent_in (node_in types.now shape.now).tree (map (extent_of types.now) (node_in types.now shape.now).parts)).size ≤ 1048576 }
    ensures { OnOk result (leaves.new.items ≡ leaves.old.items ++ moved at (leaves_in all types.now shape.now (node_in types.now shape.now).parts (map (leaves_of all types.now) (node_in types.now shape.now).parts))) }
{
    match shape {
        TyShape::Int(kind) => put_leaf(leaves, at, LeafShape::Int(*kind), all),
        TyShape::Bool => put_leaf(leaves, at, LeafShape::Bool, all),
        TyShape::Char => put_leaf(leaves, at, LeafShape::Char, all),
        TyShape::Unit | TyShape::Slice(_) => Ok(()),
        TyShape::Tuple(_) | TyShape::Struct(_) => put_leaves_of_parts(
            types, leaves, at, ty, all, left,
        ),
        TyShape::Array(part, n) => put_elements(types, leaves, at, *part, *n, all, left),
        TyShape::Ref(mutable, to) => put_leaf(leaves, at, LeafShape::Ref(*mutable, *to), all),
        TyShape::Raw(mutable, to) => put_leaf(leaves, at, LeafShape::Raw(*mutable, *to), all),
        TyShape::Boxed(part) => put_leaf(leaves, at, LeafShape::Boxed(*part), all),
        TyShape::Cell(part) | TyShape::UnsafeCell(part) => {
            if all {
                put_leaves(types, leaves, at, *part, all, left - 1)
            } else {
                Ok(())
            }
        }
    }
}

/// Puts the leaves of the elements of an array, if the walk gives all. Elements of no size have none.
#[cycle(walking)]
fn put_elements(
    types: &Types,
    leaves: &mut Vec<Leaf>,
    at: u32,
    part: Ty,
    n: u64,
    all: bool,
    left: u32,
) -> Result<(), AllocError>
    requires ty { IsType types.now part }
    requires layout { 1 ≤ n → fits types.now part ≡ true }
    requires left { (extent_of types.now part).levels + 1 ≤ left }
    requires room { at + n * (extent_of types.now part).size ≤ 1048576 }
    ensures { OnOk result (leaves.new.items ≡ leaves.old.items ++ moved at (if_all all (repeated_leaves n (extent_of types.now part).size (leaves_of all types.now part)))) }
{
    if !all {
        return Ok(());
    }
    if n == 0 {
        return Ok(());
    }
    types.law_types();
    let (size, _) = types.size_align(part);
    if size == 0 {
        return Ok(());
    }
    let mut next = at;
    for _ in 0..n {
        put_leaves(types, leaves, next, part, all, left - 1)?;
        next += size;
    }
    Ok(())
}

/// Puts the leaves of the parts of a tuple or of the fields of a struct.
#[cycle(walking)]
fn put_leaves_of_parts(
    types: &Types,
    leaves: &mut Vec<Leaf>,
    at: u32,
    ty: Ty,
    all: bool,
    left: u32,
) -> Result<(), AllocError>
    requires parts { AreRoomy types.now at left 0 (side_by_side types.now (shape_at types.now ty)) }
    ensures { OnOk result (leaves.new.items ≡ leaves.old.items ++ moved at (leaves_from types.now 0 (side_by_side types.now (shape_at types.now ty)) (map (leaves_of all types.now) (side_by_side types.now (shape_at types.now ty))))) }
{
    let mut end = 0;
    for place in 0..types.part_count(ty) {
        let Some(part) = types.part(ty, place) else {
            break;
        };
        end = put_leaves_of_part(types, leaves, at, end, part, all, left)?;
    }
    Ok(())
}

/// Puts the leaves of a part, where the parts begin at `at` and the part before ends `end` behind. Answers
/// where the part ends.
#[cycle(walking)]
fn put_leaves_of_part(
    types: &Types,
    leaves: &mut Vec<Leaf>,
    at: u32,
    end: u32,
    part: Ty,
    all: bool,
    left: u32,
) -> Result<u32, AllocError>
    requires ty { IsType types.now part }
    requires layout { fits types.now part ≡ true }
    requires left { (extent_of types.now part).levels + 1 ≤ left }
    requires end { end ≤ 1048576 }
    requires room { at + (rounded end (extent_of types.now part).align + (extent_of types.now part).size) ≤ 1048576 }
    ensures leaves { OnOk result (leaves.new.items ≡ leaves.old.items ++ moved (at + rounded end (extent_of types.now part).align) (leaves_of all types.now part)) }
    ensures end { IfOk result (λ to. to ≡ rounded end (extent_of types.now part).align + (extent_of types.now part).size) }
{
    let (size, align) = types.size_align(part);
    let begin = round_up(end, align);
    put_leaves(types, leaves, at + begin, part, all, left - 1)?;
    Ok(begin + size)
}

/// The leaves of a type in rising order: its scalars, references, raw pointers and boxes, those in arrays
/// and cells included.
pub fn leaves(alloc: Global, types: &Types, ty: Ty) -> Result<Vec<Leaf>, AllocError>
    requires ty { IsType types.now ty }
    requires layout { fits types.now ty ≡ true }
    ensures { IfOk result (λ leaves. leaves.items ≡ moved 0 (leaves_of true types.now ty)) }
{
    let mut leaves = Vec::new(alloc);
    put_leaves(types, &mut leaves, 0, ty, true, MOST_LEVELS)?;
    Ok(leaves)
}

/// The leaves of a type at which a retag stands, in rising order: its references and boxes, in tuples and
/// structs, but in no array and no cell.
pub fn retag_leaves(alloc: Global, types: &Types, ty: Ty) -> Result<Vec<Leaf>, AllocError>
    requires ty { IsType types.now ty }
    requires layout { fits types.now ty ≡ true }
    ensures { IfOk result (λ leaves. leaves.items ≡ moved 0 (leaves_of false types.now ty)) }
{
    let mut leaves = Vec::new(alloc);
    put_leaves(types, &mut leaves, 0, ty, false, MOST_LEVELS)?;
    Ok(leaves)
}
