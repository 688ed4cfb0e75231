//! The bytes of a type that lie in cells.
ghost use Rattle.std.specs.Prelude.{◌≡◌, ℕ, ◌≤◌, ◌<◌, ◌*◌, ◌+◌, Some, true, length, map, replicate, IfOk, OnOk};
ghost use Rattle.std.specs.List.{AllByRecursion};
ghost use Rattle.tb_types.specs.Table.{IsType, named_in, shape_at};
ghost use Rattle.tb_types.specs.Folded.{node_in};
ghost use Rattle.tb_types.specs.Pieces.{side_by_side};
ghost use Rattle.tb_types.specs.Extent.{rounded, nothing, laid, extent_in, extent_of, is_within, fits};
ghost use Rattle.tb_layout.specs.Cells.{copies, marks_together, marks_in, marks_of, ends_at, lengthened, with_range, with_marks, is_cell_byte, ranges_of, AreLongest};
ghost use Rattle.tb_layout.specs.LaysOut.{AreRoomy};
ghost use Rattle.tb_perm.specs.Reborrow.{is_in_cells, AreCells};

use crate::offsets::round_up;
use std::alloc::{AllocError, Global};
use tb_perm::CellRange;
use tb_types::{Ty, TyShape, Types};

/// No type that is not too large has more levels.
pub const MOST_LEVELS: u32 = 1_024;

/// Whether the last range ends there.
fn ends_at(ranges: &[CellRange], at: u32) -> bool
    ensures { result ≡ ends_at ranges.now at }
{
    let count = ranges.len();
    if count == 0 {
        return false;
    }
    ranges[count - 1].hi == at
}

/// Lets the last range go on to there.
fn lengthen(ranges: &mut [CellRange], hi: u32)
    requires { 0 < length ranges.old }
    ensures { ranges.new ≡ lengthened ranges.old hi }
{
    let last = ranges.len() - 1;
    ranges[last].hi = hi;
}

/// Puts a range behind the others, and joins it to the last where it begins at its end.
fn put_range(ranges: &mut Vec<CellRange>, lo: u32, hi: u32) -> Result<(), AllocError>
    ensures { OnOk result (ranges.new.items ≡ with_range ranges.old.items lo hi) }
{
    if ends_at(ranges, lo) {
        lengthen(ranges, hi);
        return Ok(());
    }
    match ranges.push(CellRange { lo, hi }) {
        Ok(()) => Ok(()),
        Err(_) => Err(AllocError),
    }
}

/// Puts the bytes of a type that lie in cells, where the type begins at `at` and has at most `left` levels.
#[cycle(putting)]
fn put_cells(
    types: &Types,
    ranges: &mut Vec<CellRange>,
    at: u32,
    ty: Ty,
    left: u32,
) -> Result<(), AllocError>
    requires ty { IsType types.now ty }
    requires layout { fits types.now ty ≡ true }
    requires left { (extent_of types.now ty).levels ≤ left }
    requires room { at + (extent_of types.now ty).size ≤ 1048576 }
    ensures { OnOk result (ranges.new.items ≡ with_marks ranges.old.items at (marks_of types.now ty)) }
{
    types.law_types();
    if types.is_freeze(ty) {
        return Ok(());
    }
    put_cells_of_shape(types, ranges, at, ty, types.shape(ty), left)
}

/// Puts the bytes of a type of a shape that lie in cells.
#[cycle(putting)]
fn put_cells_of_shape(
    types: &Types,
    ranges: &mut Vec<CellRange>,
    at: u32,
    ty: Ty,
    shape: &TyShape,
    left: u32,
) -> Result<(), AllocError>
    requires shape { shape_at types.now ty ≡ Some shape.now }
    requires named { AllByRecursion (IsType types.now) (named_in shape.now) }
    requires parts { AllByRecursion (IsType types.now) (node_in types.now shape.now).parts }
    requires layout { is_within (extent_in (node_in types.now shape.now).tree (map (extent_of types.now) (node_in types.now shape.now).parts)) ≡ true }
    requires left { (extent_in (node_in types.now shape.now).tree (map (extent_of types.now) (node_in types.now shape.now).parts)).levels ≤ left }
    requires room { at + (extent_in (node_in types.now shape.now).tree (map (extent_of types.now) (node_in types.now shape.now).parts)).size ≤ 1048576 }
    ensures { OnOk result (ranges.new.items ≡ with_marks ranges.old.items at (marks_in types.now (node_in types.now shape.now).tree (node_in types.now shape.now).parts (map (marks_of types.now) (node_in types.now shape.now).parts))) }
{
    match shape {
        TyShape::Tuple(_) | TyShape::Struct(_) => put_cells_of_parts(types, ranges, at, ty, left),
        TyShape::Array(part, n) => put_copies(types, ranges, at, *part, *n, left),
        TyShape::Cell(part) | TyShape::UnsafeCell(part) => put_cell(types, ranges, at, *part),
        _ => Ok(()),
    }
}

/// Puts all bytes of the content of a cell.
fn put_cell(types: &Types, ranges: &mut Vec<CellRange>, at: u32, part: Ty) -> Result<(), AllocError>
    requires ty { IsType types.now part }
    requires layout { fits types.now part ≡ true }
    requires room { at + (extent_of types.now part).size ≤ 1048576 }
    ensures { OnOk result (ranges.new.items ≡ with_marks ranges.old.items at (replicate (extent_of types.now part).size true)) }
{
    let (size, _) = types.size_align(part);
    if size == 0 {
        return Ok(());
    }
    put_range(ranges, at, at + size)
}

/// Puts the bytes of the elements of an array that lie in cells.
#[cycle(putting)]
fn put_copies(
    types: &Types,
    ranges: &mut Vec<CellRange>,
    at: u32,
    part: Ty,
    n: u64,
    left: u32,
) -> Result<(), AllocError>
    requires ty { IsType types.now part }
    requires layout { 1 ≤ n → fits types.now part ≡ true }
    requires left { (extent_of types.now part).levels + 1 ≤ left }
    requires room { at + n * (extent_of types.now part).size ≤ 1048576 }
    ensures { OnOk result (ranges.new.items ≡ with_marks ranges.old.items at (copies n (marks_of types.now part))) }
{
    types.law_types();
    if n == 0 {
        return Ok(());
    }
    let (size, _) = types.size_align(part);
    if size == 0 {
        return Ok(());
    }
    let mut next = at;
    for _ in 0..n {
        put_cells(types, ranges, next, part, left - 1)?;
        next += size;
    }
    Ok(())
}

/// Puts the bytes that lie in cells of the parts of a tuple or of the fields of a struct.
#[cycle(putting)]
fn put_cells_of_parts(
    types: &Types,
    ranges: &mut Vec<CellRange>,
    at: u32,
    ty: Ty,
    left: u32,
) -> Result<(), AllocError>
    requires parts { AreRoomy types.now at left 0 (side_by_side types.now (shape_at types.now ty)) }
    ensures { OnOk result (ranges.new.items ≡ with_marks ranges.old.items at (marks_together types.now (side_by_side types.now (shape_at types.now ty)) (map (marks_of types.now) (side_by_side types.now (shape_at types.now ty))))) }
{
    types.law_types();
    let mut end = 0;
    for place in 0..types.part_count(ty) {
        let Some(part) = types.part(ty, place) else {
            break;
        };
        end = put_part(types, ranges, at, end, part, left)?;
    }
    Ok(())
}

/// Puts the bytes of a part that lie in cells, where the parts begin at `at` and the part before ends `end`
/// behind. Answers where the part ends.
#[cycle(putting)]
fn put_part(
    types: &Types,
    ranges: &mut Vec<CellRange>,
    at: u32,
    end: u32,
    part: Ty,
    left: u32,
) -> Result<u32, AllocError>
    requires ty { IsType types.now part }
    requires layout { fits types.now part ≡ true }
    requires left { (extent_of types.now part).levels + 1 ≤ left }
    requires end { end ≤ 1048576 }
    requires room { at + (rounded end (extent_of types.now part).align + (extent_of types.now part).size) ≤ 1048576 }
    ensures cells { OnOk result (ranges.new.items ≡ with_marks ranges.old.items (at + rounded end (extent_of types.now part).align) (marks_of types.now part)) }
    ensures end { IfOk result (λ to. to ≡ rounded end (extent_of types.now part).align + (extent_of types.now part).size) }
{
    let (size, align) = types.size_align(part);
    let begin = round_up(end, align);
    put_cells(types, ranges, at + begin, part, left - 1)?;
    Ok(begin + size)
}

/// The bytes of a type that lie in a `Cell` or `UnsafeCell` and not behind a pointer, with the padding in the
/// cell: the longest ranges of them, in rising order.
pub fn cells(alloc: Global, types: &Types, ty: Ty) -> Result<Vec<CellRange>, AllocError>
    requires ty { IsType types.now ty }
    requires layout { fits types.now ty ≡ true }
    ensures ranges { IfOk result (λ cells. cells.items ≡ ranges_of (marks_of types.now ty)) }
    ensures bytes { IfOk result (λ cells. (byte : ℕ) → is_in_cells cells.items byte ≡ is_cell_byte types.now ty byte) }
    ensures longest { IfOk result (λ cells. AreLongest cells.items) }
    ensures cells { IfOk result (λ cells. AreCells 0 (extent_of types.now ty).size cells.items) }
{
    types.law_types();
    let mut ranges = Vec::new(alloc);
    put_cells(types, &mut ranges, 0, ty, MOST_LEVELS)?;
    Ok(ranges)
}
