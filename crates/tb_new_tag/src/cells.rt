//! The cells of values that lie one behind the other.
ghost use Rattle.std.specs.Prelude.{◌≡◌, ◌<◌, ◌≤◌, ◌+◌, ◌*◌, ◌^◌, ◌++◌, ◌∷◌, [], IfOk, OnOk};
ghost use Rattle.tb_perm.specs.Reborrow.{AreCells};
ghost use Rattle.tb_new_tag.specs.NewTags.{shifted, repeated};

use std::alloc::{AllocError, Global};
use tb_perm::CellRange;

/// One more range.
fn put(ranges: &mut Vec<CellRange>, range: CellRange) -> Result<(), AllocError>
    ensures { OnOk result (ranges.new.items ≡ ranges.old.items ++ range ∷ []) }
{
    match ranges.push(range) {
        Ok(()) => Ok(()),
        Err(_) => Err(AllocError),
    }
}

/// The cells of one more value, which begins at a byte.
fn put_shifted(
    ranges: &mut Vec<CellRange>,
    cells: &[CellRange],
    size: u32,
    by: u32,
) -> Result<(), AllocError>
    requires cells { AreCells 0 size cells.now }
    requires end { by + size < 2 ^ 32 }
    ensures { OnOk result (ranges.new.items ≡ ranges.old.items ++ shifted by cells.now) }
{
    for cell in cells {
        let range = CellRange {
            lo: by + cell.lo,
            hi: by + cell.hi,
        };
        put(ranges, range)?;
    }
    Ok(())
}

/// The cells of so many values of a size, which lie one behind the other from a byte on, where each has these.
pub fn repeated(
    alloc: Global,
    cells: &[CellRange],
    count: u64,
    size: u32,
    at: u32,
) -> Result<Vec<CellRange>, AllocError>
    requires cells { AreCells 0 size cells.now }
    requires end { at + count * size < 2 ^ 32 }
    ensures value { IfOk result (λ ranges. ranges.items ≡ repeated count size at cells.now) }
    ensures order { IfOk result (λ ranges. AreCells at (at + count * size) ranges.items) }
{
    let mut ranges = Vec::new(alloc);
    let mut from = at;
    for _ in 0..count {
        put_shifted(&mut ranges, cells, size, from)?;
        from += size;
    }
    Ok(ranges)
}
