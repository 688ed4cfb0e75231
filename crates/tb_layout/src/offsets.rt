ghost use Rattle.std.specs.Prelude.{◌≡◌, ◌≤◌, ◌+◌, ◌++◌, ◌∷◌, [], map, true, false, IfOk, OnOk, IsErrOf};
ghost use Rattle.std.specs.List.{AllByRecursion};
ghost use Rattle.tb_types.specs.Table.{IsType, shape_at};
ghost use Rattle.tb_types.specs.Pieces.{side_by_side};
ghost use Rattle.tb_types.specs.Extent.{rounded, extent_of, fits};
ghost use Rattle.tb_types.specs.Capped.{IsAlign};
ghost use Rattle.tb_layout.specs.Layout.{places, layout_of};
ghost use Rattle.tb_layout.specs.LaysOut.{AreLaidOut};

use crate::answer::{Layout, LayoutError};
use sqlite_items::Items;
use std::alloc::{AllocError, Global};
use tb_types::{Ty, Types};

/// The least multiple of an alignment that is not below a number.
pub fn round_up(n: u32, align: u32) -> u32
    requires n { n ≤ 1048576 }
    requires align { IsAlign align }
    ensures { result ≡ rounded n align }
{
    (n + (align - 1)) / align * align
}

/// Puts the offset of a part that is laid behind an end, and answers where the part ends.
fn place_part(types: &Types, offsets: &mut Vec<u32>, end: u32, part: Ty) -> Result<u32, AllocError>
    requires ty { IsType types.now part }
    requires layout { fits types.now part ≡ true }
    requires end { end ≤ 1048576 }
    requires room { rounded end (extent_of types.now part).align + (extent_of types.now part).size ≤ 1048576 }
    ensures offsets { OnOk result (offsets.new.items ≡ offsets.old.items ++ rounded end (extent_of types.now part).align ∷ []) }
    ensures end { IfOk result (λ to. to ≡ rounded end (extent_of types.now part).align + (extent_of types.now part).size) }
{
    let (size, align) = types.size_align(part);
    let at = round_up(end, align);
    if offsets.push(at).is_err() {
        return Err(AllocError);
    }
    Ok(at + size)
}

/// The offsets of the parts of a tuple and of the fields of a struct.
fn offsets_of(alloc: Global, types: &Types, ty: Ty) -> Result<Items<u32>, AllocError>
    requires types { AllByRecursion (IsType types.now) (side_by_side types.now (shape_at types.now ty)) }
    requires layouts { AreLaidOut types.now (side_by_side types.now (shape_at types.now ty)) }
    ensures { IfOk result (λ offsets. offsets ≡ places 0 (map (extent_of types.now) (side_by_side types.now (shape_at types.now ty)))) }
{
    let mut offsets = Vec::new(alloc);
    let mut end = 0;
    for place in 0..types.part_count(ty) {
        let Some(part) = types.part(ty, place) else {
            break;
        };
        end = place_part(types, &mut offsets, end, part)?;
    }
    Ok(Items::from_vec(offsets))
}

/// The layout of a type, whose size is a multiple of its alignment. `[T]` by itself counts as an array of
/// length 0, and a struct without fields yet as one that has none.
pub fn layout(alloc: Global, types: &Types, ty: Ty) -> Result<Layout, LayoutError>
    requires { IsType types.now ty }
    ensures layout { IfOk result (λ layout. layout ≡ layout_of types.now ty) }
    ensures fits { OnOk result (fits types.now ty ≡ true) }
    ensures too_large { IsErrOf result LayoutError.TooLarge → fits types.now ty ≡ false }
{
    types.law_types();
    if !types.fits(ty) {
        return Err(LayoutError::TooLarge);
    }
    let (size, align) = types.size_align(ty);
    let Ok(fields) = offsets_of(alloc, types, ty) else {
        return Err(LayoutError::Memory);
    };
    Ok(Layout {
        size,
        align,
        fields,
    })
}
