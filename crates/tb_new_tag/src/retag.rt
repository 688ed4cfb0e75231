ghost use Rattle.std.specs.Prelude.{◌≡◌, ◌<◌, ◌+◌, ◌^◌, true, cond, ◌||◌, [], IfOk};
ghost use Rattle.tb_perm.specs.Reborrow.{AreCells};
ghost use Rattle.tb_types.specs.Table.{IsType};
ghost use Rattle.tb_types.specs.Extent.{extent_of, fits};
ghost use Rattle.tb_new_tag.specs.NewTags.{count_of, bytes_of, cells_of, tag_of};

use crate::cells::repeated;
use crate::perms::{outside_of, perm_of};
use sqlite_items::Items;
use std::alloc::{AllocError, Global};
use tb_layout::cells;
use tb_perm::{CellRange, Guard, NewTag, Span, Tag};
use tb_types::{Ty, Types};

/// How a reference or box is retagged.
///
/// `pointee` is the type that it points to; of a slice it is the type of the elements, and `length` is how many there
/// are, else `length` is none. `unique` is true for `&mut` and for boxes, and false for `&`. At the head of a function
/// `guard` is Strong for references and Weak for boxes, and elsewhere it is Free.
#[derive(Clone, Copy, Debug, PartialEq, Eq)]
pub struct Retag {
    pub pointee: Ty,
    pub length: Option<u64>,
    pub unique: bool,
    pub guard: Guard,
}

/// Where a tag is made: below another, for the bytes of the allocation from an offset on, by a piece of the source.
#[derive(Clone, Copy, Debug, PartialEq, Eq)]
pub struct Place {
    pub parent: Tag,
    pub tag: Tag,
    pub offset: u32,
    pub made: Span,
}

/// How many values are pointed to.
fn count_of(length: Option<u64>) -> u64
    ensures { result ≡ count_of length }
{
    match length {
        None => 1,
        Some(length) => length,
    }
}

impl Retag {
    /// How many bytes are pointed to.
    pub fn size(&self, types: &Types) -> u128
        requires ty { IsType types.now self.now.pointee }
        requires layout { fits types.now self.now.pointee ≡ true }
        ensures { result ≡ bytes_of types.now self.now }
    {
        let (size, _) = types.size_align(self.pointee);
        count_of(self.length) as u128 * size as u128
    }

    /// The cells among the bytes from an offset on.
    fn cells(&self, alloc: Global, types: &Types, offset: u32) -> Result<Vec<CellRange>, AllocError>
        requires ty { IsType types.now self.now.pointee }
        requires layout { fits types.now self.now.pointee ≡ true }
        requires end { offset + bytes_of types.now self.now < 2 ^ 32 }
        ensures value { IfOk result (λ ranges. ranges.items ≡ cells_of types.now self.now offset) }
        ensures order { IfOk result (λ ranges. AreCells offset (offset + bytes_of types.now self.now) ranges.items) }
    {
        if self.unique {
            return Ok(Vec::new(alloc));
        }
        if types.is_freeze(self.pointee) {
            return Ok(Vec::new(alloc));
        }
        let (size, _) = types.size_align(self.pointee);
        let one = cells(alloc, types, self.pointee)?;
        repeated(alloc, &one, count_of(self.length), size, offset)
    }

    /// The tag that the retag makes at a place.
    pub fn new_tag(&self, alloc: Global, types: &Types, place: Place) -> Result<NewTag, AllocError>
        requires ty { IsType types.now self.now.pointee }
        requires layout { fits types.now self.now.pointee ≡ true }
        requires end { place.offset + bytes_of types.now self.now < 2 ^ 32 }
        ensures value { IfOk result (λ new. new ≡ tag_of types.now self.now place.parent place.tag place.offset place.made) }
        ensures cells { IfOk result (λ new. AreCells new.lo new.hi new.cells) }
    {
        let freeze = types.is_freeze(self.pointee);
        let size = self.size(types) as u32;
        let ranges = self.cells(alloc, types, place.offset)?;
        Ok(NewTag {
            parent: place.parent,
            tag: place.tag,
            lo: place.offset,
            hi: place.offset + size,
            perm: perm_of(self.unique, freeze, self.guard),
            outside: outside_of(self.unique, freeze, self.guard),
            cells: Items::from_vec(ranges),
            guard: self.guard,
            made: place.made,
        })
    }
}
