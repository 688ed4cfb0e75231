use crate::perm::{Guard, Perm};
use crate::span::Span;
use crate::tag::Tag;
use sqlite_items::Items;

/// Bytes that lie in a `Cell` or `UnsafeCell`: from `lo` on, and up to before `hi`.
#[derive(Clone, Copy, Debug, PartialEq, Eq)]
pub struct CellRange {
    pub lo: u32,
    pub hi: u32,
}

/// A tag to be made by a reborrow of the bytes from `lo` on, and up to before `hi`.
///
/// Its permission is Cell at the bytes of `cells`, which lie in the range, rise, and do not
/// overlap; `perm` at the other bytes of the range; and `outside` at all bytes outside it.
#[derive(Debug, Drop)]
pub struct NewTag {
    pub parent: Tag,
    pub tag: Tag,
    pub lo: u32,
    pub hi: u32,
    pub perm: Perm,
    pub outside: Perm,
    pub cells: Items<CellRange>,
    pub guard: Guard,
    pub made: Span,
}
