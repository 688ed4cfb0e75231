use crate::perm::Perm;
use crate::span::Span;
use crate::tag::Tag;

/// Why a tag refuses an event.
#[derive(Clone, Copy, Debug, PartialEq, Eq)]
pub enum Refusal {
    /// The tag may not read here.
    ReadForbidden,
    /// The tag may not write here.
    WriteForbidden,
    /// A protected tag would lose a byte that it has accessed.
    Protected,
    /// A strongly guarded tag has accessed a byte that is to be deallocated.
    StrongDealloc,
}

/// The event that a report speaks of.
#[derive(Clone, Copy, Debug, PartialEq, Eq)]
pub enum Access {
    Read,
    Write,
    Reborrow,
    CallEnd,
    Free,
}

/// Which tag refused an event, and where: the byte counts from the beginning of the allocation, the
/// permission is the tag's there before the event, and `made` is where the tag was made.
#[derive(Clone, Copy, Debug, PartialEq, Eq)]
pub struct Report {
    pub refusal: Refusal,
    pub access: Access,
    pub through: Tag,
    pub byte: u32,
    pub tag: Tag,
    pub perm: Perm,
    pub made: Span,
}

/// Why an event was not carried out.
#[derive(Clone, Copy, Debug, PartialEq, Eq)]
pub enum TreeError {
    /// A tag refused it.
    Borrow(Report),
    /// There was no memory for it.
    Memory,
}
