/// The number of a tag: tags are numbered from 1 over the whole run, in the order of their making.
#[derive(Clone, Copy, Debug, PartialEq, Eq)]
pub struct Tag(pub u64);

/// The number of an allocation: allocations are numbered from 1 over the whole run.
#[derive(Clone, Copy, Debug, PartialEq, Eq)]
pub struct AllocId(pub u64);

/// Where a pointer comes from: an allocation, and the tag through which it reaches it.
#[derive(Clone, Copy, Debug, PartialEq, Eq)]
pub struct Prov {
    pub alloc: AllocId,
    pub tag: Tag,
}
