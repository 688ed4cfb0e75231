use sqlite_items::Items;
use tb_perm::{Guard, Span, State, Tag};

/// One tag with its state at each byte. Its parent stands in the tree of tags.
#[derive(Drop)]
pub struct PlainRow {
    pub tag: Tag,
    pub guard: Guard,
    pub made: Span,
    pub noted: bool,
    pub states: Items<State>,
}
