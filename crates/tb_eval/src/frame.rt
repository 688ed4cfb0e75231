use crate::value::Slot;
use sqlite_items::Items;

/// Where a run is in a function, and what the function's locals have.
#[derive(Debug, Drop)]
pub struct Frame {
    pub func: u32,
    pub block: u32,
    /// The place of the next line in the block.
    pub at: usize,
    /// One for each local.
    pub locals: Items<Slot>,
}
