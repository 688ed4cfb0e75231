use sqlite_items::Items;

/// The layout of a type: its size and alignment in bytes, and for a tuple or struct the offsets of its
/// parts or fields.
#[derive(Debug, Drop)]
pub struct Layout {
    pub size: u32,
    pub align: u32,
    pub fields: Items<u32>,
}

/// Why a type has no layout.
#[derive(Clone, Copy, Debug, PartialEq, Eq)]
pub enum LayoutError {
    /// It has more than 1,048,576 bytes, 4,194,304 parts or 1,024 levels.
    TooLarge,
    /// There was no memory.
    Memory,
}
