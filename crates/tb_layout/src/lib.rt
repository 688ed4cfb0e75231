//! Layouts of types: sizes, alignments, the offsets of parts, the leaves, and the bytes that lie in cells.
#![tactic(auto)]

mod answer;
mod leaf;
mod marks;
mod offsets;
mod walk;

pub use answer::{Layout, LayoutError};
pub use leaf::{Leaf, LeafShape};
pub use marks::cells;
pub use offsets::layout;
pub use walk::{leaves, retag_leaves};
