use tb_types::{IntKind, Ty};

/// What a leaf of a type is.
#[derive(Clone, Copy, Debug, PartialEq, Eq)]
pub enum LeafShape {
    Int(IntKind),
    Bool,
    Char,
    /// A reference to a type; to one that may be written through where the first part is true.
    Ref(bool, Ty),
    /// A raw pointer to a type; `*mut` where the first part is true.
    Raw(bool, Ty),
    /// `Box<T>`.
    Boxed(Ty),
}

/// A leaf of a type, and the byte of the type at which it begins.
#[derive(Clone, Copy, Debug, PartialEq, Eq)]
pub struct Leaf {
    pub at: u32,
    pub shape: LeafShape,
}
