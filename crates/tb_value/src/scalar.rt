use tb_alloc::Ptr;

/// A value of a scalar type.
#[derive(Clone, Copy, Debug, PartialEq, Eq)]
pub enum Scalar {
    Int(i128),
    Bool(bool),
    Char(char),
    /// A pointer to a sized type, or a box.
    Thin(Ptr),
    /// A pointer to a slice, with the number of elements.
    Wide(Ptr, u64),
}
