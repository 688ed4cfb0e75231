use tb_types::Ty;

/// What is expected of an expression.
#[derive(Clone, Copy, Debug, PartialEq, Eq)]
pub enum Want {
    /// Nothing.
    Free,
    /// This type, without coercions.
    Just(Ty),
    /// This type, or one with a coercion to it.
    Into(Ty),
    /// An array or a slice of elements of this type: the operand of a borrow where a reference to a slice is expected.
    Elements(Ty),
    /// A raw pointer to any sized type, `*mut` where it is true, or a type with a coercion to one.
    Pointer(bool),
}
