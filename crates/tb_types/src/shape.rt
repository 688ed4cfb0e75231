use crate::parts::Parts;

/// A type, by its number among the types of a `Types`.
#[derive(Clone, Copy, Debug, PartialEq, Eq, Hash)]
pub struct Ty(pub u32);

/// An integer type.
#[derive(Clone, Copy, Debug, PartialEq, Eq, Hash)]
pub enum IntKind {
    I8,
    I16,
    I32,
    I64,
    Isize,
    U8,
    U16,
    U32,
    U64,
    Usize,
}

/// What a type is made of. The types that it names are numbers of the same `Types`.
#[derive(Debug, PartialEq, Eq, Hash, Drop)]
pub enum TyShape {
    Int(IntKind),
    Bool,
    Char,
    /// `()`.
    Unit,
    /// A tuple of these parts.
    Tuple(Parts),
    /// An array of this element and length.
    Array(Ty, u64),
    /// The struct of this declaration number.
    Struct(u32),
    /// A reference to a type; to one that may be written through where the first part is true.
    Ref(bool, Ty),
    /// A raw pointer to a type; `*mut` where the first part is true.
    Raw(bool, Ty),
    /// `Box<T>`.
    Boxed(Ty),
    /// `Cell<T>`.
    Cell(Ty),
    /// `UnsafeCell<T>`.
    UnsafeCell(Ty),
    /// `[T]`.
    Slice(Ty),
}
