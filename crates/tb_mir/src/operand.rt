/// A value that is written in the source.
#[derive(Clone, Copy, Debug, PartialEq, Eq)]
pub enum Constant {
    /// An integer of type `i32`.
    Int(i32),
    /// `()`.
    Unit,
}

/// What a line reads without an access to memory.
#[derive(Clone, Copy, Debug, PartialEq, Eq)]
pub enum Operand {
    /// A temporary, by its number.
    Temp(u32),
    Const(Constant),
}

/// Where a place begins.
#[derive(Clone, Copy, Debug, PartialEq, Eq)]
pub enum Base {
    /// A variable, by its number.
    Variable(u32),
    /// What the pointer in a temporary points to.
    Deref(u32),
}

/// A piece of memory that a line loads from or stores to.
#[derive(Clone, Copy, Debug, PartialEq, Eq)]
pub struct Place {
    pub base: Base,
}

/// An operator of two operands.
#[derive(Clone, Copy, Debug, PartialEq, Eq)]
pub enum BinOp {
    Add,
}

/// A kind of pointer: a reference, or a raw pointer.
#[derive(Clone, Copy, Debug, PartialEq, Eq)]
pub enum RefKind {
    /// `&`.
    Shared,
    /// `&mut`.
    Mut,
    /// `*const`, made by `&raw const`.
    RawConst,
    /// `*mut`, made by `&raw mut`.
    RawMut,
}

/// A value that is computed from operands, or a pointer to a place.
#[derive(Clone, Copy, Debug, PartialEq, Eq)]
pub enum Rvalue {
    /// A pointer of this kind to a place, which is not accessed.
    Ref(RefKind, Place),
    Use(Operand),
    Binary(BinOp, Operand, Operand),
}
