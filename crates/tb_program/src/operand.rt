//! Operands, places, and what is computed from them.

use sqlite_items::Items;
use tb_types::{IntKind, Ty};

/// A value that is written in the source.
#[derive(Clone, Copy, Debug, PartialEq, Eq)]
pub enum Constant {
    /// An integer in the range of its type.
    Int(i128, IntKind),
    Bool(bool),
    Char(char),
    /// `()`
    Unit,
}

/// What a line reads without an access to memory.
#[derive(Clone, Copy, Debug, PartialEq, Eq)]
pub enum Operand {
    /// A temporary, by its number.
    Temp(u32),
    Const(Constant),
}

/// Where a place begins.
#[derive(Clone, Copy, Debug, PartialEq, Eq)]
pub enum Base {
    /// A variable, by its number.
    Variable(u32),
    /// What the pointer in a temporary points to.
    Deref(u32),
}

/// A step from a place to a place in it.
#[derive(Clone, Copy, Debug, PartialEq, Eq)]
pub enum Part {
    /// The field of a struct or the part of a tuple of this number.
    Field(u32),
    /// The element of an array or slice at this index.
    Index(Operand),
}

/// A piece of memory that a line names.
#[derive(Debug, Drop)]
pub struct Place {
    pub base: Base,
    /// From the outermost inwards.
    pub parts: Items<Part>,
}

/// A kind of pointer that a borrow makes.
#[derive(Clone, Copy, Debug, PartialEq, Eq)]
pub enum RefKind {
    /// `&`
    Shared,
    /// `&mut`
    Mut,
    /// `&raw const`
    RawConst,
    /// `&raw mut`
    RawMut,
}

/// An operator before its operand.
#[derive(Clone, Copy, Debug, PartialEq, Eq)]
pub enum UnOp {
    /// `-`
    Neg,
    /// `!`
    Not,
}

/// An operator of two operands.
#[derive(Clone, Copy, Debug, PartialEq, Eq)]
pub enum BinOp {
    /// `+`
    Add,
    /// `-`
    Sub,
    /// `*`
    Mul,
    /// `/`
    Div,
    /// `%`
    Rem,
    /// `<<`
    Shl,
    /// `>>`
    Shr,
    /// `&`
    And,
    /// `|`
    Or,
    /// `^`
    Xor,
    /// `==`
    Eq,
    /// `!=`
    Ne,
    /// `<`
    Lt,
    /// `<=`
    Le,
    /// `>`
    Gt,
    /// `>=`
    Ge,
}

/// A value that is computed from operands, or a pointer to a place.
#[derive(Debug, Drop)]
pub enum Rvalue {
    /// A pointer of this kind to a place, which is not accessed.
    Ref(RefKind, Place),
    Use(Operand),
    Unary(UnOp, Operand),
    Binary(BinOp, Operand, Operand),
    /// The operand as a value of another type.
    Cast(Operand, Ty),
    /// A tuple, an array or a struct of this type, from its parts in the order of their declaration.
    Make(Ty, Items<Operand>),
    /// An array of so many copies of the operand.
    Repeat(Operand, u64),
    /// The pointer to an array of this length as one to a slice.
    Unsize(Operand, u64),
    /// The length that a pointer to a slice has.
    Len(Operand),
}
