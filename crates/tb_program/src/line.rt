//! Lines.

use crate::operand::{Operand, Place, Rvalue};
use sqlite_items::Items;
use tb_perm::Span;
use tb_types::{Builtin, Ty};

/// A statement or a terminator. Locals, functions and blocks are named by their numbers.
#[derive(Debug, Drop)]
pub enum Line {
    /// Allocates a variable, without a value.
    Live(u32),
    /// Deallocates a variable.
    Dead(u32),
    /// Loads a place into a temporary.
    Load(u32, Place),
    /// Stores an operand to a place.
    Store(Place, Operand),
    /// Gives a temporary a value.
    Set(u32, Rvalue),
    /// Panics unless the first operand is below the second.
    Bound(Operand, Operand),
    /// Panics unless the operand is true.
    Assert(Operand),
    /// A built-in call about a type, and the temporary for its result where that is not `()`.
    Builtin(Option<u32>, Builtin, Ty, Items<Operand>),
    /// Prints a text, as it stands between the quotes in the source, with the operands in place of its `{}`; with a line feed at the
    /// end where the first part is true.
    Print(bool, Items<u8>, Items<Operand>),
    /// Frees the `Box` in a temporary.
    Free(u32),
    /// Takes the values of temporaries away.
    Clear(Items<u32>),
    /// Retags what the value of a temporary holds.
    Retag(u32),
    /// Retags what the value of a parameter holds, with protectors.
    RetagEntry(u32),
    Goto(u32),
    /// Goes to the first block where the operand is true, and else to the second.
    Switch(Operand, u32, u32),
    Return,
    Panic,
    /// Calls a function: the temporary for its result, the function, its arguments, and the block that is next.
    Call(u32, u32, Items<Operand>, u32),
}

/// A line, and the piece of the source that it comes from.
#[derive(Debug, Drop)]
pub struct MirLine {
    pub line: Line,
    pub span: Span,
}
