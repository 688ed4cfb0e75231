use crate::operand::{Operand, Place, Rvalue};
use sqlite_items::Items;
use std::alloc::{AllocError, Global};
use tb_perm::Span;

/// One statement or terminator. Locals are named by their numbers in the function.
#[derive(Debug, Drop)]
pub enum Line {
    /// Begins the life of a variable, without a value.
    Live(u32),
    /// Ends the life of a variable.
    Dead(u32),
    /// Loads a place into a temporary.
    Load(u32, Place),
    /// Stores an operand to a place.
    Store(Place, Operand),
    /// Gives a temporary a value.
    Set(u32, Rvalue),
    /// Prints a text, as it stands between the quotes in the source, with the operands in place of
    /// its `{}`; with a line feed at the end where the first part is true.
    Print(bool, Items<u8>, Items<Operand>),
    /// Takes the values of temporaries away.
    Clear(Items<u32>),
    /// Retags the reference in a temporary: it gets a tag of its own.
    Retag(u32),
    /// Ends the function.
    Return,
}

impl Line {
    ghost use Rattle.std.specs.Prelude.{◌≡◌, IfOk};
    ghost use Rattle.tb_mir.specs.Retags.{is_retag};

    /// Whether the line is a retag.
    pub fn is_retag(&self) -> bool
        ensures { result ≡ is_retag self.now }
    {
        matches!(self, Line::Retag(_))
    }

    /// An equal line.
    ///
    /// # Errors
    ///
    /// Where the allocator has no room.
    pub fn try_clone(&self, alloc: Global) -> Result<Line, AllocError>
        ensures { IfOk result (λ line. line ≡ self.now) }
    {
        Ok(match self {
            Line::Live(variable) => Line::Live(*variable),
            Line::Dead(variable) => Line::Dead(*variable),
            Line::Load(temp, place) => Line::Load(*temp, *place),
            Line::Store(place, operand) => Line::Store(*place, *operand),
            Line::Set(temp, rvalue) => Line::Set(*temp, *rvalue),
            Line::Print(newline, text, operands) => {
                let text = Items::from_slice(alloc, text.as_slice())?;
                let operands = Items::from_slice(alloc, operands.as_slice())?;
                Line::Print(*newline, text, operands)
            }
            Line::Clear(temps) => Line::Clear(Items::from_slice(alloc, temps.as_slice())?),
            Line::Retag(temp) => Line::Retag(*temp),
            Line::Return => Line::Return,
        })
    }
}

/// A line, and the piece of the source that it comes from.
#[derive(Debug, Drop)]
pub struct MirLine {
    pub line: Line,
    pub span: Span,
}
