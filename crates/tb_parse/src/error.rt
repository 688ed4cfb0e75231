use std::alloc::AllocError;
use tb_perm::{Code, Span};
use thiserror::Error;

/// Why there is no tree.
#[derive(Debug, Drop, Error)]
pub enum ParseError {
    /// The tokens have no tree that is no deeper than 128. The code is P1 or P2, and the place that of the
    /// refused token, or the empty place at the end of the file.
    #[error("no tree")]
    Refused(Code, Span),
    /// The allocator had no room.
    #[error("out of memory")]
    Memory,
}

impl From<AllocError> for ParseError {
    ghost use Rattle.std.specs.Prelude.{◌≡◌};
    ghost use Rattle.tb_parse.specs.declared.error.ParseError.{ParseError};
    ghost use Rattle.tb_parse.specs.declared.error.ParseError.TheVariants.{Memory};

    ghost from_gives = { λ _ error. error ≡ Memory };

    fn from(_: AllocError) -> ParseError {
        ParseError::Memory
    }
}
