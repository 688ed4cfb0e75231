use std::alloc::AllocError;
use tb_perm::{Code, Span};
use thiserror::Error;

/// Why the names of a file mean nothing.
#[derive(Debug, Drop, Error)]
pub enum NameError {
    /// The first fault of the file: its code, N1 to N5, and where it stands.
    #[error("refused")]
    Refused(Code, Span),
    /// The allocator had no room.
    #[error("out of memory")]
    Memory,
}

impl From<AllocError> for NameError {
    ghost use Rattle.std.specs.Prelude.{◌≡◌};
    ghost use Rattle.tb_resolve.specs.declared.error.NameError.{NameError};
    ghost use Rattle.tb_resolve.specs.declared.error.NameError.TheVariants.{Memory};

    ghost from_gives = { λ _ error. error ≡ Memory };

    fn from(_: AllocError) -> NameError {
        NameError::Memory
    }
}
