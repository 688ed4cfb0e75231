use std::alloc::{AllocError, AllocFailed};

/// Why something is not read.
#[derive(Debug, Drop)]
pub enum ReadError {
    /// It does not stand there.
    Unexpected,
    /// The allocator had no room.
    Memory,
}

impl From<AllocError> for ReadError {
    ghost use Rattle.std.specs.Prelude.{◌≡◌};
    ghost use Rattle.tb_syntax.specs.declared.error.ReadError.{ReadError};
    ghost use Rattle.tb_syntax.specs.declared.error.ReadError.TheVariants.{Memory};

    ghost from_gives = { λ _ error. error ≡ Memory };

    fn from(_: AllocError) -> ReadError {
        ReadError::Memory
    }
}

impl<T: Drop> From<AllocFailed<T>> for ReadError {
    ghost use Rattle.std.specs.Prelude.{◌≡◌};
    ghost use Rattle.tb_syntax.specs.declared.error.ReadError.{ReadError};
    ghost use Rattle.tb_syntax.specs.declared.error.ReadError.TheVariants.{Memory};

    ghost from_gives = { λ _ error. error ≡ Memory };

    fn from(_: AllocFailed<T>) -> ReadError {
        ReadError::Memory
    }
}
