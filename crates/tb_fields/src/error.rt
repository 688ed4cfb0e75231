use std::alloc::AllocError;
use tb_perm::Span;
use thiserror::Error;

/// Why the structs of a file have no fields.
#[derive(Debug, Drop, Error)]
pub enum FieldError {
    /// The struct that is named here holds itself, other than behind a reference or raw pointer.
    #[error("struct holds itself")]
    HoldsItself(Span),
    /// The allocator had no room.
    #[error("out of memory")]
    Memory,
}

impl From<AllocError> for FieldError {
    ghost use Rattle.std.specs.Prelude.{◌≡◌};
    ghost use Rattle.tb_fields.specs.declared.error.FieldError.{FieldError};
    ghost use Rattle.tb_fields.specs.declared.error.FieldError.TheVariants.{Memory};

    ghost from_gives = { λ _ error. error ≡ Memory };

    fn from(_: AllocError) -> FieldError {
        FieldError::Memory
    }
}
