use std::alloc::AllocError;
use tb_perm::{Code, Span};
use thiserror::Error;

/// Why a tree has no types.
#[derive(Debug, Drop, Error)]
pub enum TypeError {
    /// A rule of the language forbids what stands here.
    #[error("not well typed")]
    Refused(Code, Span),
    /// The allocator had no room.
    #[error("out of memory")]
    Memory,
}

impl From<AllocError> for TypeError {
    ghost use Rattle.std.specs.Prelude.{◌≡◌};
    ghost use Rattle.tb_rules.specs.declared.error.TypeError.{TypeError};
    ghost use Rattle.tb_rules.specs.declared.error.TypeError.TheVariants.{Memory};

    ghost from_gives = { λ _ error. error ≡ Memory };

    fn from(_: AllocError) -> TypeError {
        TypeError::Memory
    }
}
