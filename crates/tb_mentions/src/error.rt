use std::alloc::AllocError;
use tb_perm::Span;
use thiserror::Error;

/// Why the mentions of an item have no meaning.
#[derive(Debug, Drop, Error)]
pub enum MentionError {
    /// Nothing is known by the name that stands here.
    #[error("unknown name")]
    Unknown(Span),
    /// The allocator had no room.
    #[error("out of memory")]
    Memory,
}

impl From<AllocError> for MentionError {
    ghost use Rattle.std.specs.Prelude.{◌≡◌};
    ghost use Rattle.tb_mentions.specs.declared.error.MentionError.{MentionError};
    ghost use Rattle.tb_mentions.specs.declared.error.MentionError.TheVariants.{Memory};

    ghost from_gives = { λ _ error. error ≡ Memory };

    fn from(_: AllocError) -> MentionError {
        MentionError::Memory
    }
}
