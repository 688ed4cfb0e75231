use tb_perm::{Code, Span};
use thiserror::Error;

/// Why a text has no tokens.
#[derive(Debug, Drop, Error)]
pub enum LexError {
    /// The first fault of the text: one of the codes L1 to L6, and where it stands.
    #[error("no tokens")]
    Refused(Code, Span),
    /// The allocator had no room.
    #[error("out of memory")]
    Memory,
}

/// Why no token was read at a place.
#[derive(Debug, Drop)]
pub enum Fault<'a> {
    /// A fault begins at the place: its code, and what follows its piece.
    Refused(Code, &'a [char]),
    /// The allocator had no room.
    Memory,
}
