//! The pieces that trees are made of.

use tb_lex::TokenKind;
use tb_perm::Span;

/// A token, or a part of one that is glued to the piece before it.
#[derive(Debug, Drop)]
pub struct Piece {
    pub kind: TokenKind,
    /// Of its own bytes alone.
    pub span: Span,
    /// Whether it is one token with the piece before it.
    pub glued: bool,
}
