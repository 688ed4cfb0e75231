//! What a form wants to be read behind its first part, and what was read there.

use crate::place::Where;
use sqlite_items::{Boxed, Items};
use tb_ast::{Block, Else, Expr, FieldValue};
use tb_lex::Punctuation;
use tb_perm::Span;

/// What a form wants to be read behind its first part.
#[derive(Clone, Copy, Debug)]
pub enum Wanted {
    /// Nothing: it is whole, or ends with a mark.
    Nothing,
    /// An expression up to a level, in such a place.
    One { place: Where, most: u32 },
    /// Expressions with commas between them, up to a mark.
    Values { close: Punctuation },
    /// The fields of a struct literal, up to `}`.
    Fields,
    /// A block.
    Body,
    /// A condition and a block.
    Repeated,
    /// A condition, a block, and what stands behind `else`.
    Chosen,
}

/// What was read where a form wanted it.
#[derive(Debug, Drop)]
pub enum Got {
    Nothing,
    One(Boxed<Expr>),
    Values {
        values: Items<Expr>,
        commas: Items<Span>,
    },
    Fields {
        fields: Items<FieldValue>,
        commas: Items<Span>,
    },
    Body(Block),
    Repeated {
        condition: Boxed<Expr>,
        body: Block,
    },
    Chosen {
        condition: Boxed<Expr>,
        body: Block,
        otherwise: Option<Else>,
    },
}
