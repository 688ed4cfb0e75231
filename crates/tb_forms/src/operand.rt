//! Operands, up to the first expression in them.

ghost use Rattle.std.specs.Prelude.{◌≡◌};
ghost use Rattle.tb_syntax.specs.Reading.{Gives};
ghost use Rattle.tb_syntax.specs.Leaves.{token_at};
ghost use Rattle.tb_forms.specs.Fronts.{unless_glued, marked_front, keyword_front, token_front, front_at};

use crate::borrow::borrow_front;
use crate::front::Front;
use crate::macros::macro_front;
use crate::path::path_front;
use crate::place::Where;
use std::alloc::Global;
use tb_ast::{BoolLiteral, ByteLiteral, CharLiteral, IntLiteral, Literal, Mark, UnaryOp};
use tb_lex::{Keyword, Punctuation, TokenKind};
use tb_perm::Span;
use tb_syntax::{Cursor, ReadError};

/// What a mark is that is not glued to the one before it.
pub(crate) fn unless_glued<'a, T: Drop>(
    at: Mark,
    value: T,
    rest: Cursor<'a>,
) -> Result<(T, Cursor<'a>), ReadError>
    ensures { Gives (λ x. x) result (unless_glued at value rest.entry) }
{
    if at.glued {
        Err(ReadError::Unexpected)
    } else {
        Ok((value, rest))
    }
}

/// What begins with this mark, which comes next.
fn marked_front<'a>(
    cursor: Cursor<'a>,
    mark: Punctuation,
    at: Mark,
    rest: Cursor<'a>,
) -> Result<(Front, Cursor<'a>), ReadError>
    ensures { Gives (λ x. x) result (marked_front cursor.entry mark at rest.entry) }
{
    let operator = match mark {
        Punctuation::OpenParen => return unless_glued(at, Front::Paren { opening: at.span }, rest),
        Punctuation::OpenBracket => {
            return unless_glued(at, Front::Bracket { opening: at.span }, rest);
        }
        Punctuation::OpenBrace => return Ok((Front::Block, cursor)),
        Punctuation::And | Punctuation::AndAnd => return borrow_front(cursor),
        Punctuation::Minus => UnaryOp::Neg,
        Punctuation::Not => UnaryOp::Not,
        Punctuation::Star => UnaryOp::Deref,
        _ => return Err(ReadError::Unexpected),
    };
    let front = Front::Unary {
        operator,
        operator_span: at.span,
    };
    unless_glued(at, front, rest)
}

/// What a keyword is that an expression begins with.
fn keyword_front(word: Keyword, span: Span) -> Option<Front>
    ensures { result ≡ keyword_front word span }
{
    match word {
        Keyword::True => Some(Front::Literal(Literal::Bool(BoolLiteral { value: true, span }))),
        Keyword::False => Some(Front::Literal(Literal::Bool(BoolLiteral { value: false, span }))),
        Keyword::Unsafe => Some(Front::Unsafe {
            unsafe_keyword: span,
        }),
        Keyword::While => Some(Front::While {
            while_keyword: span,
        }),
        Keyword::Loop => Some(Front::Loop { loop_keyword: span }),
        Keyword::If => Some(Front::If { if_keyword: span }),
        Keyword::Return => Some(Front::Return {
            return_keyword: span,
        }),
        Keyword::Break => Some(Front::Break { span }),
        Keyword::Continue => Some(Front::Continue { span }),
        _ => None,
    }
}

/// What begins with the token that comes next.
fn token_front<'a>(
    cursor: Cursor<'a>,
    alloc: Global,
    depth: u32,
    place: Where,
) -> Result<(Front, Cursor<'a>), ReadError>
    ensures { Gives (λ x. x) result (token_front depth place cursor.entry (token_at cursor.entry)) }
{
    let Some((token, rest)) = cursor.next_token() else {
        return Err(ReadError::Unexpected);
    };
    let span = token.span;
    let literal = match token.kind {
        TokenKind::Integer(integer) => Literal::Int(IntLiteral { integer, span }),
        TokenKind::Character(value) => Literal::Char(CharLiteral { value, span }),
        TokenKind::Byte(value) => Literal::Byte(ByteLiteral { value, span }),
        TokenKind::Keyword(word) => {
            return match keyword_front(word, span) {
                Some(front) => Ok((front, rest)),
                None => Err(ReadError::Unexpected),
            };
        }
        TokenKind::Name(_) => {
            return if rest.has_mark(Punctuation::Not) {
                macro_front(cursor, alloc)
            } else {
                path_front(cursor, alloc, depth, place)
            };
        }
        _ => return Err(ReadError::Unexpected),
    };
    Ok((Front::Literal(literal), rest))
}

/// What stands before the first expression, block or list in the operand that comes next, and what
/// follows it.
///
/// `depth` is how many types may lie in one another in a `::<T>`. In a condition `{` behind a path opens
/// no struct literal. Behind `&` the words `raw const` and `raw mut`
/// make a raw borrow, and `raw` alone is a name.
///
/// # Errors
///
/// `Unexpected` where no operand begins so, and `Memory` where the allocator has no room.
#[tactic(auto, unfolding(crate::specs::Fronts::front_at))]
pub fn read_front<'a>(
    cursor: Cursor<'a>,
    alloc: Global,
    depth: u32,
    place: Where,
) -> Result<(Front, Cursor<'a>), ReadError>
    ensures gives { Gives (λ x. x) result (front_at depth place cursor.entry) }
{
    match cursor.first_mark() {
        Some((mark, at, rest)) => marked_front(cursor, mark, at, rest),
        None => token_front(cursor, alloc, depth, place),
    }
}
