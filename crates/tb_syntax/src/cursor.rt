//! What is still to be read, and the marks at its front.

ghost use Rattle.std.specs.Prelude.{◌≡◌, map, length, None};
ghost use Rattle.std.specs.Option.{option_map};
ghost use Rattle.tb_syntax.specs.Reading.{Gives};
ghost use Rattle.tb_syntax.specs.State.{piece_of, first_kind};
ghost use Rattle.tb_syntax.specs.Marks.{left_behind, first_mark, mark_at, punct_at, has_mark};
ghost use Rattle.tb_syntax.specs.Leaves.{token_at};

use crate::error::ReadError;
use std::marker::Model;
use tb_ast::Mark;
use tb_lex::{Punctuation, Token, TokenKind};
use tb_perm::Span;

/// What is still to be read of a source.
#[derive(Debug, Drop)]
pub struct Cursor<'a> {
    /// What is left of a token of which a part was read.
    left: Option<(Punctuation, Span)>,
    tokens: &'a [Token],
}

impl<'a> Model for Cursor<'a> {
    ghost use Rattle.std.specs.Prelude.{map, ◌++◌};
    ghost use Rattle.tb_syntax.specs.State.{State, piece_of, left_in};

    ghost Value = { State };

    ghost view = { λ cursor. left_in cursor.left ++ map piece_of cursor.tokens.now };
}

/// What is left of a mark where another is taken off its front.
fn left_behind(wanted: Punctuation, found: Punctuation) -> Option<Punctuation>
    ensures { result ≡ left_behind wanted found }
{
    match (wanted, found) {
        (Punctuation::And, Punctuation::AndAnd) => Some(Punctuation::And),
        (Punctuation::Gt, Punctuation::Shr) => Some(Punctuation::Gt),
        (Punctuation::Gt, Punctuation::Ge) => Some(Punctuation::Eq),
        (Punctuation::Gt, Punctuation::ShrEq) => Some(Punctuation::Ge),
        _ => None,
    }
}

impl<'a> Cursor<'a> {
    /// Stands before these tokens.
    pub fn new(tokens: &'a [Token]) -> Cursor<'a>
        ensures pieces { result ≡ map piece_of tokens.now }
    {
        Cursor { left: None, tokens }
    }

    /// How many tokens and parts of tokens are left.
    pub fn len(&self) -> usize
        ensures { result ≡ length self.now }
    {
        self.tokens.len() + usize::from(self.left.is_some())
    }

    /// The whole token that comes next, and what follows it.
    pub fn token(self) -> Result<(&'a Token, Cursor<'a>), ReadError>
        ensures { Gives (λ x. (x.0.now, x.1)) result (token_at self.entry) }
    {
        match self.next_token() {
            Some(found) => Ok(found),
            None => Err(ReadError::Unexpected),
        }
    }

    /// The whole token that comes next, if one does, and what follows it.
    pub fn next_token(&self) -> Option<(&'a Token, Cursor<'a>)>
        ensures { option_map (λ x. (x.0.now, x.1)) result ≡ token_at self.now }
    {
        if self.left.is_some() {
            return None;
        }
        let [token, tokens @ ..] = self.tokens else {
            return None;
        };
        Some((token, Cursor { left: None, tokens }))
    }

    /// The kind of the whole token that comes next; what is left of a token is a mark.
    pub fn kind(&self) -> Option<&'a TokenKind>
        ensures whole { option_map (λ kind. kind.now) result ≡ option_map (λ x. x.0.kind) (token_at self.now) }
        ensures unmarked { first_mark self.now ≡ None → option_map (λ kind. kind.now) result ≡ first_kind self.now }
    {
        if self.left.is_some() {
            return None;
        }
        let [token, ..] = self.tokens else {
            return None;
        };
        Some(&token.kind)
    }

    /// The mark that comes next, and the tokens behind it.
    fn mark_ahead(&self) -> Option<(Punctuation, Mark, &'a [Token])>
        ensures { option_map (λ x. (x.0, x.1, map piece_of x.2.now)) result ≡ first_mark self.now }
    {
        if let Some((mark, span)) = self.left {
            return Some((mark, Mark { span, glued: true }, self.tokens));
        }
        let [token, tokens @ ..] = self.tokens else {
            return None;
        };
        let TokenKind::Punctuation(mark) = token.kind else {
            return None;
        };
        Some((
            mark,
            Mark {
                span: token.span,
                glued: false,
            },
            tokens,
        ))
    }

    /// The whole mark that comes next, or what is left of one, and what follows it.
    pub fn first_mark(&self) -> Option<(Punctuation, Mark, Cursor<'a>)>
        ensures { result ≡ first_mark self.now }
    {
        let (found, mark, tokens) = self.mark_ahead()?;
        Some((found, mark, Cursor { left: None, tokens }))
    }

    /// This mark, if it comes next, and what follows it.
    #[tactic(auto, unfolding(crate::specs::Marks::mark_at))]
    pub fn next_mark(&self, wanted: Punctuation) -> Option<(Mark, Cursor<'a>)>
        ensures { result ≡ mark_at wanted self.now }
    {
        let (found, mark, tokens) = self.mark_ahead()?;
        if found == wanted {
            return Some((mark, Cursor { left: None, tokens }));
        }
        let left = left_behind(wanted, found)?;
        let Span { lo, hi } = mark.span;
        let middle = lo.saturating_add(1);
        let part = Mark {
            span: Span { lo, hi: middle },
            glued: mark.glued,
        };
        let left = Some((left, Span { lo: middle, hi }));
        Some((part, Cursor { left, tokens }))
    }

    /// This mark, which may be glued to the one before it, and what follows it.
    pub fn mark(self, wanted: Punctuation) -> Result<(Mark, Cursor<'a>), ReadError>
        ensures { Gives (λ x. x) result (mark_at wanted self.entry) }
    {
        match self.next_mark(wanted) {
            Some(found) => Ok(found),
            None => Err(ReadError::Unexpected),
        }
    }

    /// The place of this mark, which is not glued to the one before it, and what follows it.
    #[tactic(auto, unfolding(crate::specs::Marks::punct_at))]
    pub fn punct(self, wanted: Punctuation) -> Result<(Span, Cursor<'a>), ReadError>
        ensures { Gives (λ x. x) result (punct_at wanted self.entry) }
    {
        let (mark, rest) = self.mark(wanted)?;
        if mark.glued {
            return Err(ReadError::Unexpected);
        }
        Ok((mark.span, rest))
    }

    /// Whether this mark comes next.
    #[tactic(auto, unfolding(crate::specs::Marks::has_mark))]
    pub fn has_mark(&self, wanted: Punctuation) -> bool
        ensures { result ≡ has_mark wanted self.now }
    {
        match self.mark_ahead() {
            Some((found, _, _)) => found == wanted || left_behind(wanted, found).is_some(),
            None => false,
        }
    }
}
