//! Whole tokens.

ghost use Rattle.std.specs.Prelude.{◌≡◌};
ghost use Rattle.tb_syntax.specs.Reading.{Gives};
ghost use Rattle.tb_syntax.specs.Leaves.{is_keyword, is_name, is_lifetime, keyword_at, name_at, word_at, lifetime_at, number_at, text_at, has_keyword, has_name, has_lifetime, optional_keyword_at, optional_lifetime_at};

use crate::cursor::Cursor;
use crate::error::ReadError;
use sqlite_items::Items;
use std::alloc::Global;
use tb_ast::{Ident, IntLiteral, Lifetime, TextLiteral};
use tb_lex::{Keyword, Name, Text, TokenKind};
use tb_perm::Span;

fn is_keyword(word: Keyword, kind: &TokenKind) -> bool
    ensures { result ≡ is_keyword word kind.now }
{
    match kind {
        TokenKind::Keyword(found) => *found == word,
        _ => false,
    }
}

fn is_name(kind: &TokenKind) -> bool
    ensures { result ≡ is_name kind.now }
{
    match kind {
        TokenKind::Name(_) => true,
        _ => false,
    }
}

fn is_lifetime(kind: &TokenKind) -> bool
    ensures { result ≡ is_lifetime kind.now }
{
    match kind {
        TokenKind::Lifetime(_) => true,
        _ => false,
    }
}

impl<'a> Cursor<'a> {
    /// The place of this keyword, and what follows it.
    #[tactic(auto, unfolding(crate::specs::Leaves::keyword_at))]
    pub fn keyword(self, word: Keyword) -> Result<(Span, Cursor<'a>), ReadError>
        ensures { Gives (λ x. x) result (keyword_at word self.entry) }
    {
        let (token, rest) = self.token()?;
        if is_keyword(word, &token.kind) {
            Ok((token.span, rest))
        } else {
            Err(ReadError::Unexpected)
        }
    }

    /// The same, if it comes next.
    #[tactic(auto, unfolding(crate::specs::Leaves::keyword_at))]
    pub fn next_keyword(&self, word: Keyword) -> Option<(Span, Cursor<'a>)>
        ensures { result ≡ keyword_at word self.now }
    {
        let (token, rest) = self.next_token()?;
        if is_keyword(word, &token.kind) {
            Some((token.span, rest))
        } else {
            None
        }
    }

    /// An identifier, and what follows it.
    #[tactic(auto, unfolding(crate::specs::Leaves::name_at))]
    pub fn name(self, alloc: Global) -> Result<(Ident, Cursor<'a>), ReadError>
        ensures { Gives (λ x. x) result (name_at self.entry) }
    {
        let (token, rest) = self.token()?;
        let TokenKind::Name(name) = &token.kind else {
            return Err(ReadError::Unexpected);
        };
        let bytes = Items::from_slice(alloc, name.bytes.as_slice()).map_err(|_| ReadError::Memory)?;
        let name = Name { bytes };
        Ok((
            Ident {
                name,
                span: token.span,
            },
            rest,
        ))
    }

    /// The place of an identifier that is read as this word, and what follows it.
    #[tactic(auto, unfolding(crate::specs::Leaves::word_at))]
    pub fn word(self, word: &str) -> Result<(Span, Cursor<'a>), ReadError>
        ensures { Gives (λ x. x) result (word_at word.now self.entry) }
    {
        let (token, rest) = self.token()?;
        let TokenKind::Name(name) = &token.kind else {
            return Err(ReadError::Unexpected);
        };
        if name.bytes.as_slice() == word.as_bytes() {
            Ok((token.span, rest))
        } else {
            Err(ReadError::Unexpected)
        }
    }

    /// The same, if it comes next.
    #[tactic(auto, unfolding(crate::specs::Leaves::word_at))]
    pub fn next_word(&self, word: &str) -> Option<(Span, Cursor<'a>)>
        ensures { result ≡ word_at word.now self.now }
    {
        let (token, rest) = self.next_token()?;
        let TokenKind::Name(name) = &token.kind else {
            return None;
        };
        if name.bytes.as_slice() == word.as_bytes() {
            Some((token.span, rest))
        } else {
            None
        }
    }

    /// A lifetime, and what follows it.
    #[tactic(auto, unfolding(crate::specs::Leaves::lifetime_at))]
    pub fn lifetime(self, alloc: Global) -> Result<(Lifetime, Cursor<'a>), ReadError>
        ensures { Gives (λ x. x) result (lifetime_at self.entry) }
    {
        let (token, rest) = self.token()?;
        let TokenKind::Lifetime(name) = &token.kind else {
            return Err(ReadError::Unexpected);
        };
        let bytes = Items::from_slice(alloc, name.bytes.as_slice()).map_err(|_| ReadError::Memory)?;
        let name = Name { bytes };
        Ok((
            Lifetime {
                name,
                span: token.span,
            },
            rest,
        ))
    }

    /// An integer, and what follows it.
    #[tactic(auto, unfolding(crate::specs::Leaves::number_at))]
    pub fn number(self) -> Result<(IntLiteral, Cursor<'a>), ReadError>
        ensures { Gives (λ x. x) result (number_at self.entry) }
    {
        let (token, rest) = self.token()?;
        let TokenKind::Integer(integer) = token.kind else {
            return Err(ReadError::Unexpected);
        };
        Ok((
            IntLiteral {
                integer,
                span: token.span,
            },
            rest,
        ))
    }

    /// A text, and what follows it.
    #[tactic(auto, unfolding(crate::specs::Leaves::text_at))]
    pub fn text(self, alloc: Global) -> Result<(TextLiteral, Cursor<'a>), ReadError>
        ensures { Gives (λ x. x) result (text_at self.entry) }
    {
        let (token, rest) = self.token()?;
        let TokenKind::Text(text) = &token.kind else {
            return Err(ReadError::Unexpected);
        };
        let source = Items::from_slice(alloc, text.source.as_slice()).map_err(
            |_| ReadError::Memory,
        )?;
        let text = Text { source };
        Ok((
            TextLiteral {
                text,
                span: token.span,
            },
            rest,
        ))
    }

    /// Whether this keyword comes next.
    #[tactic(auto, unfolding(crate::specs::Leaves::has_keyword))]
    pub fn has_keyword(&self, word: Keyword) -> bool
        ensures { result ≡ has_keyword word self.now }
    {
        match self.kind() {
            Some(kind) => is_keyword(word, kind),
            None => false,
        }
    }

    /// Whether an identifier comes next.
    #[tactic(auto, unfolding(crate::specs::Leaves::has_name))]
    pub fn has_name(&self) -> bool
        ensures { result ≡ has_name self.now }
    {
        match self.kind() {
            Some(kind) => is_name(kind),
            None => false,
        }
    }

    /// Whether a lifetime comes next.
    #[tactic(auto, unfolding(crate::specs::Leaves::has_lifetime))]
    pub fn has_lifetime(&self) -> bool
        ensures { result ≡ has_lifetime self.now }
    {
        match self.kind() {
            Some(kind) => is_lifetime(kind),
            None => false,
        }
    }

    /// The place of this keyword, if it comes next, and what follows it.
    #[tactic(auto, unfolding(crate::specs::Leaves::optional_keyword_at))]
    pub fn optional_keyword(self, word: Keyword) -> Result<(Option<Span>, Cursor<'a>), ReadError>
        ensures { Gives (λ x. x) result (optional_keyword_at word self.entry) }
    {
        if !self.has_keyword(word) {
            return Ok((None, self));
        }
        let (span, rest) = self.keyword(word)?;
        Ok((Some(span), rest))
    }

    /// A lifetime, if one comes next, and what follows it.
    #[tactic(auto, unfolding(crate::specs::Leaves::optional_lifetime_at))]
    pub fn optional_lifetime(
        self,
        alloc: Global,
    ) -> Result<(Option<Lifetime>, Cursor<'a>), ReadError>
        ensures { Gives (λ x. x) result (optional_lifetime_at self.entry) }
    {
        if !self.has_lifetime() {
            return Ok((None, self));
        }
        let (name, rest) = self.lifetime(alloc)?;
        Ok((Some(name), rest))
    }
}
