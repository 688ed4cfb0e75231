ghost use Rattle.std.specs.Prelude.{◌≡◌, ◌↔◌, IsTrue};

use crate::keyword::Keyword;
use crate::punctuation::Punctuation;
use crate::suffix::Suffix;
use sqlite_items::Items;
use tb_perm::Span;

/// The tokens of a text.
#[derive(Debug, Drop)]
pub struct Tokens {
    /// In the order of the text.
    pub list: Items<Token>,
    /// The length of the text in bytes.
    pub end: u32,
}

/// A token and where it stands.
#[derive(Debug, Drop)]
pub struct Token {
    pub kind: TokenKind,
    /// In bytes of the text, with quotes and suffix.
    pub span: Span,
}

impl Token {
    /// Whether the token is this keyword.
    pub fn is_keyword(&self, keyword: Keyword) -> bool
        ensures { IsTrue result ↔ (self.now.kind ≡ TokenKind.Keyword keyword) }
    {
        match &self.kind {
            TokenKind::Keyword(found) => *found == keyword,
            _ => false,
        }
    }

    /// Whether the token is this punctuation.
    pub fn is_punctuation(&self, punctuation: Punctuation) -> bool
        ensures { IsTrue result ↔ (self.now.kind ≡ TokenKind.Punctuation punctuation) }
    {
        match &self.kind {
            TokenKind::Punctuation(found) => *found == punctuation,
            _ => false,
        }
    }
}

/// What a token is.
#[derive(Debug, Drop)]
pub enum TokenKind {
    /// An identifier.
    Name(Name),
    /// `_` alone.
    Underscore,
    Keyword(Keyword),
    /// `'` and a word, which is kept without its `'`.
    Lifetime(Name),
    Integer(Integer),
    /// A character in quotes.
    Character(char),
    /// A byte in quotes, behind `b`.
    Byte(u8),
    Text(Text),
    Punctuation(Punctuation),
}

/// An identifier, or the word of a lifetime.
#[derive(Debug, Drop)]
pub struct Name {
    /// In UTF-8, by which names are compared.
    pub bytes: Items<u8>,
}

/// An integer.
#[derive(Clone, Copy, Debug, PartialEq, Eq)]
pub struct Integer {
    pub value: u64,
    pub suffix: Option<Suffix>,
}

/// A text in quotes.
#[derive(Debug, Drop)]
pub struct Text {
    /// What stands between the quotes, as it is written.
    pub source: Items<u8>,
}
