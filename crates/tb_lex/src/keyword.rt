//! The words that are no identifiers.

ghost use Rattle.std.specs.Prelude.{◌≡◌};
ghost use Rattle.tb_lex.specs.Tables.{first_written, keyword_text, keyword_of};

use crate::character::is_text;

/// A word that is no identifier.
#[derive(Clone, Copy, Debug, PartialEq, Eq)]
pub enum Keyword {
    As,
    Break,
    Const,
    Continue,
    Else,
    Extern,
    False,
    Fn,
    If,
    Let,
    Loop,
    Mut,
    Return,
    Struct,
    True,
    Unsafe,
    Use,
    While,
    // From here on no rule of the language has them.
    Async,
    Await,
    Crate,
    Dyn,
    Enum,
    For,
    Impl,
    In,
    Match,
    Mod,
    Move,
    Pub,
    Ref,
    SelfValue,
    SelfType,
    Static,
    Super,
    Trait,
    Type,
    Where,
}

/// All keywords.
const KEYWORDS: [Keyword; 38] = [
    Keyword::As,
    Keyword::Break,
    Keyword::Const,
    Keyword::Continue,
    Keyword::Else,
    Keyword::Extern,
    Keyword::False,
    Keyword::Fn,
    Keyword::If,
    Keyword::Let,
    Keyword::Loop,
    Keyword::Mut,
    Keyword::Return,
    Keyword::Struct,
    Keyword::True,
    Keyword::Unsafe,
    Keyword::Use,
    Keyword::While,
    Keyword::Async,
    Keyword::Await,
    Keyword::Crate,
    Keyword::Dyn,
    Keyword::Enum,
    Keyword::For,
    Keyword::Impl,
    Keyword::In,
    Keyword::Match,
    Keyword::Mod,
    Keyword::Move,
    Keyword::Pub,
    Keyword::Ref,
    Keyword::SelfValue,
    Keyword::SelfType,
    Keyword::Static,
    Keyword::Super,
    Keyword::Trait,
    Keyword::Type,
    Keyword::Where,
];

impl Keyword {
    /// How the keyword is written.
    pub fn text(self) -> &'static str
        ensures { result.now ≡ keyword_text self }
    {
        match self {
            Keyword::As => "as",
            Keyword::Break => "break",
            Keyword::Const => "const",
            Keyword::Continue => "continue",
            Keyword::Else => "else",
            Keyword::Extern => "extern",
            Keyword::False => "false",
            Keyword::Fn => "fn",
            Keyword::If => "if",
            Keyword::Let => "let",
            Keyword::Loop => "loop",
            Keyword::Mut => "mut",
            Keyword::Return => "return",
            Keyword::Struct => "struct",
            Keyword::True => "true",
            Keyword::Unsafe => "unsafe",
            Keyword::Use => "use",
            Keyword::While => "while",
            Keyword::Async => "async",
            Keyword::Await => "await",
            Keyword::Crate => "crate",
            Keyword::Dyn => "dyn",
            Keyword::Enum => "enum",
            Keyword::For => "for",
            Keyword::Impl => "impl",
            Keyword::In => "in",
            Keyword::Match => "match",
            Keyword::Mod => "mod",
            Keyword::Move => "move",
            Keyword::Pub => "pub",
            Keyword::Ref => "ref",
            Keyword::SelfValue => "self",
            Keyword::SelfType => "Self",
            Keyword::Static => "static",
            Keyword::Super => "super",
            Keyword::Trait => "trait",
            Keyword::Type => "type",
            Keyword::Where => "where",
        }
    }
}

/// The first of these that is written as the word.
fn first_written(keywords: &[Keyword], word: &[char]) -> Option<Keyword>
    ensures { result ≡ first_written keyword_text keywords.now word.now }
{
    for keyword in keywords {
        if is_text(word, keyword.text()) {
            return Some(*keyword);
        }
    }
    None
}

/// The keyword that a word is, if it is one.
#[tactic(auto, unfolding(crate::specs::Tables::keyword_of))]
pub fn keyword_of(word: &[char]) -> Option<Keyword>
    ensures { result ≡ keyword_of word.now }
{
    first_written(&KEYWORDS, word)
}
