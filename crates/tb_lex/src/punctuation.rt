//! Marks and operators.

ghost use Rattle.std.specs.Prelude.{◌≡◌};
ghost use Rattle.std.specs.Option.{option_map};
ghost use Rattle.tb_lex.specs.Tables.{first_standing, punctuation_text, punctuation_at};

use crate::character::strip;

/// A mark or an operator.
#[derive(Clone, Copy, Debug, PartialEq, Eq)]
pub enum Punctuation {
    /// `<<=`
    ShlEq,
    /// `>>=`
    ShrEq,
    /// `::`
    PathSep,
    /// `->`
    Arrow,
    /// `!=`
    Ne,
    /// `==`
    EqEq,
    /// `<=`
    Le,
    /// `<<`
    Shl,
    /// `>=`
    Ge,
    /// `>>`
    Shr,
    /// `+=`
    PlusEq,
    /// `-=`
    MinusEq,
    /// `*=`
    StarEq,
    /// `/=`
    SlashEq,
    /// `%=`
    PercentEq,
    /// `&&`
    AndAnd,
    /// `&=`
    AndEq,
    /// `||`
    OrOr,
    /// `|=`
    OrEq,
    /// `^=`
    CaretEq,
    /// `(`
    OpenParen,
    /// `)`
    CloseParen,
    /// `[`
    OpenBracket,
    /// `]`
    CloseBracket,
    /// `{`
    OpenBrace,
    /// `}`
    CloseBrace,
    /// `,`
    Comma,
    /// `;`
    Semicolon,
    /// `:`
    Colon,
    /// `.`
    Dot,
    /// `#`
    Pound,
    /// `!`
    Not,
    /// `=`
    Eq,
    /// `<`
    Lt,
    /// `>`
    Gt,
    /// `+`
    Plus,
    /// `-`
    Minus,
    /// `*`
    Star,
    /// `/`
    Slash,
    /// `%`
    Percent,
    /// `&`
    And,
    /// `|`
    Or,
    /// `^`
    Caret,
}

/// All punctuation, the longest first.
const PUNCTUATION: [Punctuation; 43] = [
    Punctuation::ShlEq,
    Punctuation::ShrEq,
    Punctuation::PathSep,
    Punctuation::Arrow,
    Punctuation::Ne,
    Punctuation::EqEq,
    Punctuation::Le,
    Punctuation::Shl,
    Punctuation::Ge,
    Punctuation::Shr,
    Punctuation::PlusEq,
    Punctuation::MinusEq,
    Punctuation::StarEq,
    Punctuation::SlashEq,
    Punctuation::PercentEq,
    Punctuation::AndAnd,
    Punctuation::AndEq,
    Punctuation::OrOr,
    Punctuation::OrEq,
    Punctuation::CaretEq,
    Punctuation::OpenParen,
    Punctuation::CloseParen,
    Punctuation::OpenBracket,
    Punctuation::CloseBracket,
    Punctuation::OpenBrace,
    Punctuation::CloseBrace,
    Punctuation::Comma,
    Punctuation::Semicolon,
    Punctuation::Colon,
    Punctuation::Dot,
    Punctuation::Pound,
    Punctuation::Not,
    Punctuation::Eq,
    Punctuation::Lt,
    Punctuation::Gt,
    Punctuation::Plus,
    Punctuation::Minus,
    Punctuation::Star,
    Punctuation::Slash,
    Punctuation::Percent,
    Punctuation::And,
    Punctuation::Or,
    Punctuation::Caret,
];

impl Punctuation {
    /// How it is written.
    pub fn text(self) -> &'static str
        ensures { result.now ≡ punctuation_text self }
    {
        match self {
            Punctuation::ShlEq => "<<=",
            Punctuation::ShrEq => ">>=",
            Punctuation::PathSep => "::",
            Punctuation::Arrow => "->",
            Punctuation::Ne => "!=",
            Punctuation::EqEq => "==",
            Punctuation::Le => "<=",
            Punctuation::Shl => "<<",
            Punctuation::Ge => ">=",
            Punctuation::Shr => ">>",
            Punctuation::PlusEq => "+=",
            Punctuation::MinusEq => "-=",
            Punctuation::StarEq => "*=",
            Punctuation::SlashEq => "/=",
            Punctuation::PercentEq => "%=",
            Punctuation::AndAnd => "&&",
            Punctuation::AndEq => "&=",
            Punctuation::OrOr => "||",
            Punctuation::OrEq => "|=",
            Punctuation::CaretEq => "^=",
            Punctuation::OpenParen => "(",
            Punctuation::CloseParen => ")",
            Punctuation::OpenBracket => "[",
            Punctuation::CloseBracket => "]",
            Punctuation::OpenBrace => "{",
            Punctuation::CloseBrace => "}",
            Punctuation::Comma => ",",
            Punctuation::Semicolon => ";",
            Punctuation::Colon => ":",
            Punctuation::Dot => ".",
            Punctuation::Pound => "#",
            Punctuation::Not => "!",
            Punctuation::Eq => "=",
            Punctuation::Lt => "<",
            Punctuation::Gt => ">",
            Punctuation::Plus => "+",
            Punctuation::Minus => "-",
            Punctuation::Star => "*",
            Punctuation::Slash => "/",
            Punctuation::Percent => "%",
            Punctuation::And => "&",
            Punctuation::Or => "|",
            Punctuation::Caret => "^",
        }
    }
}

/// The first of these that stands at the front of a text, and what follows it.
fn first_standing<'a>(
    punctuation: &[Punctuation],
    text: &'a [char],
) -> Option<(Punctuation, &'a [char])>
    ensures { option_map (λ x. (x.0, x.1.now)) result ≡ first_standing punctuation_text punctuation.now text.now }
{
    for mark in punctuation {
        if let Some(rest) = strip(mark.text(), text) {
            return Some((*mark, rest));
        }
    }
    None
}

/// The longest punctuation at the front of a text, and what follows it.
#[tactic(auto, unfolding(crate::specs::Tables::punctuation_at))]
pub fn punctuation_at(text: &[char]) -> Option<(Punctuation, &[char])>
    ensures { option_map (λ x. (x.0, x.1.now)) result ≡ punctuation_at text.now }
{
    first_standing(&PUNCTUATION, text)
}
