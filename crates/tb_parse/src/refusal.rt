//! The refused token.

ghost use Rattle.std.specs.Prelude.{◌≡◌};
ghost use Rattle.tb_parse.specs.Fronts.{opens, closes, is_crowded, code_of, place_of};

use tb_lex::{Punctuation, Token, TokenKind};
use tb_perm::{Code, Span};

/// How many brackets more may be opened than closed.
const BRACKETS: usize = 100;

/// Whether a token opens a bracket.
fn opens(kind: &TokenKind) -> bool
    ensures { result ≡ opens kind.now }
{
    match kind {
        TokenKind::Punctuation(
            Punctuation::OpenParen | Punctuation::OpenBracket | Punctuation::OpenBrace,
        ) => true,
        _ => false,
    }
}

/// Whether a token closes a bracket.
fn closes(kind: &TokenKind) -> bool
    ensures { result ≡ closes kind.now }
{
    match kind {
        TokenKind::Punctuation(
            Punctuation::CloseParen | Punctuation::CloseBracket | Punctuation::CloseBrace,
        ) => true,
        _ => false,
    }
}

/// Whether behind some token more than 100 brackets more have been opened than closed.
fn is_crowded(tokens: &[Token]) -> bool
    ensures { result ≡ is_crowded 0 0 tokens.now }
{
    let mut opened: usize = 0;
    let mut closed: usize = 0;
    for token in tokens {
        opened += usize::from(opens(&token.kind));
        closed += usize::from(closes(&token.kind));
        if opened > closed + BRACKETS {
            return true;
        }
    }
    false
}

/// The code of a refusal at the first of these tokens.
pub fn code_of(tokens: &[Token]) -> Code
    ensures { result ≡ code_of tokens.now }
{
    if is_crowded(tokens) {
        Code::TooDeeplyNested
    } else {
        Code::UnexpectedToken
    }
}

/// Where the first of these tokens stands; without tokens, the empty place at the end.
pub fn place_of(tokens: &[Token], end: u32) -> Span
    ensures { result ≡ place_of tokens.now end }
{
    match tokens {
        [token, ..] => token.span,
        [] => Span { lo: end, hi: end },
    }
}
