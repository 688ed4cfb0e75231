//! What the lexer gives, in words.
ghost use Rattle.std.specs.Prelude.{◌≤◌, length};

use std::alloc::{AllocError, Global};
use tb_lex::{Integer, LexError, Token, TokenKind, lex};
use tb_perm::{Code, Span};

/// A place.
pub fn show_span(alloc: Global, out: &mut String, span: Span) -> Result<(), AllocError> {
    let (lo, hi) = (span.lo, span.hi);
    out.push_str(format!(in alloc; "{lo}-{hi}")?.as_str())
}

/// A refusal: its code and place.
pub fn show_refusal(
    alloc: Global,
    out: &mut String,
    code: Code,
    span: Span,
) -> Result<(), AllocError> {
    out.push_str("refused ")?;
    out.push_str(code.name())?;
    out.push_str(" ")?;
    show_span(alloc, out, span)
}

/// Bytes of a text, after a mark for what they are.
fn show_bytes(alloc: Global, out: &mut String, mark: &str, bytes: &[u8]) -> Result<(), AllocError> {
    out.push_str(mark)?;
    out.push_str(String::from_utf8_lossy(alloc, bytes)?.as_str())
}

fn show_integer(alloc: Global, out: &mut String, integer: Integer) -> Result<(), AllocError> {
    let value = integer.value;
    out.push_str(format!(in alloc; "{value}")?.as_str())?;
    match integer.suffix {
        Some(suffix) => out.push_str(suffix.text()),
        None => Ok(()),
    }
}

/// What a token is. Names stand for themselves, keywords after `#`, characters and bytes as numbers after `c` and `b`,
/// and texts, as they are written, after `"`.
fn show_kind(alloc: Global, out: &mut String, kind: &TokenKind) -> Result<(), AllocError> {
    match kind {
        TokenKind::Name(name) => show_bytes(alloc, out, "", name.bytes.as_slice()),
        TokenKind::Underscore => out.push_str("_"),
        TokenKind::Keyword(keyword) => show_bytes(alloc, out, "#", keyword.text().as_bytes()),
        TokenKind::Lifetime(name) => show_bytes(alloc, out, "'", name.bytes.as_slice()),
        TokenKind::Integer(integer) => show_integer(alloc, out, *integer),
        TokenKind::Character(c) => {
            let number = *c as u32;
            out.push_str(format!(in alloc; "c{number}")?.as_str())
        }
        TokenKind::Byte(byte) => {
            let number = *byte;
            out.push_str(format!(in alloc; "b{number}")?.as_str())
        }
        TokenKind::Text(text) => show_bytes(alloc, out, "\"", text.source.as_slice()),
        TokenKind::Punctuation(mark) => out.push_str(mark.text()),
    }
}

/// Tokens, each with its place, with blanks between.
fn show_tokens(alloc: Global, out: &mut String, tokens: &[Token]) -> Result<(), AllocError> {
    for (at, token) in tokens.iter().enumerate() {
        if at > 0 {
            out.push_str(" ")?;
        }
        show_kind(alloc, out, &token.kind)?;
        out.push_str("@")?;
        show_span(alloc, out, token.span)?;
    }
    Ok(())
}

/// The tokens of a text with their places, or its fault.
pub fn tokens(alloc: Global, text: &[u8]) -> Result<String, AllocError>
    requires { length text.now ≤ 1048576 }
{
    let mut out = String::new(alloc);
    match lex(alloc, text) {
        Ok(tokens) => show_tokens(alloc, &mut out, tokens.list.as_slice())?,
        Err(LexError::Refused(code, span)) => show_refusal(alloc, &mut out, code, span)?,
        Err(LexError::Memory) => return Err(AllocError),
    }
    Ok(out)
}

/// How many tokens a text has, or its fault.
pub fn count(alloc: Global, text: &[u8]) -> Result<String, AllocError>
    requires { length text.now ≤ 1048576 }
{
    let mut out = String::new(alloc);
    match lex(alloc, text) {
        Ok(tokens) => {
            let count = tokens.list.len();
            out.push_str(format!(in alloc; "{count}")?.as_str())?;
        }
        Err(LexError::Refused(code, span)) => show_refusal(alloc, &mut out, code, span)?,
        Err(LexError::Memory) => return Err(AllocError),
    }
    Ok(out)
}
