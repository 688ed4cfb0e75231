//! Characters, bytes and texts in quotes.

ghost use Rattle.std.specs.Prelude.{◌≡◌, ◌≤◌, length};
ghost use Rattle.tb_lex.specs.Scan.{Gives, character_at, byte_at, text_at};
ghost use Rattle.tb_lex.specs.Literals.{is_plain, short};
ghost use Rattle.tb_lex.specs.Stages.{full, full_value, from_open, from_escape, from_hex, plus_hex, from_digit, grown, closed, from_digits, next_stage, content};

use crate::error::Fault;
use crate::token::{Text, TokenKind};
use crate::word::encoded;
use std::alloc::Global;
use tb_perm::Code;

/// What stands in quotes.
#[derive(Clone, Copy, Debug)]
pub enum Literal {
    Character,
    Byte,
    Text,
}

/// How far the reading of a literal has come behind its opening quote.
#[derive(Clone, Copy, Debug)]
pub enum Stage {
    /// A character may come; in a text, also its end.
    Open,
    /// Behind `\`.
    Escape,
    /// Behind `\x`.
    Hex,
    /// Behind `\x` and a digit of this value.
    Digit(u32),
    /// Behind `\u`.
    Unicode,
    /// Behind `\u{` and so many digits of this value.
    Digits(u32, u32),
    /// Behind the one character of a character or byte literal.
    Full(char),
}

/// Behind a whole character.
fn full(literal: Literal, c: char) -> Stage
    ensures { result ≡ full literal c }
{
    match literal {
        Literal::Text => Stage::Open,
        _ => Stage::Full(c),
    }
}

/// Behind a whole escape of this value, if that is a character.
fn full_value(literal: Literal, value: u32) -> Option<Stage>
    ensures { result ≡ full_value literal value }
{
    let c = char::from_u32(value)?;
    Some(full(literal, c))
}

/// Whether a character stands for itself.
fn is_plain(literal: Literal, c: char) -> bool
    ensures { result ≡ is_plain literal c }
{
    match literal {
        Literal::Character => !matches!(c, '\'' | '\\' | '\n'),
        Literal::Byte => c.is_ascii() && !matches!(c, '\'' | '\\' | '\n'),
        Literal::Text => !matches!(c, '"' | '\\'),
    }
}

/// From where a character may come.
fn from_open(literal: Literal, c: char) -> Option<Stage>
    ensures { result ≡ from_open literal c }
{
    if c == '\\' {
        Some(Stage::Escape)
    } else if is_plain(literal, c) {
        Some(full(literal, c))
    } else {
        None
    }
}

/// The character for which a letter behind `\` stands.
fn short(letter: char) -> Option<char>
    ensures { result ≡ short letter }
{
    match letter {
        'n' => Some('\n'),
        'r' => Some('\r'),
        't' => Some('\t'),
        '0' => Some('\0'),
        '\\' | '\'' | '"' => Some(letter),
        _ => None,
    }
}

/// From behind `\`.
fn from_escape(literal: Literal, c: char) -> Option<Stage>
    ensures { result ≡ from_escape literal c }
{
    match c {
        'x' => Some(Stage::Hex),
        'u' => match literal {
            Literal::Byte => None,
            _ => Some(Stage::Unicode),
        },
        _ => {
            let value = short(c)?;
            Some(full(literal, value))
        }
    }
}

/// From behind `\x`. Of a byte both digits are free, else the first is below 8.
fn from_hex(literal: Literal, c: char) -> Option<Stage>
    ensures { result ≡ from_hex literal c }
{
    let digit = c.to_digit(16)?;
    match literal {
        Literal::Byte => Some(Stage::Digit(digit)),
        _ if digit < 8 => Some(Stage::Digit(digit)),
        _ => None,
    }
}

/// The value with one more hexadecimal digit, if there is room for it.
fn plus_hex(value: u32, c: char) -> Option<u32>
    ensures { result ≡ plus_hex value c }
{
    let digit = c.to_digit(16)?;
    let shifted = value.checked_mul(16)?;
    shifted.checked_add(digit)
}

/// From behind `\x` and a digit.
fn from_digit(literal: Literal, high: u32, c: char) -> Option<Stage>
    ensures { result ≡ from_digit literal high c }
{
    let value = plus_hex(high, c)?;
    full_value(literal, value)
}

/// Behind one more digit between braces. The sixth has to end the value of a character.
fn grown(count: u32, more: u32) -> Option<Stage>
    ensures { result ≡ grown count more }
{
    if count < 5 || (count == 5 && char::from_u32(more).is_some()) {
        Some(Stage::Digits(count + 1, more))
    } else {
        None
    }
}

/// Behind the brace that ends so many digits.
fn closed(literal: Literal, count: u32, value: u32) -> Option<Stage>
    ensures { result ≡ closed literal count value }
{
    if count == 0 {
        None
    } else {
        full_value(literal, value)
    }
}

/// From behind `\u{` and so many digits of this value.
fn from_digits(literal: Literal, count: u32, value: u32, c: char) -> Option<Stage>
    ensures { result ≡ from_digits literal count value c }
{
    if c == '}' {
        return closed(literal, count, value);
    }
    let more = plus_hex(value, c)?;
    grown(count, more)
}

/// The stage behind one more character, if some literal goes on so.
#[tactic(auto, unfolding(crate::specs::Stages::next_stage))]
fn next_stage(literal: Literal, stage: Stage, c: char) -> Option<Stage>
    ensures { result ≡ next_stage literal stage c }
{
    match stage {
        Stage::Open => from_open(literal, c),
        Stage::Escape => from_escape(literal, c),
        Stage::Hex => from_hex(literal, c),
        Stage::Digit(high) => from_digit(literal, high, c),
        Stage::Unicode => if c == '{' {
            Some(Stage::Digits(0, 0))
        } else {
            None
        },
        Stage::Digits(count, value) => from_digits(literal, count, value, c),
        Stage::Full(_) => None,
    }
}

/// The stage to which a text leads, and what follows from where no literal goes on so.
pub fn content(literal: Literal, text: &[char]) -> (Stage, &[char])
    ensures content { (result.0, result.1.now) ≡ content literal Stage.Open text.now }
    ensures shorter { length result.1.now ≤ length text.now }
{
    let mut stage = Stage::Open;
    let mut rest = text;
    while let [c, after @ ..] = rest {
        match next_stage(literal, stage, *c) {
            Some(next) => stage = next,
            None => return (stage, rest),
        }
        rest = after;
    }
    (stage, rest)
}

/// The character whose literal goes on behind its quote with this text, and what follows it.
#[tactic(auto, unfolding(crate::specs::Scan::character_at))]
pub fn character_at(text: &[char]) -> Result<(TokenKind, &[char]), Fault<'_>>
    ensures { Gives (λ x. (x.0, x.1.now)) result (character_at text.now) }
{
    match content(Literal::Character, text) {
        (Stage::Full(c), ['\'', rest @ ..]) => Ok((TokenKind::Character(c), rest)),
        (_, rest) => Err(Fault::Refused(Code::BadLiteral, rest)),
    }
}

/// The byte whose literal goes on behind its quote with this text, and what follows it.
#[tactic(auto, unfolding(crate::specs::Scan::byte_at))]
pub fn byte_at(text: &[char]) -> Result<(TokenKind, &[char]), Fault<'_>>
    ensures { Gives (λ x. (x.0, x.1.now)) result (byte_at text.now) }
{
    match content(Literal::Byte, text) {
        (Stage::Full(c), ['\'', rest @ ..]) if c as u32 <= 0xff => {
            Ok((TokenKind::Byte(c as u8), rest))
        }
        (_, rest) => Err(Fault::Refused(Code::BadLiteral, rest)),
    }
}

/// The text whose literal goes on behind its quote with this text, and what follows it.
#[tactic(auto, unfolding(crate::specs::Scan::text_at))]
pub fn text_at(alloc: Global, text: &[char]) -> Result<(TokenKind, &[char]), Fault<'_>>
    ensures { Gives (λ x. (x.0, x.1.now)) result (text_at text.now) }
{
    match content(Literal::Text, text) {
        (Stage::Open, ['"', rest @ ..]) => {
            let source = encoded(alloc, &text[..text.len() - rest.len() - 1])?;
            Ok((TokenKind::Text(Text { source }), rest))
        }
        (_, rest) => Err(Fault::Refused(Code::BadLiteral, rest)),
    }
}
