//! Integers.

ghost use Rattle.std.specs.Prelude.{◌≡◌, ◌≤◌, length};
ghost use Rattle.tb_lex.specs.Characters.{after_front};
ghost use Rattle.tb_lex.specs.Scan.{Gives, number_at};
ghost use Rattle.tb_lex.specs.Tokens.{based, is_among_digits};
ghost use Rattle.tb_lex.specs.Numbers.{plus_digit, value_from, number_of, suffixed, integer_of};

use crate::error::Fault;
use crate::suffix::suffix_of;
use crate::token::{Integer, TokenKind};
use crate::word::after_word;
use tb_perm::Code;

/// The base of a number, and what follows its prefix.
fn based(word: &[char]) -> (u32, &[char])
    ensures based { (result.0, result.1.now) ≡ based word.now }
    ensures least { 2 ≤ result.0 }
    ensures most { result.0 ≤ 16 }
{
    match word {
        ['0', 'x', rest @ ..] => (16, rest),
        ['0', 'o', rest @ ..] => (8, rest),
        ['0', 'b', rest @ ..] => (2, rest),
        _ => (10, word),
    }
}

/// Whether a character stands among the digits of a number: a digit, of base 16 one of these, and of
/// another base a decimal one, or `_`.
fn is_among_digits(base: u32, c: char) -> bool
    ensures { result ≡ is_among_digits base c }
{
    c == '_' || c.is_ascii_digit() || (base == 16 && c.is_ascii_hexdigit())
}

/// What follows the digits at the front.
fn after_digits(base: u32, text: &[char]) -> &[char]
    ensures after { result.now ≡ after_front (is_among_digits base) text.now }
    ensures shorter { length result.now ≤ length text.now }
{
    let mut rest = text;
    while let [c, after @ ..] = rest {
        if !is_among_digits(base, *c) {
            return rest;
        }
        rest = after;
    }
    rest
}

/// The value with one more digit, if that is a digit of the base and 64 bits hold it.
fn plus_digit(base: u32, value: u64, c: char) -> Option<u64>
    requires least { 2 ≤ base }
    requires most { base ≤ 16 }
    ensures { result ≡ plus_digit base value c }
{
    let digit = c.to_digit(base)?;
    let shifted = value.checked_mul(u64::from(base))?;
    shifted.checked_add(u64::from(digit))
}

/// The value of digits.
fn value_of(base: u32, digits: &[char]) -> Option<u64>
    requires least { 2 ≤ base }
    requires most { base ≤ 16 }
    ensures { result ≡ value_from base 0 digits.now }
{
    let mut value = 0;
    for c in digits {
        if *c != '_' {
            value = plus_digit(base, value, *c)?;
        }
    }
    Some(value)
}

/// The value of digits that begin with one.
fn number_of(base: u32, digits: &[char]) -> Option<u64>
    requires least { 2 ≤ base }
    requires most { base ≤ 16 }
    ensures { result ≡ number_of base digits.now }
{
    match digits {
        [] | ['_', ..] => None,
        _ => value_of(base, digits),
    }
}

/// The integer of a value with what follows its digits as its suffix.
fn suffixed(value: u64, tail: &[char]) -> Result<Integer, Code>
    ensures { result ≡ suffixed value tail.now }
{
    if let [] = tail {
        return Ok(Integer {
            value,
            suffix: None,
        });
    }
    match suffix_of(tail) {
        Some(suffix) => Ok(Integer {
            value,
            suffix: Some(suffix),
        }),
        None => Err(Code::UnknownSuffix),
    }
}

/// The integer that a word is, or its fault.
#[tactic(auto, using(crate::proofs::Fronts::cuts), unfolding(crate::specs::Numbers::integer_of))]
fn integer_of(word: &[char]) -> Result<Integer, Code>
    ensures { result ≡ integer_of word.now }
{
    let (base, rest) = based(word);
    let tail = after_digits(base, rest);
    let Some(value) = number_of(base, &rest[..rest.len() - tail.len()]) else {
        return Err(Code::BadNumber);
    };
    suffixed(value, tail)
}

/// The integer at the front, with all identifier characters that follow, and what follows these.
#[tactic(auto, using(crate::proofs::Fronts::cuts), unfolding(crate::specs::Scan::number_at))]
pub fn number_at(text: &[char]) -> Result<(TokenKind, &[char]), Fault<'_>>
    ensures { Gives (λ x. (x.0, x.1.now)) result (number_at text.now) }
{
    let rest = after_word(text);
    match integer_of(&text[..text.len() - rest.len()]) {
        Ok(integer) => Ok((TokenKind::Integer(integer), rest)),
        Err(code) => Err(Fault::Refused(code, rest)),
    }
}
