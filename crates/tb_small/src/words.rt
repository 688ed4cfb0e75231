//! White space, words, and places.

ghost use Rattle.std.specs.Prelude.{◌≡◌, ◌-◌, ◌≤◌, length};
ghost use Rattle.std.specs.Char.{is_ascii_digit};
ghost use Rattle.std.specs.List.{list_all, list_any};
ghost use Rattle.std.specs.Str.{bytes_eq};
ghost use Rattle.tb_small.specs.Words.{is_space, is_word_byte, after_space, begins_with, begins_word, begins_digit, is_lengthened, is_apart, is_keyword, is_name, is_number};
ghost use Rattle.tb_small.specs.Reading.{Gives, strip, eat, word_of, after_word, has_word, has_byte, span_of, name_at};

use crate::error::SmallError;
use tb_perm::Span;

/// The keywords that have a rule in this language.
const USED_KEYWORDS: [&[u8]; 18] = [
    b"as",
    b"break",
    b"const",
    b"continue",
    b"else",
    b"extern",
    b"false",
    b"fn",
    b"if",
    b"let",
    b"loop",
    b"mut",
    b"return",
    b"struct",
    b"true",
    b"unsafe",
    b"use",
    b"while",
];

/// The other keywords of Rust.
const RESERVED_KEYWORDS: [&[u8]; 20] = [
    b"async", b"await", b"crate", b"dyn", b"enum", b"for", b"impl", b"in", b"match", b"mod",
    b"move", b"pub", b"ref", b"self", b"Self", b"static", b"super", b"trait", b"type", b"where",
];

fn is_space(byte: u8) -> bool
    ensures { result ≡ is_space byte }
{
    byte == b' ' || byte == b'\n'
}

fn is_word_byte(byte: u8) -> bool
    ensures { result ≡ is_word_byte byte }
{
    byte.is_ascii_alphanumeric() || byte == b'_'
}

/// The text after the white space at its front.
pub fn after_space(text: &[u8]) -> &[u8]
    ensures { result.now ≡ after_space text.now }
{
    let mut rest = text;
    while let [first, after @ ..] = rest {
        if !is_space(*first) {
            return rest;
        }
        rest = after;
    }
    rest
}

fn begins_word(text: &[u8]) -> bool
    ensures { result ≡ begins_word text.now }
{
    match text {
        [] => false,
        [first, ..] => is_word_byte(*first),
    }
}

fn begins_digit(text: &[u8]) -> bool
    ensures { result ≡ begins_digit text.now }
{
    match text {
        [] => false,
        [first, ..] => first.is_ascii_digit(),
    }
}

/// Whether this byte is at the front.
pub fn begins_with(wanted: u8, text: &[u8]) -> bool
    ensures { result ≡ begins_with wanted text.now }
{
    match text {
        [] => false,
        [byte, ..] => *byte == wanted,
    }
}

/// Whether the rest makes a sign a longer one.
fn is_lengthened(word: &[u8], rest: &[u8]) -> bool
    ensures { result ≡ is_lengthened word.now rest.now }
{
    match word {
        [b'!' | b'*' | b'+' | b'=', ..] => begins_with(b'=', rest),
        [b'&', ..] => begins_with(b'=', rest) || begins_with(b'&', rest),
        _ => false,
    }
}

fn is_apart(word: &[u8], rest: &[u8]) -> bool
    ensures { result ≡ is_apart word.now rest.now }
{
    !(begins_word(word) && begins_word(rest)) && !is_lengthened(word, rest)
}

/// What follows the word at the front of the text.
fn strip<'a>(word: &[u8], text: &'a [u8]) -> Result<&'a [u8], SmallError>
    ensures { Gives (λ rest. rest.now) result (strip word.now text.now) }
{
    match text.strip_prefix(word) {
        Some(rest) => Ok(rest),
        None => Err(SmallError::NotBuilt),
    }
}

/// What follows the word, which stands next in the text.
#[tactic(auto, unfolding(crate::specs::Reading::eat))]
pub fn eat<'a>(word: &[u8], text: &'a [u8]) -> Result<&'a [u8], SmallError>
    ensures { Gives (λ rest. rest.now) result (eat word.now text.now) }
{
    let rest = strip(word, after_space(text))?;
    if is_apart(word, rest) {
        Ok(rest)
    } else {
        Err(SmallError::NotBuilt)
    }
}

/// What follows the bytes of identifiers at the front.
fn after_word(text: &[u8]) -> &[u8]
    ensures after { result.now ≡ after_word text.now }
    ensures shorter { length result.now ≤ length text.now }
{
    let mut rest = text;
    while let [first, after @ ..] = rest {
        if !is_word_byte(*first) {
            return rest;
        }
        rest = after;
    }
    rest
}

/// The bytes of identifiers that come next, if any, and what follows them.
pub fn next_word(text: &[u8]) -> (&[u8], &[u8])
    ensures word { result.0.now ≡ word_of (after_space text.now) }
    ensures rest { result.1.now ≡ after_word (after_space text.now) }
{
    let text = after_space(text);
    let rest = after_word(text);
    (&text[..text.len() - rest.len()], rest)
}

/// Whether this word comes next.
pub fn has_word(word: &[u8], text: &[u8]) -> bool
    ensures { result ≡ has_word word.now text.now }
{
    let (next, _) = next_word(text);
    next == word
}

/// Whether this byte comes next.
pub fn has_byte(wanted: u8, text: &[u8]) -> bool
    ensures { result ≡ has_byte wanted text.now }
{
    begins_with(wanted, after_space(text))
}

fn is_among(words: &[&[u8]], word: &[u8]) -> bool
    ensures { result ≡ list_any (λ known. bytes_eq known.now word.now) words.now }
{
    for known in words {
        if *known == word {
            return true;
        }
    }
    false
}

#[tactic(auto, unfolding(crate::specs::Words::is_keyword))]
fn is_keyword(word: &[u8]) -> bool
    ensures { result ≡ is_keyword word.now }
{
    is_among(&USED_KEYWORDS, word) || is_among(&RESERVED_KEYWORDS, word)
}

fn all_word_bytes(word: &[u8]) -> bool
    ensures { result ≡ list_all is_word_byte word.now }
{
    for byte in word {
        if !is_word_byte(*byte) {
            return false;
        }
    }
    true
}

fn all_digits(word: &[u8]) -> bool
    ensures { result ≡ list_all is_ascii_digit word.now }
{
    for byte in word {
        if !byte.is_ascii_digit() {
            return false;
        }
    }
    true
}

/// Whether a word is an identifier.
pub fn is_name(word: &[u8]) -> bool
    ensures { result ≡ is_name word.now }
{
    begins_word(word)
        && !begins_digit(word)
        && all_word_bytes(word)
        && word != b"_".as_slice()
        && !is_keyword(word)
}

/// Whether a word is decimal digits.
pub fn is_number(word: &[u8]) -> bool
    ensures { result ≡ is_number word.now }
{
    begins_digit(word) && all_digits(word)
}

/// The identifier that comes next, and what follows it.
#[tactic(auto, unfolding(crate::specs::Reading::name_at))]
pub fn name_at(text: &[u8]) -> Result<(&[u8], &[u8]), SmallError>
    ensures { Gives (λ x. (x.0.now, x.1.now)) result (name_at text.now) }
{
    let (word, rest) = next_word(text);
    if is_name(word) {
        Ok((word, rest))
    } else {
        Err(SmallError::NotBuilt)
    }
}

/// Where the rest of a source of this size begins.
fn offset(size: usize, rest: &[u8]) -> u32
    requires { size ≤ 1048576 }
    ensures { result ≡ size - length rest.now }
{
    size.saturating_sub(rest.len()) as u32
}

/// From the token that comes next in the text up to where the rest begins.
pub fn span_of(size: usize, text: &[u8], rest: &[u8]) -> Span
    requires { size ≤ 1048576 }
    ensures { result ≡ span_of size text.now rest.now }
{
    Span {
        lo: offset(size, after_space(text)),
        hi: offset(size, rest),
    }
}
