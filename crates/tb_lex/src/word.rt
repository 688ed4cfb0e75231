//! Identifiers, keywords and lifetimes.

ghost use Rattle.std.specs.Prelude.{◌≡◌, ◌≤◌, length};
ghost use Rattle.std.specs.Str.{encode_utf8_all};
ghost use Rattle.tb_lex.specs.Characters.{is_continue, after_front};
ghost use Rattle.tb_lex.specs.Scan.{Gives, word_kind, word_at, is_lifetime, lifetime_at};

use crate::character::{begins_with, is_continue, is_start};
use crate::error::Fault;
use crate::keyword::keyword_of;
use crate::token::{Name, TokenKind};
use sqlite_items::Items;
use std::alloc::Global;

/// What follows the identifier characters at the front.
pub fn after_word(text: &[char]) -> &[char]
    ensures after { result.now ≡ after_front is_continue text.now }
    ensures shorter { length result.now ≤ length text.now }
{
    let mut rest = text;
    while let [c, after @ ..] = rest {
        if !is_continue(*c) {
            return rest;
        }
        rest = after;
    }
    rest
}

/// The characters in UTF-8.
pub fn encoded<'a>(alloc: Global, text: &[char]) -> Result<Items<u8>, Fault<'a>>
    ensures { Gives (λ bytes. bytes) result (Ok (encode_utf8_all text.now)) }
{
    let mut bytes = String::new(alloc);
    for c in text {
        bytes.push(*c).map_err(|_| Fault::Memory)?;
    }
    Ok(Items::from_vec(bytes.into_bytes()))
}

/// What a word is.
#[tactic(auto, unfolding(crate::specs::Scan::word_kind))]
fn word_kind<'a>(alloc: Global, word: &[char]) -> Result<TokenKind, Fault<'a>>
    ensures { Gives (λ kind. kind) result (Ok (word_kind word.now)) }
{
    if let ['_'] = word {
        return Ok(TokenKind::Underscore);
    }
    if let Some(keyword) = keyword_of(word) {
        return Ok(TokenKind::Keyword(keyword));
    }
    let bytes = encoded(alloc, word)?;
    Ok(TokenKind::Name(Name { bytes }))
}

/// The word at the front, and what follows it.
#[tactic(auto, using(crate::proofs::Fronts::cuts), unfolding(crate::specs::Scan::word_at))]
pub fn word_at(alloc: Global, text: &[char]) -> Result<(TokenKind, &[char]), Fault<'_>>
    ensures { Gives (λ x. (x.0, x.1.now)) result (word_at text.now) }
{
    let rest = after_word(text);
    let kind = word_kind(alloc, &text[..text.len() - rest.len()])?;
    Ok((kind, rest))
}

/// Whether the text behind a `'` begins with the word of a lifetime.
pub fn is_lifetime(text: &[char]) -> bool
    ensures { result ≡ is_lifetime text.now }
{
    match text {
        [] => false,
        [first, ..] => is_start(*first) && !begins_with('\'', after_word(text)),
    }
}

/// The lifetime whose word stands at the front, and what follows it.
#[tactic(auto, using(crate::proofs::Fronts::cuts), unfolding(crate::specs::Scan::lifetime_at))]
pub fn lifetime_at(alloc: Global, text: &[char]) -> Result<(TokenKind, &[char]), Fault<'_>>
    ensures { Gives (λ x. (x.0, x.1.now)) result (lifetime_at text.now) }
{
    let rest = after_word(text);
    let bytes = encoded(alloc, &text[..text.len() - rest.len()])?;
    Ok((TokenKind::Lifetime(Name { bytes }), rest))
}
