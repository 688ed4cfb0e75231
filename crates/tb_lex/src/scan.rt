//! What stands at a place of a text.

ghost use Rattle.std.specs.Prelude.{◌≡◌};
ghost use Rattle.std.specs.Option.{option_copied};
ghost use Rattle.tb_lex.specs.Scan.{Gives, quoted_at, mark_at, token_at, comment_at, gap_at};

use crate::character::{begins_with, is_space, is_start, tail};
use crate::comment::{after_block, after_line};
use crate::error::Fault;
use crate::literal::{byte_at, character_at, text_at};
use crate::number::number_at;
use crate::punctuation::punctuation_at;
use crate::token::TokenKind;
use crate::word::{is_lifetime, lifetime_at, word_at};
use std::alloc::Global;
use tb_perm::Code;

/// The lifetime or the character that goes on so behind its first `'`, and what follows it.
#[tactic(auto, unfolding(crate::specs::Scan::quoted_at))]
fn quoted_at(alloc: Global, text: &[char]) -> Result<(TokenKind, &[char]), Fault<'_>>
    ensures { Gives (λ x. (x.0, x.1.now)) result (quoted_at text.now) }
{
    if is_lifetime(text) {
        lifetime_at(alloc, text)
    } else {
        character_at(text)
    }
}

/// The punctuation at the front, and what follows it.
#[tactic(auto, unfolding(crate::specs::Scan::mark_at))]
fn mark_at(text: &[char]) -> Result<(TokenKind, &[char]), Fault<'_>>
    ensures { Gives (λ x. (x.0, x.1.now)) result (mark_at text.now) }
{
    match punctuation_at(text) {
        Some((punctuation, rest)) => Ok((TokenKind::Punctuation(punctuation), rest)),
        None => Err(Fault::Refused(Code::UnknownCharacter, tail(text))),
    }
}

/// The token at the front of a text that does not begin with white space or a comment, and what
/// follows it.
#[tactic(auto, unfolding(crate::specs::Scan::token_at))]
pub fn token_at(alloc: Global, text: &[char]) -> Result<(TokenKind, &[char]), Fault<'_>>
    ensures { Gives (λ x. (x.0, x.1.now)) result (token_at text.now) }
{
    let [first, inner @ ..] = text else {
        return Err(Fault::Refused(Code::UnknownCharacter, text));
    };
    if *first == 'b' && begins_with('\'', inner) {
        return byte_at(tail(inner));
    }
    if *first == '\'' {
        return quoted_at(alloc, inner);
    }
    if *first == '"' {
        return text_at(alloc, inner);
    }
    if first.is_ascii_digit() {
        return number_at(text);
    }
    if is_start(*first) {
        return word_at(alloc, text);
    }
    mark_at(text)
}

/// What follows a comment whose first `/` stands before the text; nothing where none stands there.
#[tactic(auto, unfolding(crate::specs::Scan::comment_at))]
fn comment_at(text: &[char]) -> Result<Option<&[char]>, Fault<'_>>
    ensures { Gives (λ gap. option_copied gap) result (comment_at text.now) }
{
    match text {
        ['/', inner @ ..] => Ok(Some(after_line(inner))),
        ['*', inner @ ..] => match after_block(inner) {
            Some(rest) => Ok(Some(rest)),
            None => Err(Fault::Refused(Code::UnfinishedComment, &[])),
        },
        _ => Ok(None),
    }
}

/// What follows white space or a comment at the front; nothing where neither stands there.
#[tactic(auto, unfolding(crate::specs::Scan::gap_at))]
pub fn gap_at(text: &[char]) -> Result<Option<&[char]>, Fault<'_>>
    ensures { Gives (λ gap. option_copied gap) result (gap_at text.now) }
{
    match text {
        [] => Ok(None),
        [first, rest @ ..] if is_space(*first) => Ok(Some(rest)),
        ['/', rest @ ..] => comment_at(rest),
        _ => Ok(None),
    }
}
