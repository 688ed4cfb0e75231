//! Whole texts.

ghost use Rattle.std.specs.Prelude.{◌≡◌, ◌<◌, ◌≤◌, ◌+◌, ◌-◌, List, [], length, take, IfOk, IfErr};
ghost use Rattle.std.specs.Str.{chars};
ghost use Rattle.tb_perm.specs.declared.code.Code.{Code};
ghost use Rattle.tb_perm.specs.declared.span.Span.{Span};
ghost use Rattle.tb_lex.specs.declared.error.LexError.{LexError};
ghost use Rattle.tb_lex.specs.declared.token.Token.{Token};
ghost use Rattle.tb_lex.specs.Characters.{width};
ghost use Rattle.tb_lex.specs.Growth.{Goes, Follows, IsWithin, refused_at, BeginsFault, HasFault, IsFaultOf};
ghost use Rattle.tb_lex.specs.Scan.{gap_at};
ghost use Rattle.tb_lex.specs.Texts.{Begins, Reads, after_mark, IsLexed, IsRefused, IsCause, AreRising};

use crate::character::width_of;
use crate::error::{Fault, LexError};
use crate::scan::{gap_at, token_at};
use crate::token::{Token, Tokens};
use sqlite_items::Items;
use std::alloc::{AllocError, Global};
use std::str;
use tb_perm::{Code, Span};

/// The place of what follows a piece of a text, which itself stands at this place.
#[tactic(auto, using(crate::proofs::Widths::parts))]
fn place_behind(at: u32, text: &[char], rest: &[char]) -> u32
    requires shorter { length rest.now ≤ length text.now }
    requires room { at + width text.now ≤ 1048576 }
    ensures { result ≡ at + width (take (length text.now - length rest.now) text.now) }
{
    at + width_of(&text[..text.len() - rest.len()])
}

/// The fault as one of a whole text.
fn refused(at: u32, text: &[char], fault: Fault<'_>) -> LexError
    requires within { IsWithin text.now fault }
    requires room { at + width text.now ≤ 1048576 }
    ensures { result ≡ refused_at at text.now fault.entry }
{
    match fault {
        Fault::Refused(code, rest) => LexError::Refused(
            code,
            Span {
                lo: at,
                hi: place_behind(at, text, rest),
            },
        ),
        Fault::Memory => LexError::Memory,
    }
}

/// The token at the front of a text that begins with no gap, and what follows it.
#[tactic(auto, using(crate::proofs::Steps::tokens))]
fn next_token(alloc: Global, at: u32, text: &[char]) -> Result<(Token, &[char]), LexError>
    requires some { 0 < length text.now }
    requires no_gap { gap_at text.now ≡ Ok None }
    requires room { at + width text.now ≤ 1048576 }
    ensures token { IfOk result (λ x. Begins (at + width text.now) text.now x.0 x.1.now) }
    ensures refused { IfErr result (λ error. BeginsFault (at + width text.now) text.now error) }
{
    match token_at(alloc, text) {
        Ok((kind, rest)) => {
            let hi = place_behind(at, text, rest);
            let span = Span { lo: at, hi };
            Ok((Token { kind, span }, rest))
        }
        Err(fault) => Err(refused(at, text, fault)),
    }
}

/// Passes over what stands at the front of a text, keeps it if it is a token, and answers what
/// follows it.
#[tactic(auto, using(crate::proofs::Steps::gaps))]
fn pass<'a>(
    alloc: Global,
    list: &mut Vec<Token>,
    at: u32,
    text: &'a [char],
) -> Result<&'a [char], LexError>
    requires some { 0 < length text.now }
    requires room { at + width text.now ≤ 1048576 }
    ensures goes { IfOk result (λ rest. Goes (at + width text.now) list.old.items text.now list.new.items rest.now) }
    ensures follows { IfOk result (λ rest. Follows text.now rest.now) }
    ensures shorter { IfOk result (λ rest. length rest.now < length text.now) }
    ensures refused { IfErr result (λ error. BeginsFault (at + width text.now) text.now error) }
{
    match gap_at(text) {
        Ok(Some(rest)) => Ok(rest),
        Ok(None) => {
            let (token, rest) = next_token(alloc, at, text)?;
            list.push(token).map_err(|_| LexError::Memory)?;
            Ok(rest)
        }
        Err(fault) => Err(refused(at, text, fault)),
    }
}

/// The tokens of a text from this place on.
fn tokens_from(alloc: Global, start: u32, text: &[char]) -> Result<Items<Token>, LexError>
    requires { start + width text.now ≤ 1048576 }
    ensures tokens { IfOk result (λ list. Reads (start + width text.now) text.now list []) }
    ensures refused { IfErr result (λ error. HasFault (start + width text.now) text.now error) }
{
    let mut list = Vec::new(alloc);
    let mut at = start;
    let mut rest = text;
    while !rest.is_empty() {
        let after = pass(alloc, &mut list, at, rest)?;
        at = place_behind(at, rest, after);
        rest = after;
    }
    Ok(Items::from_vec(list))
}

/// The text without U+FEFF at its front, and how many bytes that takes.
fn after_mark(text: &[char]) -> (u32, &[char])
    ensures rest { result.1.now ≡ after_mark text.now }
    ensures width { result.0 + width result.1.now ≡ width text.now }
{
    match text {
        ['\u{FEFF}', rest @ ..] => (3, rest),
        _ => (0, text),
    }
}

/// The characters of a text.
#[tactic(auto, using(crate::proofs::Whole::decoding))]
pub fn characters_of(alloc: Global, text: &str) -> Result<Vec<char>, AllocError>
    ensures { IfOk result (λ characters. characters.items ≡ chars text.now) }
{
    text.chars().collect(alloc)
}

/// The tokens of these characters.
fn tokens_in(alloc: Global, text: &[char]) -> Result<Items<Token>, LexError>
    requires { width text.now ≤ 1048576 }
    ensures tokens { IfOk result (λ list. Reads (width text.now) (after_mark text.now) list []) }
    ensures refused { IfErr result (λ error. HasFault (width text.now) (after_mark text.now) error) }
{
    let (start, front) = after_mark(text);
    tokens_from(alloc, start, front)
}

/// The tokens of a text that is UTF-8.
#[tactic(auto, using(crate::proofs::Whole::texts))]
fn tokens_of(alloc: Global, text: &str) -> Result<Items<Token>, LexError>
    requires { length text.now ≤ 1048576 }
    ensures tokens { IfOk result (λ list. IsLexed text.now list) }
    ensures refused { IfErr result (λ error. IsFaultOf text.now error) }
{
    let characters = characters_of(alloc, text).map_err(|_| LexError::Memory)?;
    tokens_in(alloc, &characters)
}

/// Reads the tokens of a text.
///
/// A text is UTF-8, and U+FEFF at its front is passed over. Between tokens may stand white space (space,
/// tab, line feed, vertical tab, form feed, carriage return), comments up to a line feed, and block
/// comments, which nest. Each token is the longest that stands at its place.
///
/// # Errors
///
/// `Refused` with the code and the place of the first fault, which no text with tokens has: L1 for the
/// first byte that begins no character, which is looked for before all others; L2 for a character with
/// which nothing begins; L3 for the longest front of a literal that does not end; L4 for a block comment
/// that does not end, up to the end of the text; L5 and L6 for a number with all identifier characters
/// behind it. `Memory` where the allocator has no room.
#[tactic(auto, using(crate::proofs::Whole::laws))]
pub fn lex(alloc: Global, text: &[u8]) -> Result<Tokens, LexError>
    requires { length text.now ≤ 1048576 }
    ensures tokens { IfOk result (λ tokens. IsLexed text.now tokens.list) }
    ensures only { IfOk result (λ tokens. (other : List Token) → IsLexed text.now other → other ≡ tokens.list) }
    ensures sound { IfOk result (λ tokens. (code : Code) (span : Span) → IsRefused text.now code span → ⊥) }
    ensures end { IfOk result (λ tokens. tokens.end ≡ length text.now) }
    ensures rising { IfOk result (λ tokens. AreRising 0 tokens.list tokens.end) }
    ensures refused { IfErr result (λ error. IsCause text.now error) }
{
    match str::from_utf8(text) {
        Ok(valid) => match tokens_of(alloc, valid) {
            Ok(list) => Ok(Tokens {
                list,
                end: text.len() as u32,
            }),
            Err(error) => Err(error),
        },
        Err(error) => {
            let at = error.valid_up_to() as u32;
            Err(LexError::Refused(Code::NotUtf8, Span { lo: at, hi: at + 1 }))
        }
    }
}
