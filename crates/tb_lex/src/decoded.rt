//! The characters that texts stand for.

ghost use Rattle.std.specs.Prelude.{◌≡◌, ◌<◌, List, length, IfOk, IfSome};
ghost use Rattle.std.specs.Option.{option_map};
ghost use Rattle.tb_lex.specs.declared.decoded.TextCharacter.{TextCharacter};
ghost use Rattle.tb_lex.specs.declared.literal.Literal.TheVariants as literal;
ghost use Rattle.tb_lex.specs.declared.literal.Stage.TheVariants.{Open};
ghost use Rattle.tb_lex.specs.Stages.{content};
ghost use Rattle.tb_lex.specs.Decoded.{AreDecoded, IsDecoded, IsTheOnly, escape_read, first_character};

use crate::literal::{Literal, Stage, content};
use crate::source::characters_of;
use crate::token::Text;
use std::alloc::{AllocError, Global};
use std::str;

/// A character that a text stands for.
#[derive(Clone, Copy, Debug, PartialEq, Eq)]
pub struct TextCharacter {
    pub value: char,
    /// Whether an escape stands for it in the source.
    pub escaped: bool,
}

/// The character whose escape stands at the front of a text, and what follows it.
fn escape_at(text: &[char]) -> Option<(TextCharacter, &[char])>
    ensures { option_map (λ x. (x.0, x.1.now)) result ≡ escape_read (content literal.Character Open text.now) }
{
    match content(Literal::Character, text) {
        (Stage::Full(value), rest) => Some((
            TextCharacter {
                value,
                escaped: true,
            },
            rest,
        )),
        _ => None,
    }
}

/// The first character that a text stands for, and what follows it.
fn first_character(text: &[char]) -> Option<(TextCharacter, &[char])>
    ensures { option_map (λ x. (x.0, x.1.now)) result ≡ first_character text.now }
{
    match text {
        [] => None,
        ['\\', ..] => escape_at(text),
        ['"', ..] => None,
        [value, rest @ ..] => Some((
            TextCharacter {
                value: *value,
                escaped: false,
            },
            rest,
        )),
    }
}

/// The characters that a text stands for, if it is one.
#[tactic(auto, using(crate::proofs::Decoding::steps))]
fn characters_in(alloc: Global, text: &[char]) -> Result<Option<Vec<TextCharacter>>, AllocError>
    ensures { IfOk result (λ found. IsTheOnly (λ characters. AreDecoded characters text.now) (option_map (λ list. list.items) found)) }
{
    let mut list = Vec::new(alloc);
    let mut rest = text;
    while !rest.is_empty() {
        let Some((character, after)) = first_character(rest) else {
            return Ok(None);
        };
        list.push(character)?;
        rest = after;
    }
    Ok(Some(list))
}

impl Text {
    /// The characters that the text stands for, each escape being one: `None` where the source is no
    /// text between quotes, as that of a token always is.
    #[tactic(auto, using(crate::proofs::Decoding::texts))]
    pub fn characters(&self, alloc: Global) -> Result<Option<Vec<TextCharacter>>, AllocError>
        ensures characters { IfOk result (λ found. IsTheOnly (IsDecoded self.now.source) (option_map (λ list. list.items) found)) }
    {
        match str::from_utf8(self.source.as_slice()) {
            Ok(valid) => {
                let characters = characters_of(alloc, valid)?;
                characters_in(alloc, &characters)
            }
            Err(_) => Ok(None),
        }
    }
}
