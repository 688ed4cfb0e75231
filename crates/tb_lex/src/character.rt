//! Characters, and words of ASCII among them.

ghost use Rattle.std.specs.Prelude.{◌≡◌, ◌≤◌, ◌-◌, length};
ghost use Rattle.std.specs.Option.{option_copied};
ghost use Rattle.std.specs.Str.{bytes_eq};
ghost use Rattle.tb_lex.specs.Characters.{is_space, is_start, is_continue, begins, tail, width};
ghost use Rattle.tb_lex.specs.Tables.{strip};

use unicode_ident::{is_xid_continue, is_xid_start};

/// Whether a character is white space: a space, a tab, a line feed, a vertical tab, a form feed or a
/// carriage return.
pub fn is_space(c: char) -> bool
    ensures { result ≡ is_space c }
{
    matches!(c, '\t'..='\r' | ' ')
}

/// Whether an identifier may begin with a character.
pub fn is_start(c: char) -> bool
    ensures { result ≡ is_start c }
{
    is_xid_start(c) || c == '_'
}

/// Whether an identifier may go on with a character.
pub fn is_continue(c: char) -> bool
    ensures { result ≡ is_continue c }
{
    is_xid_continue(c)
}

/// Whether a text begins with this character.
pub fn begins_with(wanted: char, text: &[char]) -> bool
    ensures { result ≡ begins wanted text.now }
{
    match text {
        [] => false,
        [c, ..] => *c == wanted,
    }
}

/// A text without its first character.
pub fn tail(text: &[char]) -> &[char]
    ensures tail { result.now ≡ tail text.now }
    ensures length { length result.now ≡ length text.now - 1 }
{
    match text {
        [] => text,
        [_, rest @ ..] => rest,
    }
}

/// What follows an ASCII word at the front of a text, if it stands there.
#[tactic(auto, using(crate::proofs::Strips::steps))]
pub fn strip<'a>(word: &str, text: &'a [char]) -> Option<&'a [char]>
    ensures { option_copied result ≡ strip word.now text.now }
{
    let mut rest = text;
    for byte in word.as_bytes() {
        if !begins_with(char::from(*byte), rest) {
            return None;
        }
        rest = tail(rest);
    }
    Some(rest)
}

/// Whether a text is this ASCII word.
#[tactic(auto, using(crate::proofs::Strips::whole))]
pub fn is_text(text: &[char], word: &str) -> bool
    ensures { result ≡ bytes_eq text.now word.now }
{
    match strip(word, text) {
        Some(rest) => rest.len() == 0,
        None => false,
    }
}

/// How many bytes a text takes in UTF-8.
pub fn width_of(text: &[char]) -> u32
    requires { width text.now ≤ 1048576 }
    ensures { result ≡ width text.now }
{
    let mut width = 0;
    for c in text {
        width += c.len_utf8() as u32;
    }
    width
}
