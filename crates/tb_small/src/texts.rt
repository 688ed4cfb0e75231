//! Texts in quotes.

ghost use Rattle.std.specs.Prelude.{◌≤◌, ◌+◌, ◌≡◌, length, IfOk};
ghost use Rattle.tb_small.specs.Grammar.{is_plain};
ghost use Rattle.tb_small.specs.Reading.{Gives, piece_at, holes_at, text_at};

use crate::error::SmallError;
use crate::tree::Text;
use crate::words::{begins_with, eat, span_of};
use sqlite_items::Items;
use std::alloc::Global;

/// Whether a byte stands for itself in a text.
fn is_plain(byte: u8) -> bool
    ensures { result ≡ is_plain byte }
{
    matches!(byte, 0x20..=0x7e) && !matches!(byte, b'"' | b'\\' | b'{' | b'}')
}

/// How many arguments the piece at the front of a text takes, and what follows it.
fn piece_at(text: &[u8]) -> Result<(usize, &[u8]), SmallError>
    ensures piece { Gives (λ x. (x.0, x.1.now)) result (piece_at text.now) }
    ensures shorter { IfOk result (λ x. x.0 + length x.1.now ≤ length text.now) }
{
    match text {
        [b'\\', b'n', rest @ ..] => Ok((0, rest)),
        [b'{', b'}', rest @ ..] => Ok((1, rest)),
        [byte, rest @ ..] if is_plain(*byte) => Ok((0, rest)),
        _ => Err(SmallError::NotBuilt),
    }
}

/// How many arguments the text up to the next quote takes, and the text from the quote on.
#[tactic(auto, using(crate::proofs::Many::loops), unfolding(crate::specs::Reading::holes_at))]
fn holes_at(text: &[u8]) -> Result<(usize, &[u8]), SmallError>
    ensures holes { Gives (λ x. (x.0, x.1.now)) result (holes_at text.now) }
    ensures shorter { IfOk result (λ x. length x.1.now ≤ length text.now) }
{
    let mut holes = 0;
    let mut rest = text;
    for _ in 0..text.len() {
        if begins_with(b'"', rest) {
            return Ok((holes, rest));
        }
        let (more, after) = piece_at(rest)?;
        holes += more;
        rest = after;
    }
    if begins_with(b'"', rest) {
        Ok((holes, rest))
    } else {
        Err(SmallError::NotBuilt)
    }
}

/// The text in quotes that comes next, how many arguments it takes, and what follows it.
#[tactic(auto, unfolding(crate::specs::Reading::text_at))]
pub fn text_at(alloc: Global, size: usize, text: &[u8]) -> Result<(Text, usize, &[u8]), SmallError>
    requires { size ≤ 1048576 }
    ensures { Gives (λ x. (x.0, x.1, x.2.now)) result (text_at size text.now) }
{
    let inner = eat(b"\"", text)?;
    let (holes, quote) = holes_at(inner)?;
    let rest = eat(b"\"", quote)?;
    let source = Items::from_slice(alloc, &inner[..inner.len() - quote.len()]).map_err(
        |_| SmallError::Memory,
    )?;
    let span = span_of(size, text, rest);
    Ok((Text { span, source }, holes, rest))
}
