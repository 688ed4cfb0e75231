//! Macros: a word, `!` and `(` (the Rust Reference, section "Macros").

ghost use Rattle.std.specs.Prelude.{◌≡◌};
ghost use Rattle.tb_ast.specs.Expressions.{print_word};
ghost use Rattle.tb_syntax.specs.Reading.{Gives};
ghost use Rattle.tb_forms.specs.Fronts.{macro_head_at, optional_comma_at, print_text_at, print_front_at, optional_text_at, panic_front_at, assert_front_at, macro_front_at};

use crate::beginning::has_text;
use crate::front::Front;
use std::alloc::Global;
use tb_ast::{PrintText, TextLiteral};
use tb_lex::Punctuation;
use tb_perm::Span;
use tb_syntax::{Cursor, ReadError};

/// The word, the `!` and the `(`.
#[derive(Clone, Copy, Debug)]
struct MacroHead {
    word: Span,
    bang: Span,
    opening: Span,
}

/// This word, `!` and `(`.
#[tactic(auto, unfolding(crate::specs::Fronts::macro_head_at))]
fn macro_head<'a>(cursor: Cursor<'a>, name: &str) -> Result<(MacroHead, Cursor<'a>), ReadError>
    ensures { Gives (λ x. ((x.0.word, (x.0.bang, x.0.opening)), x.1)) result (macro_head_at name.now cursor.entry) }
{
    let (word, rest) = cursor.word(name)?;
    let (bang, rest) = rest.punct(Punctuation::Not)?;
    let (opening, rest) = rest.punct(Punctuation::OpenParen)?;
    let head = MacroHead {
        word,
        bang,
        opening,
    };
    Ok((head, rest))
}

/// A comma, if one comes next.
#[tactic(auto, unfolding(crate::specs::Fronts::optional_comma_at))]
pub(crate) fn optional_comma<'a>(
    cursor: Cursor<'a>,
) -> Result<(Option<Span>, Cursor<'a>), ReadError>
    ensures { Gives (λ x. x) result (optional_comma_at cursor.entry) }
{
    if !cursor.has_mark(Punctuation::Comma) {
        return Ok((None, cursor));
    }
    let (comma, rest) = cursor.punct(Punctuation::Comma)?;
    Ok((Some(comma), rest))
}

/// The text of a `print!` or a `println!`, and the comma behind it; a `println!` may have none.
#[tactic(auto, unfolding(crate::specs::Fronts::print_text_at))]
fn print_text<'a>(
    cursor: Cursor<'a>,
    alloc: Global,
    newline: bool,
) -> Result<(Option<PrintText>, Cursor<'a>), ReadError>
    ensures { Gives (λ x. x) result (print_text_at newline cursor.entry) }
{
    if has_text(&cursor) {
        let (text, rest) = cursor.text(alloc)?;
        let (comma, rest) = optional_comma(rest)?;
        return Ok((Some(PrintText { text, comma }), rest));
    }
    if newline {
        return Ok((None, cursor));
    }
    Err(ReadError::Unexpected)
}

/// The word of a `print!`, or of a `println!`.
fn print_word(newline: bool) -> &'static str
    ensures { result.now ≡ print_word newline }
{
    if newline { "println" } else { "print" }
}

#[tactic(auto, unfolding(crate::specs::Fronts::print_front_at))]
fn print_front<'a>(
    cursor: Cursor<'a>,
    alloc: Global,
    newline: bool,
) -> Result<(Front, Cursor<'a>), ReadError>
    ensures { Gives (λ x. x) result (print_front_at newline cursor.entry) }
{
    let (head, rest) = macro_head(cursor, print_word(newline))?;
    let (text, rest) = print_text(rest, alloc, newline)?;
    let front = Front::Print {
        word: head.word,
        newline,
        bang: head.bang,
        opening: head.opening,
        text,
    };
    Ok((front, rest))
}

/// A text, if one comes next.
#[tactic(auto, unfolding(crate::specs::Fronts::optional_text_at))]
fn optional_text<'a>(
    cursor: Cursor<'a>,
    alloc: Global,
) -> Result<(Option<TextLiteral>, Cursor<'a>), ReadError>
    ensures { Gives (λ x. x) result (optional_text_at cursor.entry) }
{
    if !has_text(&cursor) {
        return Ok((None, cursor));
    }
    let (text, rest) = cursor.text(alloc)?;
    Ok((Some(text), rest))
}

#[tactic(auto, unfolding(crate::specs::Fronts::panic_front_at))]
fn panic_front<'a>(cursor: Cursor<'a>, alloc: Global) -> Result<(Front, Cursor<'a>), ReadError>
    ensures { Gives (λ x. x) result (panic_front_at cursor.entry) }
{
    let (head, rest) = macro_head(cursor, "panic")?;
    let (text, rest) = optional_text(rest, alloc)?;
    let (closing, rest) = rest.punct(Punctuation::CloseParen)?;
    let front = Front::Panic {
        word: head.word,
        bang: head.bang,
        opening: head.opening,
        text,
        closing,
    };
    Ok((front, rest))
}

#[tactic(auto, unfolding(crate::specs::Fronts::assert_front_at))]
fn assert_front<'a>(cursor: Cursor<'a>) -> Result<(Front, Cursor<'a>), ReadError>
    ensures { Gives (λ x. x) result (assert_front_at cursor.entry) }
{
    let (head, rest) = macro_head(cursor, "assert")?;
    let front = Front::Assert {
        word: head.word,
        bang: head.bang,
        opening: head.opening,
    };
    Ok((front, rest))
}

/// The macro that comes next, up to its first expression.
#[tactic(auto, unfolding(crate::specs::Fronts::macro_front_at))]
pub(crate) fn macro_front<'a>(
    cursor: Cursor<'a>,
    alloc: Global,
) -> Result<(Front, Cursor<'a>), ReadError>
    ensures { Gives (λ x. x) result (macro_front_at cursor.entry) }
{
    if cursor.has_word("print") {
        return print_front(cursor, alloc, false);
    }
    if cursor.has_word("println") {
        return print_front(cursor, alloc, true);
    }
    if cursor.has_word("panic") {
        return panic_front(cursor, alloc);
    }
    assert_front(cursor)
}
