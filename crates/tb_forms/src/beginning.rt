//! What comes next.

ghost use Rattle.std.specs.Prelude.{◌≡◌};
ghost use Rattle.tb_forms.specs.Beginnings.{mark_begins, keyword_begins, kind_begins, begins_expr, mark_blocks, keyword_blocks, kind_blocks, begins_blocky, begins_raw, is_text, has_text};

use tb_lex::{Keyword, Punctuation, TokenKind};
use tb_syntax::Cursor;

fn mark_begins(mark: Punctuation) -> bool
    ensures { result ≡ mark_begins mark }
{
    matches!(
        mark,
        Punctuation::OpenParen
            | Punctuation::OpenBracket
            | Punctuation::OpenBrace
            | Punctuation::Minus
            | Punctuation::Not
            | Punctuation::Star
            | Punctuation::And
            | Punctuation::AndAnd
    )
}

fn keyword_begins(word: Keyword) -> bool
    ensures { result ≡ keyword_begins word }
{
    matches!(
        word,
        Keyword::True
            | Keyword::False
            | Keyword::Unsafe
            | Keyword::While
            | Keyword::Loop
            | Keyword::If
            | Keyword::Return
            | Keyword::Break
            | Keyword::Continue
    )
}

fn kind_begins(kind: &TokenKind) -> bool
    ensures { result ≡ kind_begins kind.now }
{
    match kind {
        TokenKind::Name(_) | TokenKind::Integer(_) | TokenKind::Character(_) | TokenKind::Byte(_) =>
            true,
        TokenKind::Keyword(word) => keyword_begins(*word),
        _ => false,
    }
}

/// Whether an expression begins with what comes next: with a literal, a name, an opening bracket, a
/// prefix or one of the words `unsafe`, `while`, `loop`, `if`, `return`, `break` and `continue`.
#[tactic(auto, unfolding(crate::specs::Beginnings::begins_expr))]
pub fn begins_expr(cursor: &Cursor<'_>) -> bool
    ensures begins { result ≡ begins_expr cursor.now }
{
    match cursor.first_mark() {
        Some((mark, _, _)) => mark_begins(mark),
        None => match cursor.kind() {
            Some(kind) => kind_begins(kind),
            None => false,
        },
    }
}

fn mark_blocks(mark: Punctuation) -> bool
    ensures { result ≡ mark_blocks mark }
{
    matches!(mark, Punctuation::OpenBrace)
}

fn keyword_blocks(word: Keyword) -> bool
    ensures { result ≡ keyword_blocks word }
{
    matches!(
        word,
        Keyword::Unsafe | Keyword::While | Keyword::Loop | Keyword::If
    )
}

fn kind_blocks(kind: &TokenKind) -> bool
    ensures { result ≡ kind_blocks kind.now }
{
    match kind {
        TokenKind::Keyword(word) => keyword_blocks(*word),
        _ => false,
    }
}

/// Whether a block comes next, or an `unsafe` block, a `while`, a `loop` or an `if`: what is a whole
/// statement without `;` (the Rust Reference, section "Statements").
#[tactic(auto, unfolding(crate::specs::Beginnings::begins_blocky))]
pub fn begins_blocky(cursor: &Cursor<'_>) -> bool
    ensures begins { result ≡ begins_blocky cursor.now }
{
    match cursor.first_mark() {
        Some((mark, _, _)) => mark_blocks(mark),
        None => match cursor.kind() {
            Some(kind) => kind_blocks(kind),
            None => false,
        },
    }
}

/// Whether `raw` comes next as a word, before `const` or `mut`, and not as a name.
#[tactic(auto, unfolding(crate::specs::Beginnings::begins_raw))]
pub(crate) fn begins_raw(cursor: &Cursor<'_>) -> bool
    ensures { result ≡ begins_raw cursor.now }
{
    match cursor.next_word("raw") {
        Some((_, rest)) => rest.has_keyword(Keyword::Const) || rest.has_keyword(Keyword::Mut),
        None => false,
    }
}

fn is_text(kind: &TokenKind) -> bool
    ensures { result ≡ is_text kind.now }
{
    matches!(kind, TokenKind::Text(_))
}

/// Whether a text comes next.
#[tactic(auto, unfolding(crate::specs::Beginnings::has_text))]
pub(crate) fn has_text(cursor: &Cursor<'_>) -> bool
    ensures { result ≡ has_text cursor.now }
{
    match cursor.kind() {
        Some(kind) => is_text(kind),
        None => false,
    }
}
