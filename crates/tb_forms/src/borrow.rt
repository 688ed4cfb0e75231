//! Borrows.

ghost use Rattle.std.specs.Prelude.{◌≡◌};
ghost use Rattle.tb_syntax.specs.Reading.{Gives};
ghost use Rattle.tb_forms.specs.Fronts.{raw_kind, borrow_kind_at, borrow_front_at};

use crate::beginning::begins_raw;
use crate::front::Front;
use tb_ast::Borrow;
use tb_lex::{Keyword, Punctuation};
use tb_perm::Span;
use tb_syntax::{Cursor, ReadError};

/// `const` or `mut` behind `raw`.
fn raw_kind<'a>(cursor: Cursor<'a>, raw: Span) -> Result<(Borrow, Cursor<'a>), ReadError>
    ensures { Gives (λ x. x) result (raw_kind raw cursor.entry) }
{
    if cursor.has_keyword(Keyword::Const) {
        let (const_keyword, rest) = cursor.keyword(Keyword::Const)?;
        let kind = Borrow::RawConst {
            raw_word: raw,
            const_keyword,
        };
        return Ok((kind, rest));
    }
    let (mut_keyword, rest) = cursor.keyword(Keyword::Mut)?;
    let kind = Borrow::RawMut {
        raw_word: raw,
        mut_keyword,
    };
    Ok((kind, rest))
}

/// What stands behind `&`.
#[tactic(auto, unfolding(crate::specs::Fronts::borrow_kind_at))]
fn borrow_kind<'a>(cursor: Cursor<'a>) -> Result<(Borrow, Cursor<'a>), ReadError>
    ensures { Gives (λ x. x) result (borrow_kind_at cursor.entry) }
{
    if cursor.has_keyword(Keyword::Mut) {
        let (mut_keyword, rest) = cursor.keyword(Keyword::Mut)?;
        return Ok((Borrow::Mut { mut_keyword }, rest));
    }
    if begins_raw(&cursor) {
        let (raw, rest) = cursor.word("raw")?;
        return raw_kind(rest, raw);
    }
    Ok((Borrow::Shared, cursor))
}

/// `&`, `&mut`, `&raw const` or `&raw mut`.
#[tactic(auto, unfolding(crate::specs::Fronts::borrow_front_at))]
pub(crate) fn borrow_front<'a>(cursor: Cursor<'a>) -> Result<(Front, Cursor<'a>), ReadError>
    ensures { Gives (λ x. x) result (borrow_front_at cursor.entry) }
{
    let (and, rest) = cursor.mark(Punctuation::And)?;
    let (kind, rest) = borrow_kind(rest)?;
    Ok((Front::Borrow { and, kind }, rest))
}
