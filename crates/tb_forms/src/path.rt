//! Paths in expressions.

ghost use Rattle.std.specs.Prelude.{◌≡◌};
ghost use Rattle.tb_syntax.specs.Reading.{Gives};
ghost use Rattle.tb_forms.specs.Fronts.{path_span, expr_path_at, opens_literal, path_goes_on, path_front_at};

use crate::front::Front;
use crate::place::Where;
use std::alloc::Global;
use tb_ast::{ExprPath, Path, Turbofish};
use tb_lex::Punctuation;
use tb_perm::Span;
use tb_syntax::{Cursor, ReadError, from_to};

/// From the first segment to the last, or to the `>` behind them.
fn path_span(path: &Path, turbofish: &Option<Turbofish>) -> Span
    ensures { result ≡ path_span path.now turbofish.now }
{
    match turbofish {
        Some(turbofish) => from_to(path.span, turbofish.closing.span),
        None => path.span,
    }
}

/// A path, with or without `::<T>`.
#[tactic(auto, unfolding(crate::specs::Fronts::expr_path_at))]
fn expr_path<'a>(
    cursor: Cursor<'a>,
    alloc: Global,
    depth: u32,
) -> Result<(ExprPath, Cursor<'a>), ReadError>
    ensures { Gives (λ x. x) result (expr_path_at depth cursor.entry) }
{
    let (path, rest) = cursor.path(alloc)?;
    let (turbofish, rest) = rest.turbofish(alloc, depth)?;
    let span = path_span(&path, &turbofish);
    let path = ExprPath {
        span,
        path,
        turbofish,
    };
    Ok((path, rest))
}

/// Whether `{` comes next, and opens a struct literal behind a path in this place.
fn opens_literal(cursor: &Cursor<'_>, place: Where, turbofish: &Option<Turbofish>) -> bool
    ensures { result ≡ opens_literal place turbofish.now cursor.now }
{
    match place {
        Where::Anywhere => turbofish.is_none() && cursor.has_mark(Punctuation::OpenBrace),
        Where::Condition => false,
    }
}

/// A call, a struct literal, or the path alone.
fn path_goes_on<'a>(
    cursor: Cursor<'a>,
    place: Where,
    path: ExprPath,
) -> Result<(Front, Cursor<'a>), ReadError>
    ensures { Gives (λ x. x) result (path_goes_on place path cursor.entry) }
{
    if cursor.has_mark(Punctuation::OpenParen) {
        let (opening, rest) = cursor.punct(Punctuation::OpenParen)?;
        let callee = path;
        return Ok((Front::Call { callee, opening }, rest));
    }
    if opens_literal(&cursor, place, &path.turbofish) {
        let (opening, rest) = cursor.punct(Punctuation::OpenBrace)?;
        let ExprPath { path, .. } = path;
        return Ok((Front::StructLiteral { path, opening }, rest));
    }
    Ok((Front::Path(path), cursor))
}

/// What begins with a path: a call, a struct literal, or the path alone.
#[tactic(auto, unfolding(crate::specs::Fronts::path_front_at))]
pub(crate) fn path_front<'a>(
    cursor: Cursor<'a>,
    alloc: Global,
    depth: u32,
    place: Where,
) -> Result<(Front, Cursor<'a>), ReadError>
    ensures { Gives (λ x. x) result (path_front_at depth place cursor.entry) }
{
    let (path, rest) = expr_path(cursor, alloc, depth)?;
    path_goes_on(rest, place, path)
}
