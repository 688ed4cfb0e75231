//! Statements and last expressions, one by one.

ghost use Rattle.std.specs.Prelude.{◌≡◌, ◌<◌, IfOk, IsErrOf};
ghost use Rattle.tb_syntax.specs.State.{State};
ghost use Rattle.tb_syntax.specs.Reading.{Gives};
ghost use Rattle.tb_expr.specs.Exprs.{line_in, line_at, expr_at};
ghost use Rattle.tb_expr.specs.Grammar.{IsLineAt, line_depth};

use crate::expressions::expr_within;
use crate::start::{end_line, read_start};
use sqlite_items::Boxed;
use std::alloc::Global;
use tb_ast::{Expr, Stmt};
use tb_forms::Where;
use tb_syntax::{Cursor, ReadError};

/// A statement, or the expression that a block ends with.
#[derive(Debug, Drop)]
pub enum Line {
    Stmt(Stmt),
    /// Before `}`.
    Last(Boxed<Expr>),
}

/// The statement or last expression of a block that comes next, and what follows it.
///
/// `depth` is how many expressions may stand in one another in it; a statement of a depth of at most one
/// more is always read.
///
/// # Errors
///
/// `Unexpected` where nothing such stands there, and `Memory` where the allocator has no room.
#[tactic(auto, unfolding(crate::specs::Exprs::line_at))]
pub fn next_line<'a>(
    cursor: Cursor<'a>,
    alloc: Global,
    depth: u32,
) -> Result<(Line, Cursor<'a>), ReadError>
    ensures gives { Gives (λ x. x) result (line_at depth cursor.entry) }
    ensures read { IfOk result (λ x. IsLineAt cursor.entry x.0 x.1) }
    ensures refused { IsErrOf result ReadError.Unexpected → (other : Line) (rest : State) → IsLineAt cursor.entry other rest → depth < line_depth other }
{
    line_within(cursor, alloc, depth)
}

/// The same, with expressions of at most this depth in it.
#[cycle(expressions)]
#[tactic(auto, unfolding(crate::specs::Exprs::line_in, crate::specs::Exprs::value_at))]
pub fn line_within<'a>(
    cursor: Cursor<'a>,
    alloc: Global,
    depth: u32,
) -> Result<(Line, Cursor<'a>), ReadError>
    ensures { Gives (λ x. x) result (line_in depth (expr_at depth) cursor.entry) }
{
    let (start, rest) = read_start(cursor, alloc, depth)?;
    let Some(most) = start.wants() else {
        return end_line(rest, start, None);
    };
    let (e, rest) = expr_within(rest, alloc, depth, Where::Anywhere, most)?;
    end_line(rest, start, Some(e))
}
