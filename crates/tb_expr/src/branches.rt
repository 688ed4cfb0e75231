//! What stands behind `if`, `while` and `else`.

ghost use Rattle.std.specs.Prelude.{◌≡◌};
ghost use Rattle.tb_syntax.specs.Reading.{Gives};
ghost use Rattle.tb_expr.specs.Exprs.{tested_at, else_at, expr_at};

use crate::blocks::block_within;
use crate::expressions::expr_within;
use sqlite_items::Boxed;
use std::alloc::Global;
use tb_ast::{Block, Else, Expr};
use tb_forms::{LOOSEST_LEVEL, OPERAND_ALONE, Where};
use tb_lex::Keyword;
use tb_syntax::{Cursor, ReadError};

/// A condition and a block.
#[cycle(expressions)]
#[tactic(auto, unfolding(crate::specs::Exprs::tested_at))]
pub fn tested<'a>(
    cursor: Cursor<'a>,
    alloc: Global,
    depth: u32,
) -> Result<(Boxed<Expr>, Block, Cursor<'a>), ReadError>
    ensures { Gives (λ x. ((x.0, x.1), x.2)) result (tested_at depth (expr_at depth) cursor.entry) }
{
    let (condition, rest) = expr_within(cursor, alloc, depth, Where::Condition, LOOSEST_LEVEL)?;
    let (body, rest) = block_within(rest, alloc, depth)?;
    Ok((condition, body, rest))
}

/// `else` with the block or the `if` behind it, if it comes next.
#[cycle(expressions)]
#[tactic(auto, unfolding(crate::specs::Exprs::else_at, crate::specs::Exprs::branch_at))]
pub fn read_else<'a>(
    cursor: Cursor<'a>,
    alloc: Global,
    depth: u32,
) -> Result<(Option<Else>, Cursor<'a>), ReadError>
    ensures { Gives (λ x. x) result (else_at depth (expr_at depth) cursor.entry) }
{
    if !cursor.has_keyword(Keyword::Else) {
        return Ok((None, cursor));
    }
    let (else_keyword, rest) = cursor.keyword(Keyword::Else)?;
    if rest.has_keyword(Keyword::If) {
        let (branch, rest) = expr_within(rest, alloc, depth, Where::Anywhere, OPERAND_ALONE)?;
        let otherwise = Else::ElseIf {
            else_keyword,
            branch,
        };
        return Ok((Some(otherwise), rest));
    }
    let (body, rest) = block_within(rest, alloc, depth)?;
    Ok((Some(Else::ElseBlock { else_keyword, body }), rest))
}
