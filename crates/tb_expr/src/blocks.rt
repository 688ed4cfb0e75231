//! Blocks.

ghost use Rattle.std.specs.Prelude.{◌≡◌, ◌<◌, suc, length, IfOk, IsErrOf};
ghost use Rattle.tb_ast.specs.declared.expression.Block.{Block};
ghost use Rattle.tb_ast.specs.Depth.{block_depth};
ghost use Rattle.tb_syntax.specs.State.{State};
ghost use Rattle.tb_syntax.specs.Reading.{Gives};
ghost use Rattle.tb_expr.specs.Exprs.{lines_in, block_in_at, block_at, expr_at};
ghost use Rattle.tb_expr.specs.Grammar.{IsBlockAt};

use crate::lines::{Line, line_within};
use sqlite_items::{Boxed, Items};
use std::alloc::Global;
use tb_ast::{Block, Expr, Stmt};
use tb_lex::Punctuation;
use tb_syntax::{Cursor, ReadError, from_to};

/// The block that comes next, and what follows it.
///
/// `depth` is how many expressions may stand in one another in it; a block of a depth of at most one
/// more is always read.
///
/// # Errors
///
/// `Unexpected` where no block of this depth stands there, and `Memory` where the allocator has no room.
#[tactic(auto, unfolding(crate::specs::Exprs::block_at))]
pub fn block<'a>(
    cursor: Cursor<'a>,
    alloc: Global,
    depth: u32,
) -> Result<(Block, Cursor<'a>), ReadError>
    ensures gives { Gives (λ x. x) result (block_at depth cursor.entry) }
    ensures read { IfOk result (λ x. IsBlockAt cursor.entry x.0 x.1) }
    ensures refused { IsErrOf result ReadError.Unexpected → (block : Block) (rest : State) → IsBlockAt cursor.entry block rest → suc depth < block_depth block }
{
    block_within(cursor, alloc, depth)
}

/// The block that comes next, with expressions of at most this depth in it.
#[cycle(expressions)]
#[tactic(auto, unfolding(crate::specs::Exprs::block_in_at))]
pub fn block_within<'a>(
    cursor: Cursor<'a>,
    alloc: Global,
    depth: u32,
) -> Result<(Block, Cursor<'a>), ReadError>
    ensures { Gives (λ x. x) result (block_in_at depth (expr_at depth) cursor.entry) }
{
    let (opening, rest) = cursor.punct(Punctuation::OpenBrace)?;
    let (statements, last, rest) = lines(rest, alloc, depth)?;
    let (closing, rest) = rest.punct(Punctuation::CloseBrace)?;
    let block = Block {
        span: from_to(opening, closing),
        opening,
        statements,
        last,
        closing,
    };
    Ok((block, rest))
}

/// Statements, and maybe an expression behind them, up to `}`.
#[cycle(expressions)]
#[tactic(auto, using(crate::proofs::Bodies::lines))]
fn lines<'a>(
    cursor: Cursor<'a>,
    alloc: Global,
    depth: u32,
) -> Result<(Items<Stmt>, Option<Boxed<Expr>>, Cursor<'a>), ReadError>
    ensures { Gives (λ x. ((x.0, x.1), x.2)) result (lines_in depth (expr_at depth) (length cursor.entry) cursor.entry) }
{
    let mut statements = Items::new(alloc);
    let mut rest = cursor;
    for _ in 0..rest.len() {
        if rest.has_mark(Punctuation::CloseBrace) {
            return Ok((statements, None, rest));
        }
        let (line, after) = line_within(rest, alloc, depth)?;
        match line {
            Line::Stmt(statement) => statements.push(statement)?,
            Line::Last(e) => return Ok((statements, Some(e), after)),
        }
        rest = after;
    }
    Err(ReadError::Unexpected)
}
