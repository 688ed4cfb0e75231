//! Operands, and what goes on behind them.

ghost use Rattle.std.specs.Prelude.{◌≡◌, ◌<◌, true, Some, IfOk, IsErrOf};
ghost use Rattle.tb_ast.specs.declared.expression.Expr.{Expr};
ghost use Rattle.tb_ast.specs.Depth.{expr_depth};
ghost use Rattle.tb_syntax.specs.State.{State};
ghost use Rattle.tb_syntax.specs.Reading.{Gives};
ghost use Rattle.tb_forms.specs.declared.place.Where.TheVariants.{Anywhere};
ghost use Rattle.tb_forms.specs.Levels.{loosest_level};
ghost use Rattle.tb_expr.specs.Exprs.{got_at, operand_at, further_at, longest_at, expr_at};
ghost use Rattle.tb_expr.specs.Grammar.{IsWholeAt};

use crate::blocks::block_within;
use crate::branches::{read_else, tested};
use crate::lists::{fields, values};
use sqlite_items::Boxed;
use std::alloc::Global;
use tb_ast::Expr;
use tb_forms::{Got, LOOSEST_LEVEL, Wanted, Where};
use tb_syntax::{Cursor, ReadError};

/// The expression that comes next, as far as it goes, and what follows it.
///
/// A struct literal may stand in it. `depth` is how many expressions may stand in one another, the
/// expression itself included; one of no greater depth is always read.
///
/// # Errors
///
/// `Unexpected` where no expression of this depth stands there, and `Memory` where the allocator has no room.
pub fn expression<'a>(
    cursor: Cursor<'a>,
    alloc: Global,
    depth: u32,
) -> Result<(Boxed<Expr>, Cursor<'a>), ReadError>
    ensures gives { Gives (λ x. x) result (expr_at depth Anywhere loosest_level cursor.entry) }
    ensures read { IfOk result (λ x. IsWholeAt Anywhere loosest_level cursor.entry x.0 x.1) }
    ensures refused { IsErrOf result ReadError.Unexpected → (e : Expr) (rest : State) → IsWholeAt Anywhere loosest_level cursor.entry e rest → depth < expr_depth e }
{
    expr_within(cursor, alloc, depth, Where::Anywhere, LOOSEST_LEVEL)
}

/// The expression that comes next in this place, up to this level.
#[cycle(expressions)]
#[tactic(auto, using(crate::proofs::Fuel::expressions))]
pub fn expr_within<'a>(
    cursor: Cursor<'a>,
    alloc: Global,
    depth: u32,
    place: Where,
    most: u32,
) -> Result<(Boxed<Expr>, Cursor<'a>), ReadError>
    ensures { Gives (λ x. x) result (expr_at depth place most cursor.entry) }
{
    if depth == 0 {
        return Err(ReadError::Unexpected);
    }
    let (left, rest) = operand(cursor, alloc, depth - 1, place)?;
    longest(rest, alloc, depth - 1, place, most, depth, left)
}

/// The operand that comes next, with expressions of at most this depth in it.
#[cycle(expressions)]
#[tactic(auto, unfolding(crate::specs::Exprs::operand_at))]
fn operand<'a>(
    cursor: Cursor<'a>,
    alloc: Global,
    depth: u32,
    place: Where,
) -> Result<(Boxed<Expr>, Cursor<'a>), ReadError>
    ensures { Gives (λ x. x) result (operand_at depth (expr_at depth) place cursor.entry) }
{
    let (front, rest) = tb_forms::read_front(cursor, alloc, depth, place)?;
    let wanted = front.wants(&rest, place);
    let (got, rest) = read_wanted(rest, alloc, depth, wanted)?;
    tb_forms::finish(rest, alloc, front, got)
}

/// What a form wants, with expressions of at most this depth in it.
#[cycle(expressions)]
#[tactic(auto, unfolding(crate::specs::Exprs::got_at))]
fn read_wanted<'a>(
    cursor: Cursor<'a>,
    alloc: Global,
    depth: u32,
    wanted: Wanted,
) -> Result<(Got, Cursor<'a>), ReadError>
    ensures { Gives (λ x. x) result (got_at depth (expr_at depth) wanted cursor.entry) }
{
    match wanted {
        Wanted::Nothing => Ok((Got::Nothing, cursor)),
        Wanted::One { place, most } => {
            let (e, rest) = expr_within(cursor, alloc, depth, place, most)?;
            Ok((Got::One(e), rest))
        }
        Wanted::Values { close } => {
            let (values, commas, rest) = values(cursor, alloc, depth, close)?;
            Ok((Got::Values { values, commas }, rest))
        }
        Wanted::Fields => {
            let (fields, commas, rest) = fields(cursor, alloc, depth)?;
            Ok((Got::Fields { fields, commas }, rest))
        }
        Wanted::Body => {
            let (body, rest) = block_within(cursor, alloc, depth)?;
            Ok((Got::Body(body), rest))
        }
        Wanted::Repeated => {
            let (condition, body, rest) = tested(cursor, alloc, depth)?;
            Ok((Got::Repeated { condition, body }, rest))
        }
        Wanted::Chosen => {
            let (condition, body, rest) = tested(cursor, alloc, depth)?;
            let (otherwise, rest) = read_else(rest, alloc, depth)?;
            let got = Got::Chosen {
                condition,
                body,
                otherwise,
            };
            Ok((got, rest))
        }
    }
}

/// An expression that goes on behind this operand in so many steps, less one, as far as it does.
#[cycle(expressions)]
#[tactic(auto, using(crate::proofs::Longest::steps))]
fn longest<'a>(
    cursor: Cursor<'a>,
    alloc: Global,
    depth: u32,
    place: Where,
    most: u32,
    steps: u32,
    left: Boxed<Expr>,
) -> Result<(Boxed<Expr>, Cursor<'a>), ReadError>
    ensures { Gives (λ x. x) result (longest_at depth (expr_at depth) place most steps left cursor.entry) }
{
    let mut e = left;
    let mut rest = cursor;
    for _ in 0..steps {
        if !tb_forms::goes_on(e.get(), &rest, most) {
            return Ok((e, rest));
        }
        let (longer, after) = further(rest, alloc, depth, place, e)?;
        e = longer;
        rest = after;
    }
    Err(ReadError::Unexpected)
}

/// One step further behind this left operand.
#[cycle(expressions)]
#[tactic(auto, unfolding(crate::specs::Exprs::further_at))]
fn further<'a>(
    cursor: Cursor<'a>,
    alloc: Global,
    depth: u32,
    place: Where,
    left: Boxed<Expr>,
) -> Result<(Boxed<Expr>, Cursor<'a>), ReadError>
    ensures { Gives (λ x. x) result (further_at depth (expr_at depth) place left cursor.entry) }
{
    let (step, rest) = tb_forms::read_step(cursor, alloc, depth)?;
    let wanted = step.wants(place);
    let (got, rest) = read_wanted(rest, alloc, depth, wanted)?;
    tb_forms::finish_step(rest, alloc, left, step, got)
}
