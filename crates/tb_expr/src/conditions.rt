//! Conditions.

ghost use Rattle.std.specs.Prelude.{◌≡◌, ◌<◌, false, IfOk, IsErrOf};
ghost use Rattle.tb_ast.specs.declared.expression.Expr.{Expr};
ghost use Rattle.tb_ast.specs.Depth.{expr_depth};
ghost use Rattle.tb_syntax.specs.State.{State};
ghost use Rattle.tb_syntax.specs.Reading.{Gives};
ghost use Rattle.tb_forms.specs.declared.place.Where.TheVariants.{Condition};
ghost use Rattle.tb_forms.specs.Levels.{loosest_level};
ghost use Rattle.tb_expr.specs.Exprs.{expr_at};
ghost use Rattle.tb_expr.specs.Grammar.{IsWholeAt};

use crate::expressions::expr_within;
use sqlite_items::Boxed;
use std::alloc::Global;
use tb_ast::Expr;
use tb_forms::{LOOSEST_LEVEL, Where};
use tb_syntax::{Cursor, ReadError};

/// The condition that comes next, as far as it goes, and what follows it.
///
/// A struct literal stands in it only within brackets. `depth` is how many expressions may stand in one
/// another, the condition itself included; one of no greater depth is always read.
///
/// # Errors
///
/// `Unexpected` where no condition of this depth stands there, and `Memory` where the allocator has no room.
pub fn condition<'a>(
    cursor: Cursor<'a>,
    alloc: Global,
    depth: u32,
) -> Result<(Boxed<Expr>, Cursor<'a>), ReadError>
    ensures gives { Gives (λ x. x) result (expr_at depth Condition loosest_level cursor.entry) }
    ensures read { IfOk result (λ x. IsWholeAt Condition loosest_level cursor.entry x.0 x.1) }
    ensures refused { IsErrOf result ReadError.Unexpected → (e : Expr) (rest : State) → IsWholeAt Condition loosest_level cursor.entry e rest → depth < expr_depth e }
{
    expr_within(cursor, alloc, depth, Where::Condition, LOOSEST_LEVEL)
}
