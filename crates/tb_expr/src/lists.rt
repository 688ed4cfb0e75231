//! Lists of expressions, and of the fields of struct literals.

ghost use Rattle.std.specs.Prelude.{◌≡◌};
ghost use Rattle.tb_lex.specs.declared.punctuation.Punctuation.TheVariants.{CloseBrace};
ghost use Rattle.tb_syntax.specs.Reading.{Gives};
ghost use Rattle.tb_syntax.specs.Lists.{listed_at};
ghost use Rattle.tb_expr.specs.Exprs.{whole_at, field_at, expr_at};

use crate::expressions::expr_within;
use sqlite_items::Items;
use std::alloc::Global;
use tb_ast::{Expr, FieldValue};
use tb_forms::{LOOSEST_LEVEL, Where};
use tb_lex::Punctuation;
use tb_perm::Span;
use tb_syntax::{Cursor, ReadError};

/// Expressions with commas between them up to a mark that closes, which comes next then.
#[cycle(expressions)]
#[tactic(auto, using(tb_syntax::proofs::Loops::loops), unfolding(tb_syntax::specs::Lists::listed_at))]
pub fn values<'a>(
    cursor: Cursor<'a>,
    alloc: Global,
    depth: u32,
    close: Punctuation,
) -> Result<(Items<Expr>, Items<Span>, Cursor<'a>), ReadError>
    ensures { Gives (λ x. ((x.0, x.1), x.2)) result (listed_at (whole_at depth (expr_at depth)) close cursor.entry) }
{
    let mut values = Items::new(alloc);
    let mut commas = Items::new(alloc);
    let mut rest = cursor;
    for _ in 0..rest.len() {
        if rest.has_mark(close) {
            return Ok((values, commas, rest));
        }
        let (value, after) = expr_within(rest, alloc, depth, Where::Anywhere, LOOSEST_LEVEL)?;
        values.push(value.into_inner())?;
        if !after.has_mark(Punctuation::Comma) {
            return Ok((values, commas, after));
        }
        let (comma, after) = after.punct(Punctuation::Comma)?;
        commas.push(comma)?;
        rest = after;
    }
    Err(ReadError::Unexpected)
}

/// The fields of a struct literal up to `}`, which comes next then.
#[cycle(expressions)]
#[tactic(auto, using(tb_syntax::proofs::Loops::loops), unfolding(tb_syntax::specs::Lists::listed_at))]
pub fn fields<'a>(
    cursor: Cursor<'a>,
    alloc: Global,
    depth: u32,
) -> Result<(Items<FieldValue>, Items<Span>, Cursor<'a>), ReadError>
    ensures { Gives (λ x. ((x.0, x.1), x.2)) result (listed_at (field_at depth (expr_at depth)) CloseBrace cursor.entry) }
{
    let mut fields = Items::new(alloc);
    let mut commas = Items::new(alloc);
    let mut rest = cursor;
    for _ in 0..rest.len() {
        if rest.has_mark(Punctuation::CloseBrace) {
            return Ok((fields, commas, rest));
        }
        let (field, after) = field(rest, alloc, depth)?;
        fields.push(field)?;
        if !after.has_mark(Punctuation::Comma) {
            return Ok((fields, commas, after));
        }
        let (comma, after) = after.punct(Punctuation::Comma)?;
        commas.push(comma)?;
        rest = after;
    }
    Err(ReadError::Unexpected)
}

/// A field of a struct literal.
#[cycle(expressions)]
#[tactic(auto, unfolding(crate::specs::Exprs::field_at))]
fn field<'a>(
    cursor: Cursor<'a>,
    alloc: Global,
    depth: u32,
) -> Result<(FieldValue, Cursor<'a>), ReadError>
    ensures { Gives (λ x. x) result (field_at depth (expr_at depth) cursor.entry) }
{
    let (name, rest) = cursor.name(alloc)?;
    if !rest.has_mark(Punctuation::Colon) {
        return Ok((FieldValue::Short { name }, rest));
    }
    let (colon, rest) = rest.punct(Punctuation::Colon)?;
    let (value, rest) = expr_within(rest, alloc, depth, Where::Anywhere, LOOSEST_LEVEL)?;
    let value = value.into_inner();
    Ok((FieldValue::Named { name, colon, value }, rest))
}
