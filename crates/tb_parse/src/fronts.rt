//! How far whole items and statements go in tokens that have no tree.

ghost use Rattle.std.specs.Prelude.{◌≡◌, ◌<◌, ◌≤◌, ◌⊎◌, false, map, length, IfOk, IfSome, IfNone};
ghost use Rattle.tb_lex.specs.declared.keyword.Keyword.TheVariants as keyword_of;
ghost use Rattle.tb_syntax.specs.State.{State, piece_of};
ghost use Rattle.tb_syntax.specs.Leaves.{has_keyword};
ghost use Rattle.tb_syntax.specs.Reading.{Gives};
ghost use Rattle.tb_parse.specs.Fronts.{IsSuffix, NoneTo, IsLongest, ItemTo, StatementTo, StatementsTo, ItemsTo, ConditionTo, BlockTo, BranchTo, ElseTo, CutTo, Unfinished, opened_at};

use crate::items::DEPTH;
use std::alloc::{AllocError, Global};
use tb_ast::{block_depth, expr_depth, statement_depth};
use tb_expr::Line;
use tb_lex::{Keyword, Punctuation, Token};
use tb_syntax::{Cursor, ReadError};

/// How deep a statement of a function's body may be: the body is around it.
const STATEMENT: u32 = DEPTH - 1;

/// How deep an `if` may be that is such a statement.
const IF: u32 = STATEMENT - 1;

/// The tokens that are left where the cursor stands.
#[tactic(auto, using(crate::proofs::Ends::behinds))]
pub fn behind<'a>(tokens: &'a [Token], rest: &Cursor<'_>) -> &'a [Token]
    requires whole { IsSuffix (map piece_of tokens.now) rest.now }
    ensures same { map piece_of result.now ≡ rest.now }
{
    &tokens[tokens.len() - rest.len()..]
}

/// What follows a condition of at most this depth, if one comes next.
#[tactic(auto, using(crate::proofs::Ends::conditions))]
fn condition_end<'a>(
    cursor: Cursor<'a>,
    alloc: Global,
    depth: u32,
) -> Result<Option<Cursor<'a>>, AllocError>
    requires shallow { depth ≤ 126 }
    ensures found { IfOk result (λ found. IfSome found (λ rest. ConditionTo depth cursor.entry rest)) }
    ensures none { IfOk result (λ found. IfNone found (NoneTo (ConditionTo depth cursor.entry))) }
{
    match tb_expr::condition(cursor, alloc, depth) {
        Ok((condition, rest)) => {
            if expr_depth(condition.get()) <= depth {
                Ok(Some(rest))
            } else {
                Ok(None)
            }
        }
        Err(ReadError::Unexpected) => Ok(None),
        Err(ReadError::Memory) => Err(AllocError),
    }
}

/// What follows a block of at most this depth, if one comes next.
#[tactic(auto, using(crate::proofs::Ends::blocks))]
fn block_end<'a>(
    cursor: Cursor<'a>,
    alloc: Global,
    depth: u32,
) -> Result<Option<Cursor<'a>>, AllocError>
    requires shallow { depth ≤ 126 }
    ensures found { IfOk result (λ found. IfSome found (λ rest. BlockTo depth cursor.entry rest)) }
    ensures none { IfOk result (λ found. IfNone found (NoneTo (BlockTo depth cursor.entry))) }
{
    match tb_expr::block(cursor, alloc, depth) {
        Ok((body, rest)) => {
            if block_depth(&body) <= depth {
                Ok(Some(rest))
            } else {
                Ok(None)
            }
        }
        Err(ReadError::Unexpected) => Ok(None),
        Err(ReadError::Memory) => Err(AllocError),
    }
}

/// What follows `if`, a condition and a block, both of at most this depth.
#[tactic(auto, using(crate::proofs::Ends::branches))]
fn branch_end(tokens: &[Token], alloc: Global, depth: u32) -> Result<Option<&[Token]>, AllocError>
    requires shallow { depth ≤ 126 }
    ensures found { IfOk result (λ found. IfSome found (λ rest. BranchTo depth (map piece_of tokens.now) (map piece_of rest.now))) }
    ensures none { IfOk result (λ found. IfNone found (NoneTo (BranchTo depth (map piece_of tokens.now)))) }
{
    let Some((_, rest)) = Cursor::new(tokens).next_keyword(Keyword::If) else {
        return Ok(None);
    };
    let Some(rest) = condition_end(rest, alloc, depth)? else {
        return Ok(None);
    };
    let Some(rest) = block_end(rest, alloc, depth)? else {
        return Ok(None);
    };
    Ok(Some(behind(tokens, &rest)))
}

/// What follows `else`, if that comes next.
#[tactic(auto, using(crate::proofs::Ends::elses))]
fn behind_else(tokens: &[Token]) -> Option<&[Token]>
    ensures found { IfSome result (λ rest. ElseTo (map piece_of tokens.now) (map piece_of rest.now)) }
    ensures none { IfNone result (has_keyword keyword_of.Else (map piece_of tokens.now) ≡ false) }
{
    let (_, rest) = Cursor::new(tokens).next_keyword(Keyword::Else)?;
    Some(behind(tokens, &rest))
}

/// What follows the longest `if` that is cut before an `else`; where none stands there, the tokens themselves.
#[tactic(auto, using(crate::proofs::Cuts::cuts))]
fn cut_end(tokens: &[Token], alloc: Global) -> Result<&[Token], AllocError>
    ensures front { IfOk result (λ rest. (map piece_of rest.now ≡ map piece_of tokens.now) ⊎ CutTo 126 (map piece_of tokens.now) (map piece_of rest.now)) }
    ensures longest { IfOk result (λ rest. IsLongest (CutTo 126 (map piece_of tokens.now)) (length rest.now)) }
{
    let mut end = tokens;
    let mut rest = tokens;
    let mut depth = IF;
    while depth > 0 {
        depth -= 1;
        let Some(after) = branch_end(rest, alloc, depth)? else {
            return Ok(end);
        };
        let Some(branch) = behind_else(after) else {
            return Ok(end);
        };
        end = after;
        rest = branch;
    }
    Ok(end)
}

/// What follows a statement of a function's body, if one comes next.
#[tactic(auto, using(crate::proofs::Ends::statements))]
fn statement_end(tokens: &[Token], alloc: Global) -> Result<Option<&[Token]>, AllocError>
    ensures found { IfOk result (λ found. IfSome found (λ rest. StatementTo (map piece_of tokens.now) (map piece_of rest.now))) }
    ensures shorter { IfOk result (λ found. IfSome found (λ rest. length rest.now < length tokens.now)) }
    ensures none { IfOk result (λ found. IfNone found (NoneTo (StatementTo (map piece_of tokens.now)))) }
{
    match tb_expr::next_line(Cursor::new(tokens), alloc, STATEMENT - 1) {
        Ok((line, rest)) => match line {
            Line::Stmt(statement) => {
                if statement_depth(&statement) <= STATEMENT {
                    Ok(Some(behind(tokens, &rest)))
                } else {
                    Ok(None)
                }
            }
            Line::Last(_) => Ok(None),
        },
        Err(ReadError::Unexpected) => Ok(None),
        Err(ReadError::Memory) => Err(AllocError),
    }
}

/// How far whole statements go in a body that does not end.
#[tactic(auto, using(crate::proofs::BodyFronts::statements))]
fn statements_end(tokens: &[Token], alloc: Global) -> Result<&[Token], AllocError>
    requires unfinished { Unfinished (map piece_of tokens.now) }
    ensures front { IfOk result (λ rest. StatementsTo (map piece_of tokens.now) (map piece_of rest.now)) }
    ensures longest { IfOk result (λ rest. IsLongest (StatementsTo (map piece_of tokens.now)) (length rest.now)) }
{
    let mut rest = tokens;
    while !rest.is_empty() {
        let Some(after) = statement_end(rest, alloc)? else {
            return cut_end(rest, alloc);
        };
        rest = after;
    }
    Ok(rest)
}

/// What follows the attributes of a function, its head and `{`.
#[tactic(auto, unfolding(crate::specs::Fronts::opened_at))]
fn opened<'a>(cursor: Cursor<'a>, alloc: Global) -> Result<Cursor<'a>, ReadError>
    ensures { Gives (λ x. x) result (opened_at cursor.entry) }
{
    let (_, rest) = cursor.attributes(alloc)?;
    let (_, rest) = rest.function_head(alloc, DEPTH)?;
    let (_, rest) = rest.punct(Punctuation::OpenBrace)?;
    Ok(rest)
}

/// How far a function goes that does not end, where no item stands.
#[tactic(auto, using(crate::proofs::ItemFronts::functions))]
pub fn function_end(tokens: &[Token], alloc: Global) -> Result<&[Token], AllocError>
    requires none { NoneTo (ItemTo (map piece_of tokens.now)) }
    ensures front { IfOk result (λ rest. ItemsTo (map piece_of tokens.now) (map piece_of rest.now)) }
    ensures longest { IfOk result (λ rest. IsLongest (ItemsTo (map piece_of tokens.now)) (length rest.now)) }
{
    match opened(Cursor::new(tokens), alloc) {
        Ok(rest) => statements_end(behind(tokens, &rest), alloc),
        Err(ReadError::Unexpected) => Ok(tokens),
        Err(ReadError::Memory) => Err(AllocError),
    }
}
