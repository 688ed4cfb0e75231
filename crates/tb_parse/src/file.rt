//! Whole files.

ghost use Rattle.std.specs.Prelude.{◌≡◌, ◌≤◌, ◌<◌, map, length, IfOk, IfErr, IfSome, IfNone};
ghost use Rattle.tb_ast.specs.declared.item.Tree.{Tree};
ghost use Rattle.tb_ast.specs.Files.{inner_row};
ghost use Rattle.tb_ast.specs.Depth.{deepest, item_depth, depth_of};
ghost use Rattle.tb_ast.specs.Joined.{tokens_of};
ghost use Rattle.tb_syntax.specs.State.{Stands, piece_of};
ghost use Rattle.tb_syntax.specs.Attributes.{IsInner};
ghost use Rattle.tb_parse.specs.Trees.{IsItemAt, IsRun, IsInnerRun, IsTreeOf, IsRefusal};
ghost use Rattle.tb_parse.specs.Fronts.{NoneTo, InnerTo, ItemTo, RefusesAs};

use crate::error::ParseError;
use crate::fronts::{behind, function_end};
use crate::items::{DEPTH, item};
use crate::refusal::{code_of, place_of};
use sqlite_items::Items;
use std::alloc::{AllocError, Global};
use tb_ast::{InnerAttribute, Item, Tree, item_depth};
use tb_lex::{Token, Tokens};
use tb_syntax::{Cursor, ReadError};

/// An attribute of the file, if one comes next, and what follows it.
#[tactic(auto, using(crate::proofs::Ends::inners))]
fn next_inner(
    tokens: &[Token],
    alloc: Global,
) -> Result<Option<(InnerAttribute, &[Token])>, AllocError>
    ensures found { IfOk result (λ found. IfSome found (λ x. Stands (inner_row x.0) (map piece_of tokens.now) (map piece_of x.1.now) × IsInner x.0)) }
    ensures shorter { IfOk result (λ found. IfSome found (λ x. length x.1.now < length tokens.now)) }
    ensures none { IfOk result (λ found. IfNone found (NoneTo (InnerTo (map piece_of tokens.now)))) }
{
    match Cursor::new(tokens).inner_attribute(alloc) {
        Ok((inner, rest)) => Ok(Some((inner, behind(tokens, &rest)))),
        Err(ReadError::Unexpected) => Ok(None),
        Err(ReadError::Memory) => Err(AllocError),
    }
}

/// The attributes of the file, as many as stand one behind another, and what follows them.
#[tactic(auto, using(crate::proofs::OneFile::inner_runs))]
fn inners(tokens: &[Token], alloc: Global) -> Result<(Items<InnerAttribute>, &[Token]), AllocError>
    ensures run { IfOk result (λ x. IsInnerRun (map piece_of tokens.now) x.0 (map piece_of x.1.now)) }
    ensures none { IfOk result (λ x. NoneTo (InnerTo (map piece_of x.1.now))) }
{
    let mut inners = Items::new(alloc);
    let mut rest = tokens;
    while !rest.is_empty() {
        let Some((inner, after)) = next_inner(rest, alloc)? else {
            return Ok((inners, rest));
        };
        inners.push(inner)?;
        rest = after;
    }
    Ok((inners, rest))
}

/// An item that is not too deep, if one comes next, and what follows it.
#[tactic(auto, using(crate::proofs::Ends::items))]
fn next_item(tokens: &[Token], alloc: Global) -> Result<Option<(Item, &[Token])>, AllocError>
    ensures found { IfOk result (λ found. IfSome found (λ x. IsItemAt (map piece_of tokens.now) x.0 (map piece_of x.1.now) × (item_depth x.0 ≤ 128))) }
    ensures shorter { IfOk result (λ found. IfSome found (λ x. length x.1.now < length tokens.now)) }
    ensures none { IfOk result (λ found. IfNone found (NoneTo (ItemTo (map piece_of tokens.now)))) }
{
    match item(Cursor::new(tokens), alloc) {
        Ok((item, rest)) => {
            if item_depth(&item) <= DEPTH {
                Ok(Some((item, behind(tokens, &rest))))
            } else {
                Ok(None)
            }
        }
        Err(ReadError::Unexpected) => Ok(None),
        Err(ReadError::Memory) => Err(AllocError),
    }
}

/// Items, as many as stand one behind another, and what follows them.
#[tactic(auto, using(crate::proofs::OneFile::runs))]
fn items(tokens: &[Token], alloc: Global) -> Result<(Items<Item>, &[Token]), AllocError>
    ensures run { IfOk result (λ x. IsRun (map piece_of tokens.now) x.0 (map piece_of x.1.now)) }
    ensures depth { IfOk result (λ x. deepest (map item_depth x.0) ≤ 128) }
    ensures none { IfOk result (λ x. NoneTo (ItemTo (map piece_of x.1.now))) }
{
    let mut items = Items::new(alloc);
    let mut rest = tokens;
    while !rest.is_empty() {
        let Some((item, after)) = next_item(rest, alloc)? else {
            return Ok((items, rest));
        };
        items.push(item)?;
        rest = after;
    }
    Ok((items, rest))
}

/// The tree of a whole file.
///
/// A tree is given where the grammar relates one to the tokens whose depth is at most 128; no tokens have
/// two. The forms are those of the Rust Reference, chapters "Items", "Statements and expressions",
/// "Expression precedence" and "Type system", as far as this language has them.
///
/// # Errors
///
/// `Refused` where there is no such tree, at the token behind the longest front of whole items and
/// statements, or at the end of the file where all tokens are one. The code is P2 where, from that token
/// on, more than 100 brackets more have been opened than closed after some token, and else P1. And
/// `Memory` where the allocator has no room.
#[tactic(auto, using(crate::proofs::Refused::parses))]
pub fn parse(alloc: Global, tokens: &Tokens) -> Result<Tree, ParseError>
    ensures tree { IfOk result (λ tree. IsTreeOf tokens.now tree × (depth_of tree ≤ 128)) }
    ensures tokens { IfOk result (λ tree. tokens_of tree ≡ tokens.now) }
    ensures only { IfOk result (λ tree. (other : Tree) → IsTreeOf tokens.now other → other ≡ tree) }
    ensures refused { IsRefusal result → (tree : Tree) → IsTreeOf tokens.now tree → depth_of tree ≤ 128 → ⊥ }
    ensures refusal { IfErr result (RefusesAs tokens.now) }
{
    let (attributes, rest) = inners(tokens.list.as_slice(), alloc)?;
    let (items, rest) = items(rest, alloc)?;
    if !rest.is_empty() {
        let refused = function_end(rest, alloc)?;
        return Err(ParseError::Refused(code_of(refused), place_of(refused, tokens.end)));
    }
    Ok(Tree {
        attributes,
        items,
        end: tokens.end,
    })
}
