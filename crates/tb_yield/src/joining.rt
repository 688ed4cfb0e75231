//! Trees as tokens.

ghost use Rattle.std.specs.Prelude.{◌≡◌, reverse, map, List, OnOk, IfOk};
ghost use Rattle.std.specs.List.{AllByRecursion};
ghost use Rattle.tb_ast.specs.declared.piece.Piece.{Piece};
ghost use Rattle.tb_ast.specs.Joined.{with_and, with_gt, with_mark, with_kind, joint, over, put_before, joined, token_of, tokens_of, IsApart};

use crate::pieces::Pieces;
use sqlite_items::Items;
use std::alloc::{AllocError, Global};
use tb_ast::{Piece, Tree};
use tb_lex::{Punctuation, Token, TokenKind, Tokens};
use tb_perm::Span;

/// The token that `&` is with a mark that is glued to it.
fn with_and(second: Punctuation) -> Option<Punctuation>
    ensures { result ≡ with_and second }
{
    match second {
        Punctuation::And => Some(Punctuation::AndAnd),
        _ => None,
    }
}

/// The token that `>` is with a mark that is glued to it.
fn with_gt(second: Punctuation) -> Option<Punctuation>
    ensures { result ≡ with_gt second }
{
    match second {
        Punctuation::Gt => Some(Punctuation::Shr),
        Punctuation::Eq => Some(Punctuation::Ge),
        Punctuation::Ge => Some(Punctuation::ShrEq),
        _ => None,
    }
}

/// The token that two marks are.
fn with_mark(first: Punctuation, second: Punctuation) -> Option<Punctuation>
    ensures { result ≡ with_mark first second }
{
    match first {
        Punctuation::And => with_and(second),
        Punctuation::Gt => with_gt(second),
        _ => None,
    }
}

/// The token that the kinds of two pieces are.
fn with_kind(first: &TokenKind, second: &TokenKind) -> Option<Punctuation>
    ensures { result ≡ with_kind first.now second.now }
{
    let TokenKind::Punctuation(first) = first else {
        return None;
    };
    let TokenKind::Punctuation(second) = second else {
        return None;
    };
    with_mark(*first, *second)
}

/// The token that a piece is with the piece behind it, if that is glued.
fn joint(first: &Piece, second: &Piece) -> Option<Punctuation>
    ensures { result ≡ joint first.now second.now }
{
    if second.glued {
        with_kind(&first.kind, &second.kind)
    } else {
        None
    }
}

/// Puts a piece before others, which are kept from the last to the first.
fn put_before(stack: &mut Vec<Piece>, piece: Piece) -> Result<(), AllocError>
    ensures { OnOk result (reverse stack.new.items ≡ put_before piece (reverse stack.old.items)) }
{
    let Some(next) = stack.pop() else {
        stack.push(piece)?;
        return Ok(());
    };
    match joint(&piece, &next) {
        Some(punctuation) => stack.push(over(&piece, &next, punctuation))?,
        None => {
            stack.push(next)?;
            stack.push(piece)?;
        }
    }
    Ok(())
}

/// Two pieces that are one token.
fn over(first: &Piece, second: &Piece, punctuation: Punctuation) -> Piece
    ensures { result ≡ over first.now second.now punctuation }
{
    Piece {
        kind: TokenKind::Punctuation(punctuation),
        span: Span {
            lo: first.span.lo,
            hi: second.span.hi,
        },
        glued: first.glued,
    }
}

/// The pieces joined, from the last to the first.
fn joined(alloc: Global, pieces: Vec<Piece>) -> Result<Vec<Piece>, AllocError>
    ensures { IfOk result (λ stack. reverse stack.items ≡ joined pieces.items) }
{
    let mut pieces = pieces;
    let mut stack = Vec::new(alloc);
    while let Some(piece) = pieces.pop() {
        put_before(&mut stack, piece)?;
    }
    Ok(stack)
}

/// The tokens of pieces that are kept from the last to the first.
#[tactic(auto, using(crate::proofs::Joins::token_step))]
fn tokens_in(alloc: Global, stack: Vec<Piece>) -> Result<Vec<Token>, AllocError>
    ensures { IfOk result (λ tokens. tokens.items ≡ map token_of (reverse stack.items)) }
{
    let mut stack = stack;
    let mut tokens = Vec::new(alloc);
    while let Some(piece) = stack.pop() {
        let Piece { kind, span, .. } = piece;
        tokens.push(Token { kind, span })?;
    }
    Ok(tokens)
}

/// The tokens of a tree, in the order of the text, each with its kind and its span.
///
/// # Errors
///
/// The allocator had no room.
pub fn yield_of(alloc: Global, tree: &Tree) -> Result<Tokens, AllocError>
    ensures tokens { IfOk result (λ tokens. tokens ≡ tokens_of tree.now) }
{
    let mut pieces = Pieces::new(alloc);
    pieces.tree(tree)?;
    let Pieces { list, .. } = pieces;
    let stack = joined(alloc, list)?;
    let tokens = tokens_in(alloc, stack)?;
    Ok(Tokens {
        list: Items::from_vec(tokens),
        end: tree.end,
    })
}

/// Pieces of which none is glued are tokens as they are.
pub fn law_apart()
    ensures apart { (pieces : List Piece) → AllByRecursion IsApart pieces → joined pieces ≡ pieces }
{}
