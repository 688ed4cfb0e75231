//! What the parser gives, in words.
ghost use Rattle.std.specs.Prelude.{◌≤◌, length};

use crate::tokens::{show_refusal, show_span};
use sqlite_items::Boxed;
use std::alloc::{AllocError, Global};
use tb_ast::{Expr, Parts, Tree, depth};
use tb_expr::{Line, block, expression, next_line};
use tb_lex::{LexError, Token, Tokens, lex};
use tb_parse::{ParseError, parse};
use tb_syntax::{Cursor, ReadError};
use tb_yield::yield_of;

/// The words of what the tokens of a text give, or its fault.
fn over_tokens(alloc: Global, text: &[u8], depth: u32, reads: Reads) -> Result<String, AllocError>
    requires { length text.now ≤ 1048576 }
{
    match lex(alloc, text) {
        Ok(tokens) => reads.of(alloc, &tokens, depth),
        Err(LexError::Refused(code, span)) => {
            let mut out = String::new(alloc);
            show_refusal(alloc, &mut out, code, span)?;
            Ok(out)
        }
        Err(LexError::Memory) => Err(AllocError),
    }
}

/// What is read of the tokens of a text.
#[derive(Clone, Copy, Debug, PartialEq, Eq)]
pub enum Reads {
    /// An expression: how many tokens follow it.
    Expression,
    /// An expression with two in it: where these stand.
    Operands,
    /// A block: its statements, whether a value ends it, and how many tokens follow it.
    Block,
    /// A statement or value: which, and how many tokens follow it.
    Line,
    /// A file: how deep its tree is.
    File,
    /// A file: whether it has a tree.
    Tree,
}

impl Reads {
    /// What is read, of the kind of a case.
    pub fn named(kind: &str) -> Option<Reads> {
        match kind {
            "expression" => Some(Reads::Expression),
            "operands" => Some(Reads::Operands),
            "block" => Some(Reads::Block),
            "line" => Some(Reads::Line),
            "file" => Some(Reads::File),
            "tree" => Some(Reads::Tree),
            _ => None,
        }
    }

    /// The words of what is read of a text.
    pub fn words(self, alloc: Global, text: &[u8], depth: u32) -> Result<String, AllocError>
        requires { length text.now ≤ 1048576 }
    {
        over_tokens(alloc, text, depth, self)
    }

    fn of(self, alloc: Global, tokens: &Tokens, depth: u32) -> Result<String, AllocError> {
        let cursor = Cursor::new(tokens.list.as_slice());
        match self {
            Reads::Expression => expression_words(alloc, cursor, depth),
            Reads::Operands => operand_words(alloc, cursor, depth),
            Reads::Block => block_words(alloc, cursor, depth),
            Reads::Line => line_words(alloc, cursor, depth),
            Reads::File => file_words(alloc, tokens, true),
            Reads::Tree => file_words(alloc, tokens, false),
        }
    }
}

/// That nothing such is read.
fn refused(alloc: Global, error: ReadError) -> Result<String, AllocError> {
    match error {
        ReadError::Unexpected => String::from_str(alloc, "refused"),
        ReadError::Memory => Err(AllocError),
    }
}

fn expression_words(alloc: Global, cursor: Cursor<'_>, depth: u32) -> Result<String, AllocError> {
    match expression(cursor, alloc, depth) {
        Ok((_e, rest)) => {
            let left = rest.len();
            format!(in alloc; "left {left}")
        }
        Err(error) => refused(alloc, error),
    }
}

/// Where the two expressions in an expression stand.
fn places_of_two(alloc: Global, e: &Boxed<Expr>) -> Result<String, AllocError> {
    let mut out = String::new(alloc);
    match e.get().parts() {
        Parts::Two(first, second) => {
            show_span(alloc, &mut out, first.span())?;
            out.push_str(" ")?;
            show_span(alloc, &mut out, second.span())?;
        }
        _ => out.push_str("not two")?,
    }
    Ok(out)
}

fn operand_words(alloc: Global, cursor: Cursor<'_>, depth: u32) -> Result<String, AllocError> {
    match expression(cursor, alloc, depth) {
        Ok((e, rest)) if rest.len() == 0 => places_of_two(alloc, &e),
        Ok(_) => String::from_str(alloc, "more"),
        Err(error) => refused(alloc, error),
    }
}

fn block_words(alloc: Global, cursor: Cursor<'_>, depth: u32) -> Result<String, AllocError> {
    match block(cursor, alloc, depth) {
        Ok((block, rest)) => {
            let statements = block.statements.len();
            let value = if block.last.is_some() { " value" } else { "" };
            let left = rest.len();
            format!(in alloc; "statements {statements}{value} left {left}")
        }
        Err(error) => refused(alloc, error),
    }
}

/// Whether a line is a statement, or the value of a block.
fn line_word(line: &Line) -> &'static str {
    match line {
        Line::Stmt(_) => "statement",
        Line::Last(_) => "value",
    }
}

fn line_words(alloc: Global, cursor: Cursor<'_>, depth: u32) -> Result<String, AllocError> {
    match next_line(cursor, alloc, depth) {
        Ok((line, rest)) => {
            let line = Boxed::new(alloc, line)?;
            let word = line_word(line.get());
            let left = rest.len();
            format!(in alloc; "{word} left {left}")
        }
        Err(error) => refused(alloc, error),
    }
}

/// Whether tokens stand at the same places.
fn are_placed_alike(first: &[Token], second: &[Token]) -> bool {
    first.len() == second.len()
        && first
            .iter()
            .zip(second.iter())
            .all(|(token, other)| token.span == other.span)
}

/// That a tree has these tokens, and its depth where that is asked for.
fn tree_words(
    alloc: Global,
    tree: &Tree,
    tokens: &Tokens,
    deep: bool,
) -> Result<String, AllocError> {
    let again = yield_of(alloc, tree)?;
    if !are_placed_alike(again.list.as_slice(), tokens.list.as_slice()) {
        return String::from_str(alloc, "other tokens");
    }
    if !deep {
        return String::from_str(alloc, "accepted");
    }
    let depth = depth(tree);
    format!(in alloc; "depth {depth}")
}

fn file_words(alloc: Global, tokens: &Tokens, deep: bool) -> Result<String, AllocError> {
    match parse(alloc, tokens) {
        Ok(tree) => tree_words(alloc, &tree, tokens, deep),
        Err(ParseError::Refused(code, span)) => {
            let mut out = String::new(alloc);
            show_refusal(alloc, &mut out, code, span)?;
            Ok(out)
        }
        Err(ParseError::Memory) => Err(AllocError),
    }
}
