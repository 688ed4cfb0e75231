//! The names of files, in words.
ghost use Rattle.std.specs.Prelude.{◌≤◌, length};

use crate::tokens::show_refusal;
use std::alloc::{AllocError, Global};
use tb_ast::Tree;
use tb_lex::{LexError, lex};
use tb_parse::{ParseError, parse};
use tb_resolve::{NameError, resolve};

fn tree_words(alloc: Global, out: &mut String, tree: &Tree) -> Result<(), AllocError> {
    match resolve(alloc, tree) {
        Ok(_) => out.push_str("named"),
        Err(NameError::Refused(code, span)) => show_refusal(alloc, out, code, span),
        Err(NameError::Memory) => Err(AllocError),
    }
}

/// The first fault of a file, its names included; `named` where there is none.
pub fn words(alloc: Global, text: &[u8]) -> Result<String, AllocError>
    requires { length text.now ≤ 1048576 }
{
    let mut out = String::new(alloc);
    let tokens = match lex(alloc, text) {
        Ok(tokens) => tokens,
        Err(LexError::Refused(code, span)) => {
            show_refusal(alloc, &mut out, code, span)?;
            return Ok(out);
        }
        Err(LexError::Memory) => return Err(AllocError),
    };
    match parse(alloc, &tokens) {
        Ok(tree) => tree_words(alloc, &mut out, &tree)?,
        Err(ParseError::Refused(code, span)) => show_refusal(alloc, &mut out, code, span)?,
        Err(ParseError::Memory) => return Err(AllocError),
    }
    Ok(out)
}
