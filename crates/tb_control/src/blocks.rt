//! Blocks.

ghost use Rattle.std.specs.Prelude.{◌≡◌, IfOk};
ghost use Rattle.tb_control.specs.Blocks.{ending_type, block_type, block};

use sqlite_items::{Boxed, Items};
use std::alloc::{AllocError, Global};
use tb_perm::Span;
use tb_rules::{Scalars, Want, diverging_type};
use tb_thir::{Head, Node};
use tb_types::Ty;

/// A node that may be there, in a box of its own.
pub fn boxed(alloc: Global, node: Option<Node>) -> Result<Option<Boxed<Node>>, AllocError>
    ensures boxed { IfOk result (λ made. made ≡ node) }
{
    match node {
        Some(node) => Ok(Some(Boxed::new(alloc, node)?)),
        None => Ok(None),
    }
}

/// The type of what has no value: of what diverges the one that is expected, else `()`.
pub fn ending_type(scalars: &Scalars, want: Want, ends: bool) -> Ty
    ensures ending { result ≡ ending_type scalars.now want ends }
{
    if ends {
        diverging_type(want, scalars.unit)
    } else {
        scalars.unit
    }
}

fn block_type(scalars: &Scalars, want: Want, last: &Option<Node>, ends: bool) -> Ty
    ensures { result ≡ block_type scalars.now want last.now ends }
{
    match last {
        Some(last) => last.head().ty,
        None => ending_type(scalars, want, ends),
    }
}

/// A block. It has the type of its last expression; without one it has the expected type where its last statement diverges, else
/// `()`. Whether it diverges, as its last expression or statement does, is told by `ends`.
pub fn block(
    alloc: Global,
    scalars: &Scalars,
    want: Want,
    statements: Items<Node>,
    last: Option<Node>,
    ends: bool,
    span: Span,
) -> Result<Node, AllocError>
    ensures block { IfOk result (λ node. node ≡ block scalars.now want statements last ends span) }
{
    let head = Head {
        ty: block_type(scalars, want, &last, ends),
        span,
    };
    let last = boxed(alloc, last)?;
    Ok(Node::Block {
        head,
        statements,
        last,
        diverges: ends,
    })
}
