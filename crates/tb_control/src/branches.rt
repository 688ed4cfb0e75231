//! `if`.

ghost use Rattle.std.specs.Prelude.{◌≡◌, IfOk};
ghost use Rattle.tb_control.specs.Branches.{by_first, second_want, if_else, if_then};

use sqlite_items::Boxed;
use std::alloc::{AllocError, Global};
use tb_perm::Span;
use tb_rules::{Scalars, Want};
use tb_thir::{Head, Node};
use tb_types::Ty;

/// What is expected of the second branch, where the first does not diverge.
fn by_first(want: Want, first: Ty) -> Want
    ensures { result ≡ by_first want first }
{
    match want {
        Want::Free | Want::Elements(_) => Want::Just(first),
        Want::Pointer(_) => Want::Into(first),
        _ => want,
    }
}

/// What is expected of the second branch of an `if`, where this is expected of the whole, after a first branch of type `first`. A type
/// that is expected of the whole is expected of both. Where it is none, the second branch has the type of the first; where the
/// first diverges, it is typed as the whole is, and the first has its type.
pub fn second_want(want: Want, first: Ty, diverges: bool) -> Want
    ensures second { result ≡ second_want want first diverges }
{
    if diverges {
        want
    } else {
        by_first(want, first)
    }
}

/// `if` with `else`, of the type of its branches. It diverges where both do.
pub fn if_else(
    alloc: Global,
    condition: Node,
    first: Node,
    second: Node,
    span: Span,
) -> Result<Node, AllocError>
    ensures branches { IfOk result (λ node. node ≡ if_else condition first second span) }
{
    let head = Head {
        ty: first.head().ty,
        span,
    };
    let diverges = first.diverges() && second.diverges();
    let condition = Boxed::new(alloc, condition)?;
    let body = Boxed::new(alloc, first)?;
    let otherwise = Some(Boxed::new(alloc, second)?);
    Ok(Node::If {
        head,
        condition,
        body,
        otherwise,
        diverges,
    })
}

/// `if` without `else`, which is `()`.
pub fn if_then(
    alloc: Global,
    scalars: &Scalars,
    condition: Node,
    body: Node,
    span: Span,
) -> Result<Node, AllocError>
    ensures branch { IfOk result (λ node. node ≡ if_then scalars.now condition body span) }
{
    let head = Head {
        ty: scalars.unit,
        span,
    };
    let condition = Boxed::new(alloc, condition)?;
    let body = Boxed::new(alloc, body)?;
    Ok(Node::If {
        head,
        condition,
        body,
        otherwise: None,
        diverges: false,
    })
}
