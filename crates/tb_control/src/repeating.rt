//! Loops.

ghost use Rattle.std.specs.Prelude.{◌≡◌, IfOk};
ghost use Rattle.tb_control.specs.Loops.{while_of, endless};

use crate::blocks::ending_type;
use sqlite_items::Boxed;
use std::alloc::{AllocError, Global};
use tb_perm::Span;
use tb_rules::{Scalars, Want};
use tb_thir::{Head, Node};

/// `while`, which is `()`.
pub fn while_of(
    alloc: Global,
    scalars: &Scalars,
    condition: Node,
    body: Node,
    span: Span,
) -> Result<Node, AllocError>
    ensures repeats { IfOk result (λ node. node ≡ while_of scalars.now condition body span) }
{
    let head = Head {
        ty: scalars.unit,
        span,
    };
    let condition = Boxed::new(alloc, condition)?;
    let body = Boxed::new(alloc, body)?;
    Ok(Node::While {
        head,
        condition,
        body,
    })
}

/// `loop`, which is `()` where a `break` leaves it, and diverges where none does.
pub fn endless(
    alloc: Global,
    scalars: &Scalars,
    want: Want,
    body: Node,
    breaks: bool,
    span: Span,
) -> Result<Node, AllocError>
    ensures repeats { IfOk result (λ node. node ≡ endless scalars.now want body breaks span) }
{
    let head = Head {
        ty: ending_type(scalars, want, !breaks),
        span,
    };
    let body = Boxed::new(alloc, body)?;
    Ok(Node::Loop { head, body, breaks })
}
