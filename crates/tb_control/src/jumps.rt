//! What diverges by itself.

ghost use Rattle.std.specs.Prelude.{◌≡◌, IfOk};
ghost use Rattle.tb_rules.specs.Answers.{Gives};
ghost use Rattle.tb_control.specs.Jumps.{head_for, gives_value, return_of, break_of, continue_of, panic_of};

use crate::blocks::boxed;
use std::alloc::Global;
use tb_perm::{Code, Span};
use tb_rules::{Scalars, TypeError, Want, diverging_type};
use tb_thir::{Head, Node};
use tb_types::Ty;

/// The head of what diverges, where this is expected.
fn head_for(scalars: &Scalars, want: Want, span: Span) -> Head
    ensures { result ≡ head_for scalars.now want span }
{
    Head {
        ty: diverging_type(want, scalars.unit),
        span,
    }
}

fn gives_value(scalars: &Scalars, output: Ty, value: &Option<Node>) -> bool
    ensures { result ≡ gives_value scalars.now output value.now }
{
    match value {
        Some(_) => true,
        None => output == scalars.unit,
    }
}

/// `return`, in a function with results of type `output`. Without a value it is refused with `WrongType` where that is not `()`.
/// The value was expected at that type, with coercions.
pub fn return_of(
    alloc: Global,
    scalars: &Scalars,
    output: Ty,
    want: Want,
    value: Option<Node>,
    span: Span,
) -> Result<Node, TypeError>
    ensures returns { Gives result (λ node. node) (return_of scalars.now output want value span) }
{
    if gives_value(scalars, output, &value) {
        let head = head_for(scalars, want, span);
        let value = boxed(alloc, value)?;
        Ok(Node::Return { head, value })
    } else {
        Err(TypeError::Refused(Code::WrongType, span))
    }
}

/// `break`; refused with `OutsideALoop` where no loop is around it.
pub fn break_of(scalars: &Scalars, inside: bool, want: Want, span: Span) -> Result<Node, TypeError>
    ensures breaks { Gives result (λ node. node) (break_of scalars.now inside want span) }
{
    if inside {
        Ok(Node::Break {
            head: head_for(scalars, want, span),
        })
    } else {
        Err(TypeError::Refused(Code::OutsideALoop, span))
    }
}

/// `continue`; refused with `OutsideALoop` where no loop is around it.
pub fn continue_of(
    scalars: &Scalars,
    inside: bool,
    want: Want,
    span: Span,
) -> Result<Node, TypeError>
    ensures continues { Gives result (λ node. node) (continue_of scalars.now inside want span) }
{
    if inside {
        Ok(Node::Continue {
            head: head_for(scalars, want, span),
        })
    } else {
        Err(TypeError::Refused(Code::OutsideALoop, span))
    }
}

/// `panic!`
pub fn panic_of(scalars: &Scalars, want: Want, span: Span) -> Node
    ensures panics { result ≡ panic_of scalars.now want span }
{
    Node::Panic {
        head: head_for(scalars, want, span),
    }
}
