//! `drop`.

ghost use Rattle.std.specs.Prelude.{◌≡◌};
ghost use Rattle.tb_rules.specs.Answers.{Gives};
ghost use Rattle.tb_calls.specs.Drops.{only_argument, dropped, drop_call};

use sqlite_items::{Boxed, Items};
use std::alloc::Global;
use tb_perm::{Code, Span};
use tb_rules::{Scalars, TypeError, is_slice, kind};
use tb_thir::{Head, Node};
use tb_types::Types;

fn only_argument(written: usize, arguments: Items<Node>) -> Option<Node>
    ensures { result ≡ only_argument written arguments }
{
    let mut arguments = arguments;
    if written == 0 && arguments.len() == 1 {
        Some(arguments.remove(0))
    } else {
        None
    }
}

fn dropped(
    alloc: Global,
    types: &Types,
    scalars: &Scalars,
    operand: Option<Node>,
    span: Span,
) -> Result<Node, TypeError>
    ensures { Gives result (λ node. node) (dropped types.now scalars.now operand span) }
{
    let Some(operand) = operand else {
        return Err(TypeError::Refused(Code::WrongNumber, span));
    };
    if is_slice(kind(types, operand.head().ty)) {
        return Err(TypeError::Refused(Code::TypeNotAllowedHere, span));
    }
    let operand = Boxed::new(alloc, operand)?;
    Ok(Node::DropValue {
        head: Head {
            ty: scalars.unit,
            span,
        },
        operand,
    })
}

/// `drop(e)`, which is `()`, with so many type arguments; refused with `WrongNumber` unless there is one argument and no type
/// argument, and else with `TypeNotAllowedHere` for a slice.
pub fn drop_call(
    alloc: Global,
    types: &Types,
    scalars: &Scalars,
    written: usize,
    arguments: Items<Node>,
    span: Span,
) -> Result<Node, TypeError>
    ensures call { Gives result (λ node. node) (drop_call types.now scalars.now written arguments span) }
{
    let operand = only_argument(written, arguments);
    dropped(alloc, types, scalars, operand, span)
}
