//! Operators before one operand.

ghost use Rattle.std.specs.Prelude.{◌≡◌};
ghost use Rattle.tb_rules.specs.Answers.{Gives};
ghost use Rattle.tb_operators.specs.Operators.{has_negation, has_unary, unary};

use crate::infix::has_bits;
use crate::literal::is_signed;
use sqlite_items::Boxed;
use std::alloc::Global;
use tb_perm::{Code, Span};
use tb_rules::{TypeError, TypeKind, kind};
use tb_thir::{Head, Node, UnaryOperator};
use tb_types::Types;

fn has_negation(kind: TypeKind) -> bool
    ensures { result ≡ has_negation kind }
{
    match kind {
        TypeKind::Int(kind) => is_signed(kind),
        _ => false,
    }
}

/// `-` is for signed integers, `!` for integers and `bool`.
fn has_unary(operator: UnaryOperator, kind: TypeKind) -> bool
    ensures { result ≡ has_unary operator kind }
{
    match operator {
        UnaryOperator::Neg => has_negation(kind),
        UnaryOperator::Not => has_bits(kind),
    }
}

/// `-e` or `!e`, of the type of its operand; refused with `OperatorNotForType` where that does not have the operator.
pub fn unary(
    alloc: Global,
    types: &Types,
    operator: UnaryOperator,
    operand: Node,
    span: Span,
) -> Result<Node, TypeError>
    ensures unary { Gives result (λ node. node) (unary types.now operator operand span) }
{
    let ty = operand.head().ty;
    if has_unary(operator, kind(types, ty)) {
        let operand = Boxed::new(alloc, operand)?;
        Ok(Node::Unary {
            head: Head { ty, span },
            operator,
            operand,
        })
    } else {
        Err(TypeError::Refused(Code::OperatorNotForType, span))
    }
}
