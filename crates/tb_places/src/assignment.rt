//! Assignments.

ghost use Rattle.std.specs.Prelude.{◌≡◌};
ghost use Rattle.tb_rules.specs.Answers.{Gives};
ghost use Rattle.tb_places.specs.Assignments.{target_fault, assign, operator_fault, with_fault, assign_with};

use sqlite_items::Boxed;
use std::alloc::Global;
use tb_operators::has_operator;
use tb_perm::{Code, Span};
use tb_rules::{Scalars, TypeError, is_slice, kind};
use tb_thir::{BinaryOperator, Head, Node};
use tb_types::Types;

/// What forbids that something is assigned here: it is no place, it is not mutable, or it is a slice.
fn target_fault(types: &Types, target: &Node) -> Option<Code>
    ensures { result ≡ target_fault types.now target.now }
{
    if !target.is_place() {
        Some(Code::NotAPlace)
    } else if !target.is_mutable() {
        Some(Code::NotMutable)
    } else if is_slice(kind(types, target.head().ty)) {
        Some(Code::TypeNotAllowedHere)
    } else {
        None
    }
}

/// `e = e`, which is `()`; refused with `NotAPlace`, `NotMutable` or `TypeNotAllowedHere` for such a target. The value was expected
/// at the type of the target, with coercions.
pub fn assign(
    alloc: Global,
    types: &Types,
    scalars: &Scalars,
    target: Node,
    value: Node,
    span: Span,
) -> Result<Node, TypeError>
    ensures assign { Gives result (λ node. node) (assign types.now scalars.now target value span) }
{
    match target_fault(types, &target) {
        Some(code) => Err(TypeError::Refused(code, span)),
        None => {
            let target = Boxed::new(alloc, target)?;
            let value = Boxed::new(alloc, value)?;
            Ok(Node::Assign {
                head: Head {
                    ty: scalars.unit,
                    span,
                },
                target,
                value,
            })
        }
    }
}

fn operator_fault(
    types: &Types,
    operator: BinaryOperator,
    target: &Node,
    value: &Node,
) -> Option<Code>
    ensures { result ≡ operator_fault types.now operator target.now value.now }
{
    if has_operator(types, operator, target.head().ty, value.head().ty) {
        None
    } else {
        Some(Code::OperatorNotForType)
    }
}

/// What forbids that something is assigned here with an operator.
fn with_fault(types: &Types, operator: BinaryOperator, target: &Node, value: &Node) -> Option<Code>
    ensures { result ≡ with_fault types.now operator target.now value.now }
{
    match target_fault(types, target) {
        Some(code) => Some(code),
        None => operator_fault(types, operator, target, value),
    }
}

/// `e += e` and the like, which is `()`; refused as an assignment is, or with `OperatorNotForType`.
pub fn assign_with(
    alloc: Global,
    types: &Types,
    scalars: &Scalars,
    operator: BinaryOperator,
    target: Node,
    value: Node,
    span: Span,
) -> Result<Node, TypeError>
    ensures assign { Gives result (λ node. node) (assign_with types.now scalars.now operator target value span) }
{
    match with_fault(types, operator, &target, &value) {
        Some(code) => Err(TypeError::Refused(code, span)),
        None => {
            let target = Boxed::new(alloc, target)?;
            let value = Boxed::new(alloc, value)?;
            Ok(Node::AssignOperator {
                head: Head {
                    ty: scalars.unit,
                    span,
                },
                operator,
                target,
                value,
            })
        }
    }
}
