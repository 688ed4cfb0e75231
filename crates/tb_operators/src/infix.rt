//! Operators between two operands.

ghost use Rattle.std.specs.Prelude.{◌≡◌};
ghost use Rattle.tb_rules.specs.Answers.{Gives};
ghost use Rattle.tb_operators.specs.Operators.{is_int, is_bool, has_bits, has_order, is_thin_pointer, has_equality, has_operator, result_of, binary, logic};

use crate::side::is_comparison;
use sqlite_items::Boxed;
use std::alloc::Global;
use tb_perm::{Code, Span};
use tb_rules::{Scalars, TypeError, TypeKind, is_slice, kind};
use tb_thir::{BinaryOperator, Head, LogicOperator, Node};
use tb_types::{Ty, Types};

pub fn is_int(kind: TypeKind) -> bool
    ensures { result ≡ is_int kind }
{
    match kind {
        TypeKind::Int(_) => true,
        _ => false,
    }
}

fn is_bool(kind: TypeKind) -> bool
    ensures { result ≡ is_bool kind }
{
    match kind {
        TypeKind::Bool => true,
        _ => false,
    }
}

pub fn has_bits(kind: TypeKind) -> bool
    ensures { result ≡ has_bits kind }
{
    match kind {
        TypeKind::Int(_) | TypeKind::Bool => true,
        _ => false,
    }
}

fn has_order(kind: TypeKind) -> bool
    ensures { result ≡ has_order kind }
{
    match kind {
        TypeKind::Int(_) | TypeKind::Bool | TypeKind::Char => true,
        _ => false,
    }
}

fn is_thin_pointer(types: &Types, kind: TypeKind) -> bool
    ensures { result ≡ is_thin_pointer types.now kind }
{
    match kind {
        TypeKind::Raw(_, to) => !is_slice(self::kind(types, to)),
        _ => false,
    }
}

fn has_equality(types: &Types, kind: TypeKind) -> bool
    ensures { result ≡ has_equality types.now kind }
{
    has_order(kind) || is_thin_pointer(types, kind)
}

/// Whether a type has an operator, between two sides of it; the right side of a shift is of any integer type. Arithmetic is for
/// integers, `&`, `|` and `^` for integers and `bool`, `<` and the like for integers, `bool` and `char`, `==` and `!=` for
/// these and for thin raw pointers.
pub fn has_operator(types: &Types, operator: BinaryOperator, left: Ty, right: Ty) -> bool
    ensures has { result ≡ has_operator types.now operator left right }
{
    let side = kind(types, left);
    match operator {
        BinaryOperator::Add
        | BinaryOperator::Sub
        | BinaryOperator::Mul
        | BinaryOperator::Div
        | BinaryOperator::Rem => is_int(side),
        BinaryOperator::Shl | BinaryOperator::Shr => is_int(side) && is_int(kind(types, right)),
        BinaryOperator::And | BinaryOperator::Or | BinaryOperator::Xor => has_bits(side),
        BinaryOperator::Eq | BinaryOperator::Ne => has_equality(types, side),
        BinaryOperator::Lt | BinaryOperator::Le | BinaryOperator::Gt | BinaryOperator::Ge => {
            has_order(side)
        }
    }
}

fn result_of(scalars: &Scalars, operator: BinaryOperator, left: Ty) -> Ty
    ensures { result ≡ result_of scalars.now operator left }
{
    if is_comparison(operator) {
        scalars.boolean
    } else {
        left
    }
}

/// `e + e` and the like: `bool` for a comparison, else of the type of the left side; refused with `OperatorNotForType` where
/// that does not have the operator.
pub fn binary(
    alloc: Global,
    types: &Types,
    scalars: &Scalars,
    operator: BinaryOperator,
    left: Node,
    right: Node,
    span: Span,
) -> Result<Node, TypeError>
    ensures binary { Gives result (λ node. node) (binary types.now scalars.now operator left right span) }
{
    let from = left.head().ty;
    if has_operator(types, operator, from, right.head().ty) {
        let head = Head {
            ty: result_of(scalars, operator, from),
            span,
        };
        let left = Boxed::new(alloc, left)?;
        let right = Boxed::new(alloc, right)?;
        Ok(Node::Binary {
            head,
            operator,
            left,
            right,
        })
    } else {
        Err(TypeError::Refused(Code::OperatorNotForType, span))
    }
}

/// `e && e` or `e || e`, of two `bool`s; else refused with `OperatorNotForType`.
pub fn logic(
    alloc: Global,
    types: &Types,
    scalars: &Scalars,
    operator: LogicOperator,
    left: Node,
    right: Node,
    span: Span,
) -> Result<Node, TypeError>
    ensures logic { Gives result (λ node. node) (logic types.now scalars.now operator left right span) }
{
    if is_bool(kind(types, left.head().ty)) && is_bool(kind(types, right.head().ty)) {
        let head = Head {
            ty: scalars.boolean,
            span,
        };
        let left = Boxed::new(alloc, left)?;
        let right = Boxed::new(alloc, right)?;
        Ok(Node::Logic {
            head,
            operator,
            left,
            right,
        })
    } else {
        Err(TypeError::Refused(Code::OperatorNotForType, span))
    }
}
