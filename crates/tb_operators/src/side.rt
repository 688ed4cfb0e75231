//! What an operator expects of its operands.

ghost use Rattle.std.specs.Prelude.{◌≡◌};
ghost use Rattle.tb_operators.specs.Sides.{is_shift, is_comparison, operand_want, outer_want, side_want, left_want, right_want};

use tb_rules::Want;
use tb_thir::BinaryOperator;
use tb_types::Ty;

pub fn is_shift(operator: BinaryOperator) -> bool
    ensures { result ≡ is_shift operator }
{
    match operator {
        BinaryOperator::Shl | BinaryOperator::Shr => true,
        _ => false,
    }
}

pub fn is_comparison(operator: BinaryOperator) -> bool
    ensures { result ≡ is_comparison operator }
{
    match operator {
        BinaryOperator::Eq
        | BinaryOperator::Ne
        | BinaryOperator::Lt
        | BinaryOperator::Le
        | BinaryOperator::Gt
        | BinaryOperator::Ge => true,
        _ => false,
    }
}

/// What is expected of the operand of `-` and `!`, and of the first operand of an operator, where this is expected of the
/// whole: coercions do not reach operands.
pub fn operand_want(want: Want) -> Want
    ensures want { result ≡ operand_want want }
{
    match want {
        Want::Into(ty) => Want::Just(ty),
        Want::Pointer(_) => Want::Free,
        _ => want,
    }
}

/// What is expected of the side that is typed first, where this is expected of the whole.
fn outer_want(operator: BinaryOperator, want: Want) -> Want
    ensures { result ≡ outer_want operator want }
{
    if is_comparison(operator) {
        Want::Free
    } else {
        operand_want(want)
    }
}

/// What is expected of a side, from the type of the other where it is known.
fn side_want(operator: BinaryOperator, want: Want, other: Option<Ty>) -> Want
    ensures { result ≡ side_want operator want other }
{
    match other {
        Some(ty) => Want::Just(ty),
        None => outer_want(operator, want),
    }
}

/// What is expected of the left side, from what is expected of the whole, and from the type of the right side where that
/// is typed first.
pub fn left_want(operator: BinaryOperator, want: Want, right: Option<Ty>) -> Want
    ensures want { result ≡ left_want operator want right }
{
    if is_shift(operator) {
        operand_want(want)
    } else {
        side_want(operator, want, right)
    }
}

/// What is expected of the right side, from what is expected of the whole, and from the type of the left side where that
/// is typed first. A shift takes any integer there.
pub fn right_want(operator: BinaryOperator, want: Want, left: Option<Ty>) -> Want
    ensures want { result ≡ right_want operator want left }
{
    if is_shift(operator) {
        Want::Free
    } else {
        side_want(operator, want, left)
    }
}
