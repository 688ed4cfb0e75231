//! Expressions with two parts.

ghost use Rattle.std.specs.Prelude.{◌≡◌, None};
ghost use Rattle.tb_rules.specs.Answers.{Gives};
ghost use Rattle.tb_compose.specs.Twos.{first_want, second_want, right_before, left_after, two_made, two};

use crate::setting::Setting;
use crate::settling::settle;
use std::alloc::Global;
use tb_operators::{binary, left_want, logic, right_want};
use tb_perm::Span;
use tb_places::{assign, assign_with, index, index_want};
use tb_rules::{TypeError, Want};
use tb_thir::{BinaryOperator, LogicOperator, Node};
use tb_types::{Ty, Types};

/// An expression with two expressions in it.
#[derive(Clone, Copy, Debug, PartialEq, Eq)]
pub enum TwoParts {
    Index,
    Binary(BinaryOperator),
    Logic(LogicOperator),
    Assign,
    /// `e += e` and the like.
    AssignWith(BinaryOperator),
}

/// What is expected of the first part, where it is typed first.
pub fn first_want(form: TwoParts, want: Want) -> Want
    ensures want { result ≡ first_want form want }
{
    match form {
        TwoParts::Binary(operator) => left_want(operator, want, None),
        _ => Want::Free,
    }
}

/// What is expected of the second part, after a first of this type.
pub fn second_want(types: &Types, setting: &Setting, form: TwoParts, want: Want, first: Ty) -> Want
    ensures want { result ≡ second_want types.now setting.now form want first }
{
    match form {
        TwoParts::Index => index_want(types, &setting.scalars, first),
        TwoParts::Binary(operator) => right_want(operator, want, Some(first)),
        TwoParts::Logic(_) => Want::Free,
        TwoParts::Assign => Want::Into(first),
        TwoParts::AssignWith(operator) => right_want(operator, Want::Free, Some(first)),
    }
}

/// What is expected of the second part, where it is typed first: the right side of an operator is, where the left side is open.
pub fn right_before(form: TwoParts, want: Want) -> Want
    ensures want { result ≡ right_before form want }
{
    match form {
        TwoParts::Binary(operator) => right_want(operator, want, None),
        _ => Want::Free,
    }
}

/// What is expected of the first part, after a second of this type that was typed first.
pub fn left_after(form: TwoParts, want: Want, right: Ty) -> Want
    ensures want { result ≡ left_after form want right }
{
    match form {
        TwoParts::Binary(operator) => left_want(operator, want, Some(right)),
        _ => Want::Free,
    }
}

fn two_made(
    alloc: Global,
    types: &Types,
    setting: &Setting,
    form: TwoParts,
    first: Node,
    second: Node,
    span: Span,
) -> Result<Node, TypeError>
    ensures { Gives result (λ node. node) (two_made types.now setting.now form first second span) }
{
    let scalars = &setting.scalars;
    match form {
        TwoParts::Index => index(alloc, types, first, second, span),
        TwoParts::Binary(operator) => binary(alloc, types, scalars, operator, first, second, span),
        TwoParts::Logic(operator) => logic(alloc, types, scalars, operator, first, second, span),
        TwoParts::Assign => assign(alloc, types, scalars, first, second, span),
        TwoParts::AssignWith(operator) => {
            assign_with(alloc, types, scalars, operator, first, second, span)
        }
    }
}

/// An expression with two parts, in the order of the text, where this is expected of it.
pub fn two(
    alloc: Global,
    types: &mut Types,
    setting: &Setting,
    form: TwoParts,
    want: Want,
    first: Node,
    second: Node,
    span: Span,
) -> Result<Node, TypeError>
    ensures two { Gives result (λ node. (node, types.new)) (two types.old setting.now form want first second span) }
{
    let node = two_made(alloc, types, setting, form, first, second, span)?;
    settle(alloc, types, want, node)
}
