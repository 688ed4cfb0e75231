//! Expressions with one part.

ghost use Rattle.std.specs.Prelude.{◌≡◌, Some};
ghost use Rattle.tb_rules.specs.Answers.{Gives};
ghost use Rattle.tb_compose.specs.Ones.{told_form, one_want, one_made, one};

use crate::setting::Setting;
use crate::settling::settle;
use std::alloc::Global;
use tb_aggregates::{element_want, repeat};
use tb_control::{assert_of, return_of};
use tb_operators::{cast_to, operand_want, unary};
use tb_perm::Span;
use tb_places::{borrow_of, borrow_want, deref_of, field, tuple_field};
use tb_rules::{TypeError, Want};
use tb_thir::{BorrowKind, Node, UnaryOperator};
use tb_types::{Ty, Types};

/// An expression with one expression in it.
#[derive(Clone, Copy, Debug)]
pub enum OnePart<'a> {
    Paren,
    /// `-e` or `!e`
    Unary(UnaryOperator),
    Deref,
    Borrow(BorrowKind),
    /// To this type.
    Cast(Ty),
    /// The field of this name.
    Field(&'a [u8]),
    /// The part of this number.
    TupleField(usize),
    /// So many times.
    Repeat(u64),
    Assert,
    Return,
}

/// What is expected of the part, where this is expected of the whole.
pub fn one_want(types: &Types, setting: &Setting, form: OnePart<'_>, want: Want) -> Want
    ensures want { result ≡ one_want types.now setting.now (told_form form.entry) want }
{
    match form {
        OnePart::Paren => want,
        OnePart::Unary(_) => operand_want(want),
        OnePart::Borrow(kind) => borrow_want(types, kind, want),
        OnePart::Repeat(_) => element_want(types, want),
        OnePart::Assert => Want::Just(setting.scalars.boolean),
        OnePart::Return => Want::Into(setting.output),
        OnePart::Deref | OnePart::Cast(_) | OnePart::Field(_) | OnePart::TupleField(_) => {
            Want::Free
        }
    }
}

fn one_made(
    alloc: Global,
    types: &mut Types,
    setting: &Setting,
    form: OnePart<'_>,
    want: Want,
    part: Node,
    span: Span,
) -> Result<Node, TypeError>
    ensures { Gives result (λ node. (node, types.new)) (one_made types.old setting.now (told_form form.entry) want part span) }
{
    let scalars = &setting.scalars;
    match form {
        OnePart::Paren => Ok(part),
        OnePart::Unary(operator) => unary(alloc, types, operator, part, span),
        OnePart::Deref => deref_of(alloc, types, setting.is_unsafe, part, span),
        OnePart::Borrow(kind) => borrow_of(alloc, types, kind, part, span),
        OnePart::Cast(to) => cast_to(alloc, types, to, part, span),
        OnePart::Field(name) => field(alloc, types, part, name, span),
        OnePart::TupleField(number) => tuple_field(alloc, types, part, number, span),
        OnePart::Repeat(length) => repeat(alloc, types, want, part, length, span),
        OnePart::Assert => Ok(assert_of(alloc, scalars, part, span)?),
        OnePart::Return => return_of(alloc, scalars, setting.output, want, Some(part), span),
    }
}

/// An expression with one part, where this is expected of it. What stands in parentheses was settled there.
pub fn one(
    alloc: Global,
    types: &mut Types,
    setting: &Setting,
    form: OnePart<'_>,
    want: Want,
    part: Node,
    span: Span,
) -> Result<Node, TypeError>
    ensures one { Gives result (λ node. (node, types.new)) (one types.old setting.now (told_form form.entry) want part span) }
{
    match form {
        OnePart::Paren => Ok(part),
        _ => {
            let node = one_made(alloc, types, setting, form, want, part, span)?;
            settle(alloc, types, want, node)
        }
    }
}
