//! Expressions without parts.

ghost use Rattle.std.specs.Prelude.{◌≡◌};
ghost use Rattle.tb_rules.specs.Answers.{Gives};
ghost use Rattle.tb_compose.specs.Leaves.{variable_of, leaf_of, leaf};

use crate::setting::Setting;
use crate::settling::settle;
use std::alloc::Global;
use tb_control::{break_of, continue_of, panic_of, return_of};
use tb_operators::{boolean, byte, character, integer, unit};
use tb_perm::Span;
use tb_rules::{TypeError, Want};
use tb_thir::{Head, Node, Variable};
use tb_types::{IntKind, Types};

/// An expression in which no other lies.
#[derive(Clone, Copy, Debug)]
pub enum NoParts {
    /// An integer of this value and suffix, with `-` before it where the first is true.
    Int(bool, u64, Option<IntKind>),
    Char(char),
    Byte(u8),
    Bool(bool),
    /// `()`
    Unit,
    /// The variable of this number.
    Variable(u32, Variable),
    /// `return` without a value.
    Return,
    Break,
    Continue,
    Panic,
}

fn variable_of(number: u32, variable: Variable, span: Span) -> Node
    ensures { result ≡ variable_of number variable span }
{
    Node::Variable {
        head: Head {
            ty: variable.ty,
            span,
        },
        variable: number,
        mutable: variable.mutable,
    }
}

fn leaf_of(
    alloc: Global,
    types: &Types,
    setting: &Setting,
    form: NoParts,
    want: Want,
    span: Span,
) -> Result<Node, TypeError>
    ensures { Gives result (λ node. node) (leaf_of types.now setting.now form want span) }
{
    let scalars = &setting.scalars;
    match form {
        NoParts::Int(negative, value, suffix) => {
            integer(types, scalars, want, negative, value, suffix, span)
        }
        NoParts::Char(value) => Ok(character(scalars, value, span)),
        NoParts::Byte(value) => Ok(byte(scalars, value, span)),
        NoParts::Bool(value) => Ok(boolean(scalars, value, span)),
        NoParts::Unit => Ok(unit(scalars, span)),
        NoParts::Variable(number, variable) => Ok(variable_of(number, variable, span)),
        NoParts::Return => return_of(alloc, scalars, setting.output, want, None, span),
        NoParts::Break => break_of(scalars, setting.in_loop, want, span),
        NoParts::Continue => continue_of(scalars, setting.in_loop, want, span),
        NoParts::Panic => Ok(panic_of(scalars, want, span)),
    }
}

/// An expression without parts, where this is expected of it.
pub fn leaf(
    alloc: Global,
    types: &mut Types,
    setting: &Setting,
    form: NoParts,
    want: Want,
    span: Span,
) -> Result<Node, TypeError>
    ensures leaf { Gives result (λ node. (node, types.new)) (leaf types.old setting.now form want span) }
{
    let node = leaf_of(alloc, types, setting, form, want, span)?;
    settle(alloc, types, want, node)
}
