//! Statements.

ghost use Rattle.std.specs.Prelude.{◌≡◌, IfOk};
ghost use Rattle.tb_rules.specs.Answers.{Gives};
ghost use Rattle.tb_control.specs.Statements.{known_type, variable_type, let_type, let_of, statement};

use crate::blocks::boxed;
use sqlite_items::Boxed;
use std::alloc::{AllocError, Global};
use tb_perm::{Code, Span};
use tb_rules::{Scalars, TypeError, is_slice, kind};
use tb_thir::{Head, Node};
use tb_types::{Ty, Types};

/// The type that is written, or else the type of the value.
fn known_type(written: Option<Ty>, value: &Option<Node>) -> Option<Ty>
    ensures { result ≡ known_type written value.now }
{
    match written {
        Some(ty) => Some(ty),
        None => match value {
            Some(value) => Some(value.head().ty),
            None => None,
        },
    }
}

fn variable_type(types: &Types, known: Option<Ty>) -> Result<Ty, Code>
    ensures { result ≡ variable_type types.now known }
{
    match known {
        None => Err(Code::TypeNotKnown),
        Some(ty) => if is_slice(kind(types, ty)) {
            Err(Code::TypeNotAllowedHere)
        } else {
            Ok(ty)
        },
    }
}

/// The type of the variable of a `let`: the one that is written, or else that of its value. The statement is refused with
/// `TypeNotKnown` where there is neither, and with `TypeNotAllowedHere` where it is a slice.
pub fn let_type(
    types: &Types,
    written: Option<Ty>,
    value: &Option<Node>,
    span: Span,
) -> Result<Ty, TypeError>
    ensures known { Gives result (λ ty. ty) (let_type types.now written value.now span) }
{
    match variable_type(types, known_type(written, value)) {
        Ok(ty) => Ok(ty),
        Err(code) => Err(TypeError::Refused(code, span)),
    }
}

/// `let`, of the variable of this number.
pub fn let_of(
    alloc: Global,
    scalars: &Scalars,
    variable: u32,
    value: Option<Node>,
    span: Span,
) -> Result<Node, AllocError>
    ensures node { IfOk result (λ node. node ≡ let_of scalars.now variable value span) }
{
    let head = Head {
        ty: scalars.unit,
        span,
    };
    let value = boxed(alloc, value)?;
    Ok(Node::Let {
        head,
        variable,
        value,
    })
}

/// An expression as a statement.
pub fn statement(
    alloc: Global,
    scalars: &Scalars,
    expression: Node,
    span: Span,
) -> Result<Node, AllocError>
    ensures node { IfOk result (λ node. node ≡ statement scalars.now expression span) }
{
    let head = Head {
        ty: scalars.unit,
        span,
    };
    let expression = Boxed::new(alloc, expression)?;
    Ok(Node::Statement { head, expression })
}
