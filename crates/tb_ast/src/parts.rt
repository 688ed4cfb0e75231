//! What lies in an expression.

ghost use Rattle.std.specs.Prelude.{◌≡◌};
ghost use Rattle.tb_ast.specs.Parts.{told, parts_of};

use crate::expression::{Block, Else, Expr, FieldValue};

/// The expressions, blocks and fields that lie in an expression, in the order of the text.
#[derive(Clone, Copy)]
pub enum Parts<'a> {
    Nothing,
    One(&'a Expr),
    Two(&'a Expr, &'a Expr),
    /// The parts of a tuple, the elements of an array, and the arguments of a call or of a print.
    Listed(&'a [Expr]),
    /// The receiver of a method call, and the arguments behind it.
    Behind(&'a Expr, &'a [Expr]),
    /// The fields of a struct literal.
    Fields(&'a [FieldValue]),
    /// The block of an expression that is one, of `unsafe` and of `loop`.
    Body(&'a Block),
    /// The condition and the block of a `while`.
    Repeated(&'a Expr, &'a Block),
    /// The condition and the block of an `if`, and what stands behind `else`.
    Chosen(&'a Expr, &'a Block, &'a Option<Else>),
}

impl Expr {
    /// What lies in the expression.
    pub fn parts(&self) -> Parts<'_>
        ensures parts { told result ≡ parts_of self.now }
    {
        match self {
            Expr::StructLiteral { fields, .. } => Parts::Fields(fields.as_slice()),
            Expr::Tuple { parts: list, .. }
            | Expr::Array { elements: list, .. }
            | Expr::Print {
                arguments: list,
                ..
            }
            | Expr::Call {
                arguments: list,
                ..
            } => Parts::Listed(list.as_slice()),
            Expr::Paren { inner: part, .. }
            | Expr::Repeat { element: part, .. }
            | Expr::Assert {
                condition: part,
                ..
            }
            | Expr::Field { base: part, .. }
            | Expr::TupleField { base: part, .. }
            | Expr::Unary { operand: part, .. }
            | Expr::Borrow { operand: part, .. }
            | Expr::Cast { operand: part, .. } => Parts::One(part.get()),
            Expr::Block(body) => Parts::Body(body),
            Expr::Unsafe { body, .. } | Expr::Loop { body, .. } => Parts::Body(body),
            Expr::While {
                condition,
                body,
                ..
            } => Parts::Repeated(condition.get(), body),
            Expr::If {
                condition,
                body,
                otherwise,
                ..
            } => Parts::Chosen(condition.get(), body, otherwise),
            Expr::Return { value, .. } => match value {
                Some(value) => Parts::One(value.get()),
                None => Parts::Nothing,
            },
            Expr::MethodCall {
                receiver,
                arguments,
                ..
            } => Parts::Behind(receiver.get(), arguments.as_slice()),
            Expr::Index {
                base: left,
                index: right,
                ..
            } => Parts::Two(left.get(), right.get()),
            Expr::Binary { left, right, .. } => Parts::Two(left.get(), right.get()),
            Expr::Assign { target, value, .. } => Parts::Two(target.get(), value.get()),
            Expr::AssignOp { target, value, .. } => Parts::Two(target.get(), value.get()),
            _ => Parts::Nothing,
        }
    }
}
