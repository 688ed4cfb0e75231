//! What an expression is beside what lies in it.

ghost use Rattle.std.specs.Prelude.{◌≡◌};
ghost use Rattle.tb_ast.specs.Forms.{FormOf, shown, told_form, form_of};

use crate::expression::{Expr, ExprPath, PrintText};
use crate::leaf::{Ident, IntLiteral, Literal, Path, TextLiteral};
use crate::operator::{AssignOp, BinaryOp, Borrow, UnaryOp};
use crate::written::{Turbofish, TypeExpr};

/// The form of an expression, with what it holds beside the expressions, blocks and fields in it.
#[derive(Clone, Copy)]
pub enum Form<'a> {
    Literal(Literal),
    Path(&'a ExprPath),
    /// Of this struct.
    StructLiteral(&'a Path),
    Unit,
    Paren,
    Tuple,
    Array,
    /// Of this length.
    Repeat(IntLiteral),
    Block,
    Unsafe,
    While,
    Loop,
    If,
    Return,
    Break,
    Continue,
    Print {
        /// Whether it is `println!`.
        newline: bool,
        text: Option<&'a TextLiteral>,
    },
    Panic(Option<&'a TextLiteral>),
    Assert,
    /// The field of this name.
    Field(&'a Ident),
    /// The part of this number.
    TupleField(IntLiteral),
    MethodCall {
        name: &'a Ident,
        turbofish: Option<&'a Turbofish>,
    },
    /// Of this path.
    Call(&'a ExprPath),
    Index,
    Unary(UnaryOp),
    Borrow(Borrow),
    /// To this type.
    Cast(&'a TypeExpr),
    Binary(BinaryOp),
    Assign,
    AssignOp(AssignOp),
}

impl Expr {
    /// The form of the expression.
    pub fn form(&self) -> Form<'_>
        ensures form { told_form result ≡ form_of self.now }
    {
        match self {
            Expr::Literal(value) => Form::Literal(*value),
            Expr::Path(path) => Form::Path(path),
            Expr::StructLiteral { path, .. } => Form::StructLiteral(path),
            Expr::Unit { .. } => Form::Unit,
            Expr::Paren { .. } => Form::Paren,
            Expr::Tuple { .. } => Form::Tuple,
            Expr::Array { .. } => Form::Array,
            Expr::Repeat { length, .. } => Form::Repeat(*length),
            Expr::Block(_) => Form::Block,
            Expr::Unsafe { .. } => Form::Unsafe,
            Expr::While { .. } => Form::While,
            Expr::Loop { .. } => Form::Loop,
            Expr::If { .. } => Form::If,
            Expr::Return { .. } => Form::Return,
            Expr::Break { .. } => Form::Break,
            Expr::Continue { .. } => Form::Continue,
            Expr::Print { newline, text, .. } => print_form(*newline, text),
            Expr::Panic { text, .. } => Form::Panic(text.as_ref()),
            Expr::Assert { .. } => Form::Assert,
            Expr::Field { name, .. } => Form::Field(name),
            Expr::TupleField { index, .. } => Form::TupleField(*index),
            Expr::MethodCall {
                name,
                turbofish,
                ..
            } => Form::MethodCall {
                name,
                turbofish: turbofish.as_ref(),
            },
            Expr::Call { callee, .. } => Form::Call(callee),
            Expr::Index { .. } => Form::Index,
            Expr::Unary { operator, .. } => Form::Unary(*operator),
            Expr::Borrow { kind, .. } => Form::Borrow(*kind),
            Expr::Cast { ty, .. } => Form::Cast(ty),
            Expr::Binary { operator, .. } => Form::Binary(*operator),
            Expr::Assign { .. } => Form::Assign,
            Expr::AssignOp { operator, .. } => Form::AssignOp(*operator),
        }
    }
}

/// The form of a print.
fn print_form(newline: bool, text: &Option<PrintText>) -> Form<'_>
    ensures { told_form result ≡ FormOf.Print newline (shown text.now) }
{
    Form::Print {
        newline,
        text: match text {
            Some(text) => Some(&text.text),
            None => None,
        },
    }
}
