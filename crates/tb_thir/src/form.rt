//! What a node is beside what lies in it.

ghost use Rattle.std.specs.Prelude.{◌≡◌};
ghost use Rattle.tb_thir.specs.Forms.{told_form, form_of};

use crate::node::Node;
use crate::operator::{BinaryOperator, BorrowKind, Constant, LogicOperator, UnaryOperator};
use tb_types::{Builtin, Ty};

/// The form of a node, with what it holds beside its head and the nodes in it.
#[derive(Clone, Copy)]
pub enum Form<'a> {
    Literal(Constant),
    /// The variable of this number, and whether it is mutable.
    Variable(u32, bool),
    /// The part of this number, and whether it is mutable.
    Field(u32, bool),
    /// Whether the element is mutable.
    Index(bool),
    /// Whether what is pointed to is mutable.
    Deref(bool),
    Borrow(BorrowKind),
    Unary(UnaryOperator),
    Binary(BinaryOperator),
    Logic(LogicOperator),
    Cast,
    /// From an array of this length.
    Unsize(u64),
    /// For each declared part its place in the text.
    Make(&'a [u32]),
    /// So many times.
    Repeat(u64),
    /// Of the function of this number.
    Call(u32),
    /// Of this built-in, about this type.
    Builtin(Builtin, Ty),
    Length,
    DropValue,
    Assign,
    AssignOperator(BinaryOperator),
    /// Whether it diverges.
    Block(bool),
    /// Whether it diverges.
    If(bool),
    While,
    /// Whether a `break` leaves it.
    Loop(bool),
    Return,
    Break,
    Continue,
    /// Whether a line feed is due, and the text as it is written.
    Print(bool, &'a [u8]),
    Panic,
    Assert,
    /// Of the variable of this number.
    Let(u32),
    Statement,
}

impl Node {
    /// The form of the node.
    pub fn form(&self) -> Form<'_>
        ensures form { told_form result ≡ form_of self.now }
    {
        match self {
            Node::Literal { value, .. } => Form::Literal(*value),
            Node::Variable {
                variable,
                mutable,
                ..
            } => Form::Variable(*variable, *mutable),
            Node::Field { field, mutable, .. } => Form::Field(*field, *mutable),
            Node::Index { mutable, .. } => Form::Index(*mutable),
            Node::Deref { mutable, .. } => Form::Deref(*mutable),
            Node::Borrow { kind, .. } => Form::Borrow(*kind),
            Node::Unary { operator, .. } => Form::Unary(*operator),
            Node::Binary { operator, .. } => Form::Binary(*operator),
            Node::Logic { operator, .. } => Form::Logic(*operator),
            Node::Cast { .. } => Form::Cast,
            Node::Unsize { length, .. } => Form::Unsize(*length),
            Node::Make { order, .. } => Form::Make(order.as_slice()),
            Node::Repeat { length, .. } => Form::Repeat(*length),
            Node::Call { function, .. } => Form::Call(*function),
            Node::Builtin { builtin, about, .. } => Form::Builtin(*builtin, *about),
            Node::Length { .. } => Form::Length,
            Node::DropValue { .. } => Form::DropValue,
            Node::Assign { .. } => Form::Assign,
            Node::AssignOperator { operator, .. } => Form::AssignOperator(*operator),
            Node::Block { diverges, .. } => Form::Block(*diverges),
            Node::If { diverges, .. } => Form::If(*diverges),
            Node::While { .. } => Form::While,
            Node::Loop { breaks, .. } => Form::Loop(*breaks),
            Node::Return { .. } => Form::Return,
            Node::Break { .. } => Form::Break,
            Node::Continue { .. } => Form::Continue,
            Node::Print { newline, text, .. } => Form::Print(*newline, text.as_slice()),
            Node::Panic { .. } => Form::Panic,
            Node::Assert { .. } => Form::Assert,
            Node::Let { variable, .. } => Form::Let(*variable),
            Node::Statement { .. } => Form::Statement,
        }
    }
}
