//! What lies in a node.

ghost use Rattle.std.specs.Prelude.{◌≡◌};
ghost use Rattle.std.specs.Option.{option_map};
ghost use Rattle.tb_thir.specs.Parts.{told, parts_of};

use crate::node::Node;
use sqlite_items::Boxed;

/// The nodes that lie in a node, in the order of the text; those of an assignment as they are written, its
/// target first.
#[derive(Clone, Copy)]
pub enum Parts<'a> {
    Nothing,
    One(&'a Node),
    Two(&'a Node, &'a Node),
    Three(&'a Node, &'a Node, &'a Node),
    /// The parts of a tuple, an array or a struct, and the arguments of a call or of a print.
    Listed(&'a [Node]),
    /// The statements of a block, and its last expression.
    Body(&'a [Node], Option<&'a Node>),
}

impl Node {
    /// What lies in the node.
    pub fn parts(&self) -> Parts<'_>
        ensures parts { told result ≡ parts_of self.now }
    {
        match self {
            Node::Field { base: part, .. }
            | Node::Deref { pointer: part, .. }
            | Node::Borrow { operand: part, .. }
            | Node::Unary { operand: part, .. }
            | Node::Cast { operand: part, .. }
            | Node::Unsize { operand: part, .. }
            | Node::Repeat { element: part, .. }
            | Node::Length { operand: part, .. }
            | Node::DropValue { operand: part, .. }
            | Node::Loop { body: part, .. }
            | Node::Assert {
                condition: part,
                ..
            }
            | Node::Statement {
                expression: part,
                ..
            } => Parts::One(part.get()),
            Node::Index {
                base: first,
                index: second,
                ..
            }
            | Node::Binary {
                left: first,
                right: second,
                ..
            }
            | Node::Logic {
                left: first,
                right: second,
                ..
            }
            | Node::Assign {
                target: first,
                value: second,
                ..
            }
            | Node::AssignOperator {
                target: first,
                value: second,
                ..
            }
            | Node::While {
                condition: first,
                body: second,
                ..
            } => Parts::Two(first.get(), second.get()),
            Node::Make { parts: list, .. }
            | Node::Call {
                arguments: list,
                ..
            }
            | Node::Builtin {
                arguments: list,
                ..
            }
            | Node::Print {
                arguments: list,
                ..
            } => Parts::Listed(list.as_slice()),
            Node::Block {
                statements,
                last,
                ..
            } => Parts::Body(statements.as_slice(), optional(last)),
            Node::If {
                condition,
                body,
                otherwise,
                ..
            } => match otherwise {
                Some(otherwise) => Parts::Three(condition.get(), body.get(), otherwise.get()),
                None => Parts::Two(condition.get(), body.get()),
            },
            Node::Return { value, .. } | Node::Let { value, .. } => match value {
                Some(value) => Parts::One(value.get()),
                None => Parts::Nothing,
            },
            _ => Parts::Nothing,
        }
    }
}

/// A node that may be there.
fn optional(node: &Option<Boxed<Node>>) -> Option<&Node>
    ensures { option_map (λ part. part.now) result ≡ node.now }
{
    match node {
        Some(node) => Some(node.get()),
        None => None,
    }
}
