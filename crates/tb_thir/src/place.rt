//! What a node is by itself.

ghost use Rattle.std.specs.Prelude.{◌≡◌};
ghost use Rattle.tb_thir.specs.Nodes.{head_of, is_place, is_mutable, diverges};

use crate::node::{Head, Node};

impl Node {
    /// The type of the node and where it stands.
    pub fn head(&self) -> Head
        ensures { result ≡ head_of self.now }
    {
        match self {
            Node::Literal { head, .. }
            | Node::Variable { head, .. }
            | Node::Field { head, .. }
            | Node::Index { head, .. }
            | Node::Deref { head, .. }
            | Node::Borrow { head, .. }
            | Node::Unary { head, .. }
            | Node::Binary { head, .. }
            | Node::Logic { head, .. }
            | Node::Cast { head, .. }
            | Node::Unsize { head, .. }
            | Node::Make { head, .. }
            | Node::Repeat { head, .. }
            | Node::Call { head, .. }
            | Node::Builtin { head, .. }
            | Node::Length { head, .. }
            | Node::DropValue { head, .. }
            | Node::Assign { head, .. }
            | Node::AssignOperator { head, .. }
            | Node::Block { head, .. }
            | Node::If { head, .. }
            | Node::While { head, .. }
            | Node::Loop { head, .. }
            | Node::Return { head, .. }
            | Node::Break { head }
            | Node::Continue { head }
            | Node::Print { head, .. }
            | Node::Panic { head }
            | Node::Assert { head, .. }
            | Node::Let { head, .. }
            | Node::Statement { head, .. } => *head,
        }
    }

    /// Whether the node is a place: a variable, a field, an element, or what a pointer points to (Rust
    /// Reference, "Place expressions and value expressions").
    pub fn is_place(&self) -> bool
        ensures { result ≡ is_place self.now }
    {
        matches!(
            self,
            Node::Variable { .. } | Node::Field { .. } | Node::Index { .. } | Node::Deref { .. }
        )
    }

    /// Whether the node may be assigned to and borrowed with `mut`. A place says so itself; a value always
    /// may be borrowed, since it gets a place of its own.
    pub fn is_mutable(&self) -> bool
        ensures { result ≡ is_mutable self.now }
    {
        match self {
            Node::Variable { mutable, .. }
            | Node::Field { mutable, .. }
            | Node::Index { mutable, .. }
            | Node::Deref { mutable, .. } => *mutable,
            _ => true,
        }
    }

    /// Whether nothing comes after the node: a `return`, `break`, `continue` or `panic!`, a `loop` that no
    /// `break` leaves, a block that ends with such a node, and an `if` whose branches are two such nodes.
    pub fn diverges(&self) -> bool
        ensures { result ≡ diverges self.now }
    {
        match self {
            Node::Return { .. } | Node::Break { .. } | Node::Continue { .. } | Node::Panic { .. } =>
                true,
            Node::Loop { breaks, .. } => !*breaks,
            Node::Block { diverges, .. } | Node::If { diverges, .. } => *diverges,
            _ => false,
        }
    }
}
