//! Typed trees, summed up for one question about one variable.

ghost use Rattle.std.specs.Prelude.{◌≡◌, map, ◌==◌, if◌then◌else◌};
ghost use Rattle.std.specs.Option.{option_map};
ghost use Rattle.tb_types.specs.Facts.{is_copy};
ghost use Rattle.tb_flow.specs.declared.mark.Mark.TheVariants.{Kept};
ghost use Rattle.tb_flow.specs.Flows.{Does, Uses, Part, Moved, Given, Declared};
ghost use Rattle.tb_flow.specs.Summaries.{summary_of, marked, with_mark, run};
ghost use Rattle.tb_moves.specs.Trees.{flows_of, pieces_of, control_in, jump_in, operand_in, in_order, if_there, moved_out};

use sqlite_items::Boxed;
use tb_flow::{Mark, Question, Summary};
use tb_perm::Span;
use tb_thir::{Head, Node};
use tb_types::{Ty, Types};

/// One question about one variable.
#[derive(Clone, Copy)]
pub struct Scan<'a> {
    pub types: &'a Types,
    pub question: Question,
    pub variable: usize,
}

// What happens to variables.
impl Scan<'_> {
    /// An event about a variable, which does this to the answer if it is the one that is asked about.
    fn event(&self, variable: u32, mark: Mark, whole: &mut Summary)
        ensures { whole.new ≡ with_mark (if variable == self.now.variable then mark else Kept) whole.old }
    {
        if variable as usize == self.variable {
            *whole = whole.then(Summary::marked(mark));
        }
    }

    fn given(&self, variable: u32, whole: &mut Summary)
        ensures { whole.new ≡ run self.now.question self.now.variable whole.old (Does (Given variable)) }
    {
        self.event(variable, Mark::No, whole);
    }

    fn declared(&self, variable: u32, whole: &mut Summary)
        ensures { whole.new ≡ run self.now.question self.now.variable whole.old (Does (Declared variable)) }
    {
        match self.question {
            Question::NoValue => self.event(variable, Mark::Yes, whole),
            Question::AfterMove => self.event(variable, Mark::No, whole),
        }
    }

    fn used(&self, variable: u32, span: Span, whole: &mut Summary)
        ensures { whole.new ≡ run self.now.question self.now.variable whole.old (Uses variable span) }
    {
        if variable as usize == self.variable {
            *whole = whole.then(Summary::used(span));
        }
    }

    /// Whether a value of the type is copied when it is read. A number that is no type counts as `()`.
    fn copies(&self, ty: Ty) -> bool
        ensures { result ≡ is_copy self.now.types.now ty }
    {
        ty.0 >= self.types.count() || self.types.is_copy(ty)
    }

    /// A read of a variable.
    fn read(&self, head: Head, variable: u32, whole: &mut Summary)
        ensures { whole.new ≡ run self.now.question self.now.variable whole.old (moved_out self.now.types.now head (Does (Moved variable))) }
    {
        if !self.copies(head.ty) {
            self.event(variable, Mark::Yes, whole);
        }
    }

    /// A read of a part.
    fn read_part(&self, head: Head, whole: &mut Summary)
        ensures { whole.new ≡ run self.now.question self.now.variable whole.old (moved_out self.now.types.now head (Part head.span)) }
    {
        if !self.copies(head.ty) {
            *whole = whole.then(Summary::part_moved(head.span));
        }
    }
}

// Typed trees: each node is put behind what was gone through.
impl Scan<'_> {
    /// A node whose value is read.
    #[cycle(nodes)]
    pub fn value(&self, node: &Node, whole: &mut Summary)
        ensures { whole.new ≡ run self.now.question self.now.variable whole.old (flows_of self.now.types.now node.now).value }
    {
        match node {
            Node::Variable { head, variable, .. } => {
                self.used(*variable, head.span, whole);
                self.read(*head, *variable, whole);
            }
            Node::Field { head, base, .. } => {
                self.place(base.get(), whole);
                self.read_part(*head, whole);
            }
            Node::Index {
                head,
                base,
                index,
                ..
            } => {
                self.place(base.get(), whole);
                self.value(index.get(), whole);
                self.read_part(*head, whole);
            }
            Node::Deref { head, pointer, .. } => {
                self.place(pointer.get(), whole);
                self.read_part(*head, whole);
            }
            _ => self.control(node, whole),
        }
    }

    /// A node that is a place, if it can be one.
    #[cycle(nodes)]
    fn place(&self, node: &Node, whole: &mut Summary)
        ensures { whole.new ≡ run self.now.question self.now.variable whole.old (flows_of self.now.types.now node.now).place }
    {
        match node {
            Node::Variable { head, variable, .. } => self.used(*variable, head.span, whole),
            Node::Field { base, .. } => self.place(base.get(), whole),
            Node::Index { base, index, .. } => {
                self.place(base.get(), whole);
                self.value(index.get(), whole);
            }
            Node::Deref { pointer, .. } => self.place(pointer.get(), whole),
            _ => self.control(node, whole),
        }
    }

    /// The whole target of an assignment.
    #[cycle(nodes)]
    fn target(&self, node: &Node, whole: &mut Summary)
        ensures { whole.new ≡ run self.now.question self.now.variable whole.old (flows_of self.now.types.now node.now).target }
    {
        match node {
            Node::Variable { variable, .. } => self.given(*variable, whole),
            _ => self.place(node, whole),
        }
    }

    /// A node whose value is read, by itself.
    #[cycle(nodes)]
    fn alone(&self, node: &Node) -> Summary
        ensures { result ≡ run self.now.question self.now.variable (marked Kept) (flows_of self.now.types.now node.now).value }
    {
        let mut whole = Summary::marked(Mark::Kept);
        self.value(node, &mut whole);
        whole
    }

    /// A node that is no place: where ways part, meet and end, and what gives variables a value.
    #[cycle(nodes)]
    fn control(&self, node: &Node, whole: &mut Summary)
        ensures { whole.new ≡ run self.now.question self.now.variable whole.old (control_in (pieces_of self.now.types.now node.now)) }
    {
        match node {
            Node::Logic { left, right, .. } => {
                self.value(left.get(), whole);
                let right = self.alone(right.get());
                *whole = whole.then(right.either(Summary::marked(Mark::Kept)));
            }
            Node::Assign { target, value, .. } => {
                self.value(value.get(), whole);
                self.target(target.get(), whole);
            }
            Node::AssignOperator { target, value, .. } => {
                self.value(value.get(), whole);
                self.place(target.get(), whole);
            }
            Node::Block {
                statements,
                last,
                ..
            } => {
                self.in_order(statements.as_slice(), whole);
                self.if_there(last, whole);
            }
            Node::If {
                condition,
                body,
                otherwise,
                ..
            } => {
                self.value(condition.get(), whole);
                let body = self.alone(body.get());
                let mut other = Summary::marked(Mark::Kept);
                self.if_there(otherwise, &mut other);
                *whole = whole.then(body.either(other));
            }
            Node::Let {
                variable,
                value,
                ..
            } => match value {
                Some(value) => {
                    self.value(value.get(), whole);
                    self.given(*variable, whole);
                }
                None => self.declared(*variable, whole),
            },
            _ => self.jump(node, whole),
        }
    }

    /// A loop, or what nothing comes after.
    #[cycle(nodes)]
    fn jump(&self, node: &Node, whole: &mut Summary)
        ensures { whole.new ≡ run self.now.question self.now.variable whole.old (jump_in (pieces_of self.now.types.now node.now)) }
    {
        match node {
            Node::While {
                condition,
                body,
                ..
            } => {
                let head = self.alone(condition.get());
                let body = self.alone(body.get());
                *whole = whole.then(Summary::looped(head, true, body));
            }
            Node::Loop { body, .. } => {
                let head = Summary::marked(Mark::Kept);
                let body = self.alone(body.get());
                *whole = whole.then(Summary::looped(head, false, body));
            }
            Node::Return { value, .. } => {
                self.if_there(value, whole);
                *whole = whole.then(Summary::stopping());
            }
            Node::Break { .. } => *whole = whole.then(Summary::breaking()),
            Node::Continue { .. } => *whole = whole.then(Summary::continuing()),
            Node::Panic { .. } => *whole = whole.then(Summary::stopping()),
            _ => self.operands(node, whole),
        }
    }

    /// A node that evaluates its parts in the order of the text.
    #[cycle(nodes)]
    fn operands(&self, node: &Node, whole: &mut Summary)
        ensures { whole.new ≡ run self.now.question self.now.variable whole.old (operand_in (pieces_of self.now.types.now node.now)) }
    {
        match node {
            Node::Borrow { operand, .. } | Node::Length { operand, .. } => {
                self.place(operand.get(), whole)
            }
            Node::Unary { operand: part, .. }
            | Node::Cast { operand: part, .. }
            | Node::Unsize { operand: part, .. }
            | Node::Repeat { element: part, .. }
            | Node::DropValue { operand: part, .. }
            | Node::Assert {
                condition: part,
                ..
            }
            | Node::Statement {
                expression: part,
                ..
            } => self.value(part.get(), whole),
            Node::Binary { left, right, .. } => {
                self.value(left.get(), whole);
                self.value(right.get(), whole);
            }
            Node::Make { parts: list, .. }
            | Node::Call {
                arguments: list,
                ..
            }
            | Node::Builtin {
                arguments: list,
                ..
            }
            | Node::Print {
                arguments: list,
                ..
            } => self.in_order(list.as_slice(), whole),
            _ => {}
        }
    }

    /// Nodes one after the other.
    #[cycle(nodes)]
    fn in_order(&self, nodes: &[Node], whole: &mut Summary)
        ensures { whole.new ≡ run self.now.question self.now.variable whole.old (in_order (map (flows_of self.now.types.now) nodes.now)) }
    {
        for node in nodes {
            self.value(node, whole);
        }
    }

    /// A node that may be left out.
    #[cycle(nodes)]
    fn if_there(&self, node: &Option<Boxed<Node>>, whole: &mut Summary)
        ensures { whole.new ≡ run self.now.question self.now.variable whole.old (if_there (option_map (flows_of self.now.types.now) node.now)) }
    {
        if let Some(node) = node {
            self.value(node.get(), whole);
        }
    }
}

/// The summary of a node whose value is read.
pub fn summed(scan: &Scan<'_>, node: &Node) -> Summary
    ensures { result ≡ summary_of scan.now.question scan.now.variable (flows_of scan.now.types.now node.now).value }
{
    scan.alone(node)
}
