//! The forms of trees. A form that begins with `:` is one whose type is copied.
//!
//! - `(. e )` a field, `([] e e )` an element, `(* e )` what a pointer leads to; `(:. e )`, `(:[] e e )` and
//!   `(:* e )` where their types are copied.
//! - `(& e )`, `(- e )`, `(+ e e )`, `(as e )`, `(unsize e )`, `(make e .. )`, `(repeat e )`, `(call e .. )`,
//!   `(builtin e .. )`, `(len e )`, `(drop e )`, `(print e .. )`, `(assert e )`, `(st e )` for a statement.
//! - `(&& e e )`, `(= e e )`, `(+= e e )`, `(let7 )` and `(let7 e )`.
//! - `(block e .. )` of statements, and `(value e .. )` of statements and a last expression; `(if e e )`,
//!   `(if e e e )`, `(while e e )`, `(loop e )`, `(return )`, `(return e )`, `(break )`, `(continue )`,
//!   `(panic )`.

ghost use Rattle.std.specs.Prelude.{◌≡◌, None};
ghost use Rattle.std.specs.List.{AllByRecursion};
ghost use Rattle.tb_types.specs.Table.{IsType, named_in, item_named};

use sqlite_items::{Boxed, Items};
use std::alloc::{AllocError, Global};
use tb_perm::Span;
use tb_thir::{BinaryOperator, BorrowKind, Constant, Head, LogicOperator, Node, UnaryOperator};
use tb_types::{Builtin, IntKind, Ty, TyShape, Types};

/// The types of a case, and how many variables its functions have.
#[derive(Clone, Copy, Debug, PartialEq, Eq)]
pub struct Kinds {
    pub copied: Ty,
    pub moved: Ty,
    pub unit: Ty,
    pub variables: u32,
}

impl Kinds {
    /// A variable or a literal.
    pub fn leaf(&self, word: &str, span: Span) -> Option<Node> {
        if let Some(digits) = word.strip_prefix("b") {
            return Some(Node::Variable {
                head: Head {
                    ty: self.moved,
                    span,
                },
                variable: digits.parse::<u32>().ok()?,
                mutable: true,
            });
        }
        let head = Head {
            ty: self.copied,
            span,
        };
        if let Some(digits) = word.strip_prefix("n") {
            return Some(Node::Variable {
                head,
                variable: digits.parse::<u32>().ok()?,
                mutable: true,
            });
        }
        if word == "1" {
            return Some(Node::Literal {
                head,
                value: Constant::Int(1, IntKind::I32),
            });
        }
        None
    }
}

/// The type of a shape without parts.
fn plain(types: &mut Types, shape: TyShape) -> Option<Ty>
    requires named { AllByRecursion (IsType types.old) (named_in shape) }
    requires item { item_named shape ≡ None }
{
    if types.count() > 9 {
        return None;
    }
    types.intern(shape).ok()
}

/// `i32`, `Box<i32>` and `()`.
pub fn kinds_of(types: &mut Types, variables: u32) -> Option<Kinds> {
    let copied = plain(types, TyShape::Int(IntKind::I32))?;
    if copied.0 >= types.count() {
        return None;
    }
    let moved = plain(types, TyShape::Boxed(copied))?;
    let unit = plain(types, TyShape::Unit)?;
    Some(Kinds {
        copied,
        moved,
        unit,
        variables,
    })
}

/// The form of this name with these parts, if there is one.
pub fn build(
    alloc: Global,
    kinds: &Kinds,
    form: &str,
    span: Span,
    parts: Vec<Node>,
) -> Result<Option<Node>, AllocError> {
    let (ty, form) = match form.strip_prefix(":") {
        Some(form) => (kinds.copied, form),
        None => (kinds.moved, form),
    };
    let head = Head { ty, span };
    match form {
        "block" => Ok(Some(Node::Block {
            head,
            statements: Items::from_vec(parts),
            last: None,
            diverges: false,
        })),
        "make" | "call" | "builtin" | "print" => Ok(Some(listed(alloc, head, form, parts))),
        "value" => with_last(alloc, head, parts),
        _ => boxed(alloc, head, form, parts),
    }
}

fn listed(alloc: Global, head: Head, form: &str, parts: Vec<Node>) -> Node {
    let list = Items::from_vec(parts);
    match form {
        "make" => Node::Make {
            head,
            parts: list,
            order: Items::new(alloc),
        },
        "call" => Node::Call {
            head,
            function: 0,
            arguments: list,
        },
        "print" => Node::Print {
            head,
            newline: true,
            text: Items::new(alloc),
            arguments: list,
        },
        _ => Node::Builtin {
            head,
            builtin: Builtin::BoxNew,
            about: head.ty,
            arguments: list,
        },
    }
}

fn with_last(alloc: Global, head: Head, mut parts: Vec<Node>) -> Result<Option<Node>, AllocError> {
    let last = last_of(alloc, &mut parts)?;
    Ok(Some(Node::Block {
        head,
        statements: Items::from_vec(parts),
        last,
        diverges: false,
    }))
}

/// Takes the last part.
fn last_of(alloc: Global, parts: &mut Vec<Node>) -> Result<Option<Boxed<Node>>, AllocError> {
    match parts.pop() {
        Some(node) => Ok(Some(Boxed::new(alloc, node)?)),
        None => Ok(None),
    }
}

/// The forms of at most three parts.
fn boxed(
    alloc: Global,
    head: Head,
    form: &str,
    mut parts: Vec<Node>,
) -> Result<Option<Node>, AllocError> {
    let count = parts.len();
    let third = if count > 2 {
        last_of(alloc, &mut parts)?
    } else {
        None
    };
    let second = if count > 1 {
        last_of(alloc, &mut parts)?
    } else {
        None
    };
    let first = last_of(alloc, &mut parts)?;
    Ok(match (first, second) {
        (Some(first), Some(second)) => two(head, form, first, second, third),
        (Some(first), None) => one(head, form, first),
        (None, _) => none(head, form),
    })
}

fn none(head: Head, form: &str) -> Option<Node> {
    match form {
        "return" => Some(Node::Return { head, value: None }),
        "break" => Some(Node::Break { head }),
        "continue" => Some(Node::Continue { head }),
        "panic" => Some(Node::Panic { head }),
        _ => Some(Node::Let {
            head,
            variable: form.strip_prefix("let")?.parse::<u32>().ok()?,
            value: None,
        }),
    }
}

fn one(head: Head, form: &str, part: Boxed<Node>) -> Option<Node> {
    match form {
        "." => Some(Node::Field {
            head,
            base: part,
            field: 0,
            mutable: true,
        }),
        "*" => Some(Node::Deref {
            head,
            pointer: part,
            mutable: true,
        }),
        "&" => Some(Node::Borrow {
            head,
            kind: BorrowKind::Shared,
            operand: part,
        }),
        "-" => Some(Node::Unary {
            head,
            operator: UnaryOperator::Neg,
            operand: part,
        }),
        "as" => Some(Node::Cast {
            head,
            operand: part,
        }),
        "unsize" => Some(Node::Unsize {
            head,
            operand: part,
            length: 1,
        }),
        "repeat" => Some(Node::Repeat {
            head,
            element: part,
            length: 1,
        }),
        _ => one_more(head, form, part),
    }
}

fn one_more(head: Head, form: &str, part: Boxed<Node>) -> Option<Node> {
    match form {
        "len" => Some(Node::Length {
            head,
            operand: part,
        }),
        "drop" => Some(Node::DropValue {
            head,
            operand: part,
        }),
        "loop" => Some(Node::Loop {
            head,
            body: part,
            breaks: true,
        }),
        "assert" => Some(Node::Assert {
            head,
            condition: part,
        }),
        "st" => Some(Node::Statement {
            head,
            expression: part,
        }),
        "return" => Some(Node::Return {
            head,
            value: Some(part),
        }),
        _ => Some(Node::Let {
            head,
            variable: form.strip_prefix("let")?.parse::<u32>().ok()?,
            value: Some(part),
        }),
    }
}

fn two(
    head: Head,
    form: &str,
    first: Boxed<Node>,
    second: Boxed<Node>,
    third: Option<Boxed<Node>>,
) -> Option<Node> {
    match form {
        "[]" => Some(Node::Index {
            head,
            base: first,
            index: second,
            mutable: true,
        }),
        "+" => Some(Node::Binary {
            head,
            operator: BinaryOperator::Add,
            left: first,
            right: second,
        }),
        "&&" => Some(Node::Logic {
            head,
            operator: LogicOperator::And,
            left: first,
            right: second,
        }),
        "=" => Some(Node::Assign {
            head,
            target: first,
            value: second,
        }),
        "+=" => Some(Node::AssignOperator {
            head,
            operator: BinaryOperator::Add,
            target: first,
            value: second,
        }),
        "if" => Some(Node::If {
            head,
            condition: first,
            body: second,
            otherwise: third,
            diverges: false,
        }),
        "while" => Some(Node::While {
            head,
            condition: first,
            body: second,
        }),
        _ => None,
    }
}
