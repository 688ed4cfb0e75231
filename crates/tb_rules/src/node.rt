//! Nodes that the source leaves out.

ghost use Rattle.std.specs.Prelude.{◌≡◌, IfOk};
ghost use Rattle.tb_rules.specs.Nodes.{span_of, deref, borrow, cast, reborrow};

use sqlite_items::Boxed;
use std::alloc::{AllocError, Global};
use tb_perm::Span;
use tb_thir::{BorrowKind, Head, Node};
use tb_types::Ty;

/// What a pointer leads to, a place that stands where the pointer does.
pub fn deref(alloc: Global, ty: Ty, mutable: bool, pointer: Node) -> Result<Node, AllocError>
    ensures { IfOk result (λ node. node ≡ deref ty mutable pointer) }
{
    let head = Head {
        ty,
        span: pointer.head().span,
    };
    let pointer = Boxed::new(alloc, pointer)?;
    Ok(Node::Deref {
        head,
        pointer,
        mutable,
    })
}

/// A borrow.
pub fn borrow(
    alloc: Global,
    head: Head,
    kind: BorrowKind,
    operand: Node,
) -> Result<Node, AllocError>
    ensures { IfOk result (λ node. node ≡ borrow head kind operand) }
{
    let operand = Boxed::new(alloc, operand)?;
    Ok(Node::Borrow {
        head,
        kind,
        operand,
    })
}

/// A cast.
pub fn cast(alloc: Global, head: Head, operand: Node) -> Result<Node, AllocError>
    ensures { IfOk result (λ node. node ≡ cast head operand) }
{
    let operand = Boxed::new(alloc, operand)?;
    Ok(Node::Cast { head, operand })
}

/// A borrow of what a reference leads to, of type `content`, as `&*e`.
pub fn reborrow(
    alloc: Global,
    head: Head,
    kind: BorrowKind,
    content: Ty,
    mutable: bool,
    pointer: Node,
) -> Result<Node, AllocError>
    ensures { IfOk result (λ node. node ≡ reborrow head kind content mutable pointer) }
{
    let place = deref(alloc, content, mutable, pointer)?;
    borrow(alloc, head, kind, place)
}
