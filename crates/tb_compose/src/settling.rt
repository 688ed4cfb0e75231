//! A typed expression where something is expected.

ghost use Rattle.std.specs.Prelude.{◌≡◌};
ghost use Rattle.tb_rules.specs.Answers.{Gives};
ghost use Rattle.tb_compose.specs.Settling.{settle};

use std::alloc::Global;
use tb_rules::{TypeError, Want, fit, type_fault};
use tb_thir::Node;
use tb_types::Types;

/// The node as it is expected. It is refused where its type may not stand or is too large, with that code, and then where it
/// does not fit what is expected.
pub fn settle(alloc: Global, types: &mut Types, want: Want, node: Node) -> Result<Node, TypeError>
    ensures settled { Gives result (λ node. (node, types.new)) (settle types.old want node) }
{
    let head = node.head();
    match type_fault(types, head.ty) {
        Some(code) => Err(TypeError::Refused(code, head.span)),
        None => fit(alloc, types, want, node),
    }
}
