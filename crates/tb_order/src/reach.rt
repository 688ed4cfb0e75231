//! The nodes that a node reaches.

ghost use Rattle.std.specs.Prelude.{◌≡◌, ℕ, ◌<◌, ◌^◌, length, true, IfOk, IfSome, IfNone};
ghost use Rattle.tb_order.specs.Graph.{graph_of, AreNodes, Reaches};
ghost use Rattle.tb_order.specs.Marks.{AreReached};
ghost use Rattle.tb_order.specs.Answer.{HasNoCircle, IsLeastCircle};

use crate::marks::Marks;
use crate::placing::held;
use std::alloc::{AllocError, Global};

/// The nodes that a node reaches.
fn reached(alloc: Global, graph: &[Vec<u32>], from: u32) -> Result<Marks, AllocError>
    requires nodes { AreNodes (graph_of graph.now) }
    requires from { from < length graph.now }
    ensures reached { IfOk result (λ marks. AreReached (graph_of graph.now) from marks.nodes.items) }
    ensures count { IfOk result (λ marks. length marks.flags.items ≡ length graph.now) }
{
    let mut marks = Marks::none(alloc, graph.len())?;
    marks.add_all(held(graph, from))?;
    let mut at = 0;
    while at < marks.nodes.len() {
        let node = marks.nodes[at];
        marks.add_all(held(graph, node))?;
        at += 1;
    }
    Ok(marks)
}

/// Whether a node reaches itself.
fn reaches_itself(alloc: Global, graph: &[Vec<u32>], node: u32) -> Result<bool, AllocError>
    requires nodes { AreNodes (graph_of graph.now) }
    requires node { node < length graph.now }
    ensures yes { IfOk result (λ found. found ≡ true → Reaches (graph_of graph.now) node node) }
    ensures no { IfOk result (λ found. Reaches (graph_of graph.now) node node → found ≡ true) }
{
    let marks = reached(alloc, graph, node)?;
    Ok(marks.has(node))
}

/// The least node that reaches itself.
pub(crate) fn least_circle(alloc: Global, graph: &[Vec<u32>]) -> Result<Option<u32>, AllocError>
    requires nodes { AreNodes (graph_of graph.now) }
    requires few { length graph.now < 2 ^ 32 }
    ensures least { IfOk result (λ found. IfSome found (IsLeastCircle (graph_of graph.now))) }
    ensures node { IfOk result (λ found. IfSome found (λ node. node < length graph.now)) }
    ensures none { IfOk result (λ found. IfNone found (HasNoCircle (graph_of graph.now))) }
{
    for node in 0..graph.len() {
        if reaches_itself(alloc, graph, node as u32)? {
            return Ok(Some(node as u32));
        }
    }
    Ok(None)
}
