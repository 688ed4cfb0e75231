//! Placing each node after those that it holds, in rounds.

ghost use Rattle.std.specs.Prelude.{◌≡◌, ◌<◌, ◌≤◌, ◌^◌, length, true, false, IfOk, OnOk};
ghost use Rattle.tb_order.specs.Graph.{graph_of, held, AreNodes, IsOrder};
ghost use Rattle.tb_order.specs.Marks.{placed, AreStuck};

use crate::marks::Marks;
use std::alloc::{AllocError, Global};

/// The nodes that a node holds.
pub(crate) fn held(graph: &[Vec<u32>], node: u32) -> &[u32]
    requires { node < length graph.now }
    ensures { result.now ≡ held (graph_of graph.now) node }
{
    &graph[node as usize]
}

/// Places a node, unless it is placed or holds one that is not.
fn place(graph: &[Vec<u32>], marks: &mut Marks, node: u32) -> Result<(), AllocError>
    requires nodes { AreNodes (graph_of graph.now) }
    requires count { length marks.old.flags.items ≡ length graph.now }
    requires node { node < length graph.now }
    ensures placed { OnOk result (marks.new.nodes.items ≡ placed (graph_of graph.now) marks.old.nodes.items node) }
    ensures count { length marks.new.flags.items ≡ length graph.now }
{
    if marks.has(node) {
        return Ok(());
    }
    if !marks.have(held(graph, node)) {
        return Ok(());
    }
    marks.push(node)
}

/// Tries to place each node once, and says whether one was placed.
fn round(graph: &[Vec<u32>], marks: &mut Marks) -> Result<bool, AllocError>
    requires nodes { AreNodes (graph_of graph.now) }
    requires few { length graph.now < 2 ^ 32 }
    requires count { length marks.old.flags.items ≡ length graph.now }
    requires order { IsOrder (graph_of graph.now) marks.old.nodes.items }
    ensures order { OnOk result (IsOrder (graph_of graph.now) marks.new.nodes.items) }
    ensures more { IfOk result (λ more. more ≡ true → length marks.old.nodes.items < length marks.new.nodes.items) }
    ensures stuck { IfOk result (λ more. more ≡ false → AreStuck (graph_of graph.now) marks.new.nodes.items) }
    ensures count { length marks.new.flags.items ≡ length graph.now }
{
    let before = marks.nodes.len();
    for node in 0..graph.len() {
        place(graph, marks, node as u32)?;
    }
    Ok(before < marks.nodes.len())
}

/// The nodes that can be placed, each after those that it holds.
pub(crate) fn place_all(alloc: Global, graph: &[Vec<u32>]) -> Result<Marks, AllocError>
    requires nodes { AreNodes (graph_of graph.now) }
    requires few { length graph.now < 2 ^ 32 }
    ensures order { IfOk result (λ marks. IsOrder (graph_of graph.now) marks.nodes.items) }
    ensures stuck { IfOk result (λ marks. AreStuck (graph_of graph.now) marks.nodes.items) }
    ensures count { IfOk result (λ marks. length marks.flags.items ≡ length graph.now) }
{
    let mut marks = Marks::none(alloc, graph.len())?;
    loop {
        if !round(graph, &mut marks)? {
            return Ok(marks);
        }
    }
}
