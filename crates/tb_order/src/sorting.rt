//! The order of the nodes, or the least that reaches itself.

ghost use Rattle.std.specs.Prelude.{◌≡◌, ◌<◌, ◌^◌, length, IfOk};
ghost use Rattle.tb_order.specs.Graph.{graph_of, AreNodes};
ghost use Rattle.tb_order.specs.Answer.{OrdersAll, HasNoCircle, IsLeastCircle, IfSorted, IfCircle};

use crate::placing::place_all;
use crate::reach::least_circle;
use std::alloc::{AllocError, Global};

/// An order of the nodes, or why there is none.
#[derive(Debug, Drop)]
pub enum Order {
    /// Every node once, each after those that it holds.
    Sorted(Vec<u32>),
    /// The least node that reaches itself.
    Circle(u32),
}

/// Puts the nodes of a graph in an order in which each comes after those that it holds. Where a node reaches
/// itself, through one or more edges, there is no such order, and the least such node is answered.
///
/// Node k holds the nodes in the k-th vector. Each number in the vectors is below the number of vectors, of
/// which there are fewer than 2^32. An edge may stand there twice.
///
/// # Errors
///
/// `AllocError` where memory runs out.
pub fn order_of(alloc: Global, graph: &[Vec<u32>]) -> Result<Order, AllocError>
    requires nodes { AreNodes (graph_of graph.now) }
    requires few { length graph.now < 2 ^ 32 }
    ensures sorted { IfOk result (λ order. IfSorted order (OrdersAll (graph_of graph.now))) }
    ensures none { IfOk result (λ order. IfSorted order (λ _. HasNoCircle (graph_of graph.now))) }
    ensures circle { IfOk result (λ order. IfCircle order (IsLeastCircle (graph_of graph.now))) }
    ensures node { IfOk result (λ order. IfCircle order (λ node. node < length graph.now)) }
{
    let placed = place_all(alloc, graph)?;
    if placed.nodes.len() == graph.len() {
        return Ok(Order::Sorted(placed.nodes));
    }
    match least_circle(alloc, graph)? {
        Some(node) => Ok(Order::Circle(node)),
        None => unreachable!(),
    }
}
