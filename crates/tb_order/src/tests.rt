//! Small graphs, worked out by hand.

use crate::{Order, are_nodes, order_of};
use std::alloc::{AllocError, Global};
use std::test::Fail;

/// An edge: the first node holds the second.
type Edge = (usize, u32);

/// The graph with these edges.
fn with_edges(alloc: Global, count: usize, edges: &[Edge]) -> Result<Vec<Vec<u32>>, AllocError> {
    let mut graph: Vec<Vec<u32>> = Vec::new(alloc);
    for _ in 0..count {
        graph.push(Vec::new(alloc))?;
    }
    for (from, to) in edges {
        if let Some(row) = graph.get_mut(*from) {
            row.push(*to)?;
        }
    }
    Ok(graph)
}

/// Whether this is the answer: the node that reaches itself, or else the nodes in this order.
fn is_wanted(order: &Order, circle: Option<u32>, nodes: &[u32]) -> bool {
    match order {
        Order::Sorted(sorted) => circle.is_none() && sorted.as_slice() == nodes,
        Order::Circle(node) => circle == Some(*node),
    }
}

#[test]
fn small_graphs(rt: HostRuntime) -> Result<(), Fail> {
    let alloc = rt.alloc();
    // The number of nodes, the edges, the least node that reaches itself, and else the one order that there is.
    let cases: [(usize, &[Edge], Option<u32>, &[u32]); 11] = [
        (0, &[], None, &[]),
        (1, &[], None, &[0]),
        (3, &[(0, 1), (1, 2)], None, &[2, 1, 0]),
        (3, &[(1, 0), (2, 1)], None, &[0, 1, 2]),
        (4, &[(3, 1), (3, 2), (1, 0), (2, 1)], None, &[0, 1, 2, 3]),
        (
            3,
            &[(0, 1), (0, 1), (2, 0), (2, 0), (2, 1)],
            None,
            &[1, 0, 2],
        ),
        (2, &[(1, 1)], Some(1), &[]),
        (5, &[(3, 4), (4, 3), (1, 2), (2, 1)], Some(1), &[]),
        (3, &[(0, 2), (2, 0), (1, 1)], Some(0), &[]),
        (4, &[(0, 1), (1, 2), (2, 3), (3, 2)], Some(2), &[]),
        (5, &[(4, 3), (3, 2), (2, 1), (1, 4), (0, 4)], Some(1), &[]),
    ];
    for (count, edges, circle, nodes) in cases {
        let graph = with_edges(alloc, count, edges)?;
        assert!(rt; are_nodes(&graph));
        assert!(rt; graph.len() < 8);
        let order = order_of(alloc, &graph)?;
        assert!(rt; is_wanted(&order, circle, nodes), "of {count} nodes");
    }
    let strange = with_edges(alloc, 2, &[(1, 2)])?;
    assert!(rt; !are_nodes(&strange));
    Ok(())
}
