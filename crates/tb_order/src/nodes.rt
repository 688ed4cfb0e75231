//! Whether a graph names nothing but its own nodes.

ghost use Rattle.std.specs.Prelude.{◌≡◌, nat_lt, map, length, true};
ghost use Rattle.std.specs.List.{list_all};
ghost use Rattle.tb_order.specs.Graph.{graph_of, AreNodes};
ghost use Rattle.tb_order.specs.Marks.{are_below};

fn are_below(nodes: &[u32], count: usize) -> bool
    ensures { result ≡ are_below count nodes.now }
{
    for node in nodes {
        if *node as usize >= count {
            return false;
        }
    }
    true
}

fn rows_below(graph: &[Vec<u32>], count: usize) -> bool
    ensures { result ≡ list_all (are_below count) (graph_of graph.now) }
{
    for row in graph {
        if !are_below(row, count) {
            return false;
        }
    }
    true
}

/// Whether each number in the vectors is a node, so below the number of vectors: what `order_of` requires.
#[tactic(auto, using(crate::proofs::Sets::nodes_from_test, crate::proofs::Sets::test_from_nodes))]
pub fn are_nodes(graph: &[Vec<u32>]) -> bool
    ensures yes { result ≡ true → AreNodes (graph_of graph.now) }
    ensures no { AreNodes (graph_of graph.now) → result ≡ true }
{
    rows_below(graph, graph.len())
}
