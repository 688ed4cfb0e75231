//! Nodes that were marked, in the order in which they were.

ghost use Rattle.std.specs.Prelude.{◌≡◌, ◌<◌, [], ◌∷◌, ◌++◌, false, length, IfOk, OnOk};
ghost use Rattle.std.specs.List.{All};
ghost use Rattle.tb_order.specs.Graph.{is_among, are_among};
ghost use Rattle.tb_order.specs.Marks.{AreMarks, with_node, with_nodes};

use std::alloc::{AllocError, Global};

/// Nodes without repeats, and for each node whether it is one of them.
#[derive(Drop)]
pub(crate) struct Marks {
    pub(crate) flags: Vec<bool>,
    pub(crate) nodes: Vec<u32>,
    ghost tied: { AreMarks flags.items nodes.items },
}

impl Marks {
    /// No marks, on so many nodes.
    pub(crate) fn none(alloc: Global, count: usize) -> Result<Marks, AllocError>
        ensures nodes { IfOk result (λ marks. marks.nodes.items ≡ []) }
        ensures flags { IfOk result (λ marks. length marks.flags.items ≡ count) }
    {
        Ok(Marks {
            flags: vec![in alloc; false; count]?,
            nodes: Vec::new(alloc),
        })
    }

    /// Whether a node is marked.
    pub(crate) fn has(&self, node: u32) -> bool
        requires { node < length self.now.flags.items }
        ensures { result ≡ is_among node self.now.nodes.items }
    {
        self.flags[node as usize]
    }

    /// Whether all these nodes are marked.
    pub(crate) fn have(&self, nodes: &[u32]) -> bool
        requires { All (λ node. node < length self.now.flags.items) nodes.now }
        ensures { result ≡ are_among nodes.now self.now.nodes.items }
    {
        for node in nodes {
            if !self.has(*node) {
                return false;
            }
        }
        true
    }

    /// Marks a node that is not marked.
    pub(crate) fn push(&mut self, node: u32) -> Result<(), AllocError>
        requires node { node < length self.old.flags.items }
        requires new { is_among node self.old.nodes.items ≡ false }
        ensures nodes { OnOk result (self.new.nodes.items ≡ self.old.nodes.items ++ node ∷ []) }
        ensures flags { length self.new.flags.items ≡ length self.old.flags.items }
    {
        self.nodes.push(node)?;
        self.flags[node as usize] = true;
        Ok(())
    }

    /// Marks a node, unless it is marked.
    pub(crate) fn add(&mut self, node: u32) -> Result<(), AllocError>
        requires { node < length self.old.flags.items }
        ensures nodes { OnOk result (self.new.nodes.items ≡ with_node self.old.nodes.items node) }
        ensures flags { length self.new.flags.items ≡ length self.old.flags.items }
    {
        if self.has(node) {
            return Ok(());
        }
        self.push(node)
    }

    /// Marks these nodes, unless they are marked.
    pub(crate) fn add_all(&mut self, nodes: &[u32]) -> Result<(), AllocError>
        requires { All (λ node. node < length self.old.flags.items) nodes.now }
        ensures nodes { OnOk result (self.new.nodes.items ≡ with_nodes self.old.nodes.items nodes.now) }
        ensures flags { length self.new.flags.items ≡ length self.old.flags.items }
    {
        for node in nodes {
            self.add(*node)?;
        }
        Ok(())
    }
}
