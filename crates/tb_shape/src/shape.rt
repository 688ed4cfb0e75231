ghost use Rattle.std.specs.Prelude.{◌≡◌, ◌≢◌, ◌↔◌, ◌⊎◌, ℕ, List, [], ◌∷◌, Some, None, IsTrue, IsSome, IfOk, IfSome, OnOk, OnErr, false};
ghost use Rattle.tb_shape.specs.Tree.{HasKey, parent_of, AreChildren, IsKeys, IsPath, IsAncestor, with_child, without, spliced};

use crate::edits::{children_in, cut, hang, plant, splice_out};
use crate::entries::{Entry, climb, is_above, parent_in};
use crate::nodes::Node;
use slab::Slab;
use std::alloc::{AllocError, Global};
use std::marker::Model;

/// A tree over keys. Contracts see it as the list of its keys, in rising order, each with its
/// parent; the root has none.
#[derive(Drop)]
pub struct Shape {
    entries: Vec<Entry>,
    nodes: Slab<Node>,
    root: u64,
}

impl Model for Shape {
    ghost use Rattle.std.specs.Prelude.{List, ℕ, Option};
    ghost use Rattle.tb_shape.specs.Entries.{tree_of};
    ghost use Rattle.tb_shape.specs.Shape.{IsShape};

    ghost Value = { List (ℕ × Option ℕ) };

    ghost view = { λ s. tree_of s.entries.items };

    ghost invariant = { λ s. IsShape s.entries.items s.nodes s.root };
}

impl Shape {
    /// The tree of a root alone.
    pub fn new(alloc: Global, root: u64) -> Result<Shape, AllocError>
        ensures { IfOk result (λ shape. shape ≡ (root, None) ∷ []) }
    {
        let mut nodes = Slab::new(alloc);
        let mut entries = Vec::new(alloc);
        plant(&mut entries, &mut nodes, root)?;
        Ok(Shape {
            entries,
            nodes,
            root,
        })
    }

    /// Adds a key, which is not there yet, below a parent, which is. After want of memory the tree is
    /// unchanged.
    pub fn add_child(&mut self, parent: u64, key: u64) -> Result<(), AllocError>
        requires parent { HasKey self.old parent }
        requires fresh { ¬ HasKey self.old key }
        ensures ok { OnOk result (self.new ≡ with_child parent key self.old) }
        ensures err { OnErr result (self.new ≡ self.old) }
    {
        hang(&mut self.entries, &mut self.nodes, parent, key)
    }

    /// The root: the key that has no parent.
    pub fn root(&self) -> u64
        ensures { IsKeys self.now result }
    {
        self.root
    }

    /// The parent of a key; none for the root, and for a key that is not there.
    pub fn parent(&self, key: u64) -> Option<u64>
        ensures value { result ≡ parent_of self.now key }
        ensures there { IfSome result (λ parent. HasKey self.now parent) }
    {
        parent_in(&self.entries, key)
    }

    /// The keys whose parent is this one, each once, in no special order; none for a key that is not
    /// there.
    pub fn children(&self, key: u64) -> &[u64]
        ensures children { AreChildren self.now key result.now }
        ensures missing { ¬ HasKey self.now key → result.now ≡ [] }
    {
        children_in(&self.entries, &self.nodes, key)
    }

    /// Whether the first key is on the path from the second to the root. A key of the tree is its own
    /// ancestor; a key that is not there has none.
    pub fn is_ancestor(&self, a: u64, b: u64) -> bool
        ensures { IsTrue result ↔ IsAncestor self.now a b }
    {
        is_above(&self.entries, a, b)
    }

    /// The keys on the path from a key to the root, both included.
    pub fn path(&self, key: u64) -> Result<Vec<u64>, AllocError>
        requires { HasKey self.now key }
        ensures { IfOk result (λ path. IsPath self.now key path.items) }
    {
        climb(*self.entries.allocator(), &self.entries, key)
    }

    /// Takes out a key that has a parent and no children.
    pub fn drop_leaf(&mut self, key: u64)
        requires below { IsSome (parent_of self.old key) }
        requires leaf { (child : ℕ) → parent_of self.old child ≢ Some key }
        ensures { self.new ≡ without key self.old }
    {
        cut(&mut self.entries, &mut self.nodes, key);
    }

    /// Takes out a key that has a parent and one child, which becomes its parent's child.
    pub fn splice(&mut self, key: u64)
        requires below { IsSome (parent_of self.old key) }
        requires one { (child : ℕ) × (parent_of self.old child ≡ Some key) × ((other : ℕ) → parent_of self.old other ≡ Some key → other ≡ child) }
        ensures { self.new ≡ spliced key self.old }
    {
        splice_out(&mut self.entries, &mut self.nodes, key);
    }
}
