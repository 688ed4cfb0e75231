//! What changes the keys of a tree and their nodes together.

ghost use Rattle.std.specs.Prelude.{◌≡◌, ◌≢◌, ◌≤◌, ◌<◌, ℕ, [], ◌∷◌, Some, None, IsSome, OnOk, OnErr, length, slice_index, vec_len, vec_capacity};
ghost use Rattle.slab.specs.Slab.{HasRoomFor};
ghost use Rattle.tb_shape.specs.Shape.{IsShape};
ghost use Rattle.tb_shape.specs.Entries.{tree_of};
ghost use Rattle.tb_shape.specs.Tree.{HasKey, AreChildren, parent_of, with_child, without, spliced};

use crate::entries::{Entry, above, insert_entry, look_up, present, remove_entry, reparent};
use crate::nodes::{
    Node, children_at, insert_node, push_child, remove_child, remove_node, swap_child,
};
use slab::Slab;
use smallvec::SmallVec;
use std::alloc::AllocError;

/// Puts the root into an empty tree.
pub fn plant(entries: &mut Vec<Entry>, nodes: &mut Slab<Node>, root: u64) -> Result<(), AllocError>
    requires { entries.old.items ≡ [] }
    ensures tree { OnOk result (tree_of entries.new.items ≡ (root, None) ∷ []) }
    ensures shape { OnOk result (IsShape entries.new.items nodes.new root) }
{
    let node = Node {
        key: root,
        children: SmallVec::new(*entries.allocator()),
    };
    let Ok(slot) = nodes.insert(node) else {
        return Err(AllocError);
    };
    let top = Entry {
        key: root,
        parent: None,
        depth: 0,
        slot,
    };
    match entries.push(top) {
        Ok(()) => Ok(()),
        Err(_) => Err(AllocError),
    }
}

/// The children of a key.
pub fn children_in<'a>(entries: &[Entry], nodes: &'a Slab<Node>, key: u64) -> &'a [u64]
    requires { (root : ℕ) × IsShape entries.now nodes.now root }
    ensures children { AreChildren (tree_of entries.now) key result.now }
    ensures missing { ¬ HasKey (tree_of entries.now) key → result.now ≡ [] }
{
    match look_up(entries, key) {
        Some(entry) => children_at(nodes, entry.slot),
        None => &[],
    }
}

/// Adds a key below a parent.
pub fn hang(
    entries: &mut Vec<Entry>,
    nodes: &mut Slab<Node>,
    parent: u64,
    key: u64,
) -> Result<(), AllocError>
    requires shape { (root : ℕ) × IsShape entries.old.items nodes.old root }
    requires parent { HasKey (tree_of entries.old.items) parent }
    requires fresh { ¬ HasKey (tree_of entries.old.items) key }
    ensures ok { OnOk result (tree_of entries.new.items ≡ with_child parent key (tree_of entries.old.items)) }
    ensures err { OnErr result (entries.new.items ≡ entries.old.items) }
    ensures shape { (root : ℕ) → IsShape entries.old.items nodes.old root → IsShape entries.new.items nodes.new root }
{
    let over = present(entries, parent);
    let Some(depth) = over.depth.checked_add(1) else {
        return Err(AllocError);
    };
    make_room(entries, nodes)?;
    push_child(nodes, over.slot, key)?;
    let slot = insert_node(*entries.allocator(), nodes, key);
    let entry = Entry {
        key,
        parent: Some(parent),
        depth,
        slot,
    };
    insert_entry(entries, entry);
    Ok(())
}

/// Takes out a key that has a parent and no children.
pub fn cut(entries: &mut Vec<Entry>, nodes: &mut Slab<Node>, key: u64)
    requires shape { (root : ℕ) × IsShape entries.old.items nodes.old root }
    requires below { IsSome (parent_of (tree_of entries.old.items) key) }
    requires leaf { (child : ℕ) → parent_of (tree_of entries.old.items) child ≢ Some key }
    ensures tree { tree_of entries.new.items ≡ without key (tree_of entries.old.items) }
    ensures shape { (root : ℕ) → IsShape entries.old.items nodes.old root → IsShape entries.new.items nodes.new root }
{
    let entry = present(entries, key);
    let over = above(entries, entry);
    remove_child(nodes, over.slot, key);
    remove_node(nodes, entry.slot);
    remove_entry(entries, key);
}

/// Takes out a key that has a parent and one child, which becomes its parent's.
pub fn splice_out(entries: &mut Vec<Entry>, nodes: &mut Slab<Node>, key: u64)
    requires shape { (root : ℕ) × IsShape entries.old.items nodes.old root }
    requires below { IsSome (parent_of (tree_of entries.old.items) key) }
    requires one { (child : ℕ) × (parent_of (tree_of entries.old.items) child ≡ Some key) × ((other : ℕ) → parent_of (tree_of entries.old.items) other ≡ Some key → other ≡ child) }
    ensures tree { tree_of entries.new.items ≡ spliced key (tree_of entries.old.items) }
    ensures shape { (root : ℕ) → IsShape entries.old.items nodes.old root → IsShape entries.new.items nodes.new root }
{
    let entry = present(entries, key);
    let over = above(entries, entry);
    let child = first(children_at(nodes, entry.slot));
    swap_child(nodes, over.slot, key, child);
    remove_node(nodes, entry.slot);
    remove_entry(entries, key);
    reparent(entries, key, entry.parent);
}

fn first(keys: &[u64]) -> u64
    requires { 0 < length keys.now }
    ensures { result ≡ slice_index keys.now 0 }
{
    keys[0]
}

/// Makes room for one more key and its node.
fn make_room(entries: &mut Vec<Entry>, nodes: &mut Slab<Node>) -> Result<(), AllocError>
    ensures entries { entries.new.items ≡ entries.old.items }
    ensures nodes { nodes.new ≡ record nodes.old { capacity = nodes.new.capacity } }
    ensures entry { OnOk result (vec_len entries.new < vec_capacity entries.new) }
    ensures node { OnOk result (HasRoomFor nodes.new 1) }
{
    match entries.reserve(1) {
        Ok(()) => {}
        Err(_) => return Err(AllocError),
    }
    match nodes.reserve(1) {
        Ok(()) => Ok(()),
        Err(_) => Err(AllocError),
    }
}
