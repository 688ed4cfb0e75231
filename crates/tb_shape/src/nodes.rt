//! The nodes of a tree: for each key its children, in no special order.

ghost use Rattle.std.specs.Prelude.{◌≡◌, ◌<◌, ◌≤◌, ◌+◌, [], ◌∷◌, OnOk, OnErr, IfSome, IfNone, IfOk, Some, None, slice_index, length};
ghost use Rattle.slab.specs.Slab.{Slab, ContainsKey, HasRoomFor, Updates, get};
ghost use Rattle.tb_shape.specs.Nodes.{count_of, Recounts, ChangesNode, HasChild};
ghost use Rattle.tb_shape.specs.declared.nodes.Node.{Node};

use slab::Slab;
use smallvec::SmallVec;
use std::alloc::{AllocError, Global};

/// A key and its children.
#[derive(Drop)]
pub struct Node {
    pub key: u64,
    pub children: SmallVec<u64, 4>,
}

/// The children in the node at a slot.
pub fn children_at(nodes: &Slab<Node>, slot: usize) -> &[u64]
    ensures { (node : Node) → get nodes.now slot ≡ Some node → result.now ≡ node.children.items }
{
    match nodes.get(slot) {
        Some(node) => node.children.as_slice(),
        None => &[],
    }
}

/// Adds a child to the node at a slot.
pub fn push_child(nodes: &mut Slab<Node>, slot: usize, child: u64) -> Result<(), AllocError>
    requires { ContainsKey nodes.old slot }
    ensures ok { OnOk result (ChangesNode nodes.old nodes.new slot (child ∷ []) []) }
    ensures err { OnErr result (ChangesNode nodes.old nodes.new slot [] []) }
{
    match nodes.get_mut(slot) {
        Some(node) => match node.children.push(child) {
            Ok(()) => Ok(()),
            Err(_) => Err(AllocError),
        },
        None => Err(AllocError),
    }
}

/// Takes a child from the node at a slot.
pub fn remove_child(nodes: &mut Slab<Node>, slot: usize, child: u64)
    requires { HasChild nodes.old slot child }
    ensures { ChangesNode nodes.old nodes.new slot [] (child ∷ []) }
{
    if let Some(node) = nodes.get_mut(slot) {
        take_out(&mut node.children, child);
    }
}

/// Makes the node of a key without children, for which there is room, and gives its slot.
pub fn insert_node(alloc: Global, nodes: &mut Slab<Node>, key: u64) -> usize
    requires { HasRoomFor nodes.old 1 }
    ensures vacant { get nodes.old result ≡ None }
    ensures made { (node : Node) × Updates nodes.old nodes.new result (Some node) × (node.key ≡ key) × (node.children.items ≡ []) }
{
    nodes.insert_reserved(Node {
        key,
        children: SmallVec::new(alloc),
    })
}

/// Takes out the node at a slot.
pub fn remove_node(nodes: &mut Slab<Node>, slot: usize)
    requires { ContainsKey nodes.old slot }
    ensures { Updates nodes.old nodes.new slot None }
{
    let _ = nodes.remove(slot);
}

/// Puts one child in the place of another.
pub fn swap_child(nodes: &mut Slab<Node>, slot: usize, old: u64, new: u64)
    requires { HasChild nodes.old slot old }
    ensures { ChangesNode nodes.old nodes.new slot (new ∷ []) (old ∷ []) }
{
    if let Some(node) = nodes.get_mut(slot) {
        take_out(&mut node.children, old);
        node.children.push_reserved(new);
    }
}

/// Takes a child that is there out, which leaves room for another.
fn take_out(children: &mut SmallVec<u64, 4>, child: u64)
    requires { 0 < count_of child children.old.items }
    ensures counts { Recounts children.old.items children.new.items [] (child ∷ []) }
    ensures room { length children.new.items + 1 ≤ children.new.capacity }
{
    let _ = children.len();
    if let Some(at) = position(children.as_slice(), child) {
        let _ = children.remove(at);
    }
}

/// Where a key stands first.
fn position(keys: &[u64], key: u64) -> Option<usize>
    ensures within { IfSome result (λ at. at < length keys.now) }
    ensures found { IfSome result (λ at. slice_index keys.now at ≡ key) }
    ensures missing { IfNone result (count_of key keys.now ≡ 0) }
{
    for at in 0..keys.len() {
        if keys[at] == key {
            return Some(at);
        }
    }
    None
}
