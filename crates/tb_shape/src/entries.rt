//! The keys of a tree in rising order, each with its parent and the place of its node.

ghost use Rattle.std.specs.Prelude.{◌≡◌, ◌≤◌, ◌↔◌, ◌∷◌, [], ◌++◌, length, map, Some, IsSome, IsTrue, IfOk, IfSome, OnOk, ◌<◌, insert, remove, vec_len, vec_capacity};
ghost use Rattle.tb_shape.specs.Entries.{IsRising, IsHung, AreHung, place_of, entry_of, tree_of, reparented};
ghost use Rattle.tb_shape.specs.Tree.{HasKey, parent_of, IsAncestor, IsPath};

use std::alloc::{AllocError, Global};

/// A key, its parent, and the slot of its node. `depth` was one more than the parent's when the key
/// was added, so that a parent's is always the lesser.
#[derive(Clone, Copy, Debug)]
pub struct Entry {
    pub key: u64,
    pub parent: Option<u64>,
    pub depth: u64,
    pub slot: usize,
}

/// Where the key stands, or would have to be put.
pub fn place(entries: &[Entry], key: u64) -> usize
    requires { IsRising entries.now }
    ensures { result ≡ place_of key entries.now }
{
    entries.partition_point(|entry| entry.key < key)
}

/// The entry of a key.
pub fn look_up(entries: &[Entry], key: u64) -> Option<Entry>
    requires { IsRising entries.now }
    ensures { result ≡ entry_of entries.now key }
{
    let at = place(entries, key);
    if at >= entries.len() {
        return None;
    }
    if entries[at].key != key {
        return None;
    }
    Some(entries[at])
}

/// The entry of a key that is there.
pub fn present(entries: &[Entry], key: u64) -> Entry
    requires rising { IsRising entries.now }
    requires there { IsSome (entry_of entries.now key) }
    ensures { entry_of entries.now key ≡ Some result }
{
    match look_up(entries, key) {
        Some(entry) => entry,
        None => unreachable!(),
    }
}

/// The entry of an entry's parent.
pub fn above(entries: &[Entry], entry: Entry) -> Entry
    requires rising { IsRising entries.now }
    requires hung { IsHung entries.now entry }
    requires below { IsSome entry.parent }
    ensures parent { entry.parent ≡ Some result.key }
    ensures there { entry_of entries.now result.key ≡ Some result }
{
    match entry.parent {
        Some(parent) => present(entries, parent),
        None => unreachable!(),
    }
}

/// The parent of a key.
pub fn parent_in(entries: &[Entry], key: u64) -> Option<u64>
    requires rising { IsRising entries.now }
    requires hung { AreHung entries.now }
    ensures value { result ≡ parent_of (tree_of entries.now) key }
    ensures there { IfSome result (λ parent. HasKey (tree_of entries.now) parent) }
{
    match look_up(entries, key) {
        Some(entry) => entry.parent,
        None => None,
    }
}

/// Whether the first key is on the path from the second to the root.
pub fn is_above(entries: &[Entry], a: u64, b: u64) -> bool
    requires rising { IsRising entries.now }
    requires hung { AreHung entries.now }
    ensures { IsTrue result ↔ IsAncestor (tree_of entries.now) a b }
{
    match look_up(entries, b) {
        Some(entry) => reaches(entries, b, entry, a),
        None => false,
    }
}

/// Whether the path from an entry to the root passes a key.
fn reaches(entries: &[Entry], start: u64, from: Entry, key: u64) -> bool
    requires rising { IsRising entries.now }
    requires hung { AreHung entries.now }
    requires found { entry_of entries.now start ≡ Some from }
    ensures { IsTrue result ↔ IsAncestor (tree_of entries.now) key start }
{
    let mut at = from;
    while at.key != key {
        let Some(parent) = at.parent else {
            return false;
        };
        let Some(next) = look_up(entries, parent) else {
            return false;
        };
        at = next;
    }
    true
}

/// The keys on the path from one that is there to the root.
pub fn climb(alloc: Global, entries: &[Entry], start: u64) -> Result<Vec<u64>, AllocError>
    requires rising { IsRising entries.now }
    requires hung { AreHung entries.now }
    requires there { HasKey (tree_of entries.now) start }
    ensures { IfOk result (λ path. IsPath (tree_of entries.now) start path.items) }
{
    let mut path = Vec::new(alloc);
    let mut at = present(entries, start);
    put(&mut path, at.key)?;
    while let Some(parent) = at.parent {
        let Some(next) = look_up(entries, parent) else {
            return Ok(path);
        };
        at = next;
        put(&mut path, at.key)?;
    }
    Ok(path)
}

fn put(path: &mut Vec<u64>, key: u64) -> Result<(), AllocError>
    ensures { OnOk result (path.new.items ≡ path.old.items ++ key ∷ []) }
{
    match path.push(key) {
        Ok(()) => Ok(()),
        Err(_) => Err(AllocError),
    }
}

/// Gives the children of one key to another parent.
pub fn reparent(entries: &mut Vec<Entry>, old: u64, new: Option<u64>)
    ensures { entries.new.items ≡ map (reparented old new) entries.old.items }
{
    for at in 0..entries.len() {
        entries[at] = moved_up(entries[at], old, new);
    }
}

fn moved_up(entry: Entry, old: u64, new: Option<u64>) -> Entry
    ensures { result ≡ reparented old new entry }
{
    match entry.parent {
        Some(parent) if parent == old => Entry {
            parent: new,
            ..entry
        },
        _ => entry,
    }
}

/// Puts an entry at its place, for which there is room.
pub fn insert_entry(entries: &mut Vec<Entry>, entry: Entry)
    requires rising { IsRising entries.old.items }
    requires room { vec_len entries.old < vec_capacity entries.old }
    ensures { entries.new.items ≡ insert entries.old.items (place_of entry.key entries.old.items) entry }
{
    let at = place(entries, entry.key);
    insert_at(entries, at, entry);
}

fn insert_at(entries: &mut Vec<Entry>, at: usize, entry: Entry)
    requires within { at ≤ vec_len entries.old }
    requires room { vec_len entries.old < vec_capacity entries.old }
    ensures { entries.new.items ≡ insert entries.old.items at entry }
{
    match entries.insert(at, entry) {
        Ok(()) => {}
        Err(_) => unreachable!(),
    }
}

/// Takes out the entry of a key that is there.
pub fn remove_entry(entries: &mut Vec<Entry>, key: u64)
    requires rising { IsRising entries.old.items }
    requires there { IsSome (entry_of entries.old.items key) }
    ensures { entries.new.items ≡ remove entries.old.items (place_of key entries.old.items) }
{
    let at = place(entries, key);
    let _ = entries.remove(at);
}
