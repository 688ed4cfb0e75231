//! The pruning calls on the rows of a tree.

ghost use Rattle.std.specs.Prelude.{◌≡◌, ◌≤◌, ◌<◌, ◌↔◌, ◌⊎◌, ℕ, map, length, IsTrue, IsSome, IfSome, if◌then◌else◌, IfNone, ◌≢◌, ◌∷◌, [], false, remove, Some, None, slice_index_or, vec_len};
ghost use Rattle.tb_perm.specs.Covers.{Covers};
ghost use Rattle.tb_perm.specs.Pruning.{is_noted, parent_in, IsLeaf, IsOnlyChild, removed, forgotten};
ghost use Rattle.tb_shape.specs.Tree.{parent_of, is_child_of};
ghost use Rattle.tb_plain.specs.declared.row.PlainRow.{PlainRow};
ghost use Rattle.tb_plain.specs.Plain.{IsPlain, rows_in, notes_of};
ghost use Rattle.tb_plain.specs.Sweep.{HasPlain};
ghost use Rattle.tb_plain.specs.Pruning.{keys_of, other_keys, noted_plain, cleared_plain, others_plain, is_lesser, better_of, IsGreatest};

use crate::row::PlainRow;
use tb_perm::{Perm, State, Tag, implies};
use tb_shape::Shape;

/// Notes a tag.
pub fn note_in(rows: &mut Vec<PlainRow>, tag: Tag)
    ensures { rows.new.items ≡ map (noted_plain tag.0) rows.old.items }
{
    for at in 0..rows.len() {
        note_row(&mut rows[at], tag);
    }
}

fn note_row(row: &mut PlainRow, tag: Tag)
    ensures { row.new ≡ noted_plain tag.0 row.old }
{
    if row.tag.0 == tag.0 {
        row.noted = true;
    }
}

/// Whether a tag is noted.
pub fn is_noted_in(rows: &[PlainRow], tag: Tag) -> bool
    ensures { result ≡ is_noted (notes_of rows.now) tag.0 }
{
    for row in rows.iter() {
        if row.noted && row.tag.0 == tag.0 {
            return true;
        }
    }
    false
}

/// Forgets all notes.
pub fn clear_in(rows: &mut Vec<PlainRow>)
    ensures { rows.new.items ≡ map cleared_plain rows.old.items }
{
    for at in 0..rows.len() {
        clear_row(&mut rows[at]);
    }
}

fn clear_row(row: &mut PlainRow)
    ensures { row.new ≡ cleared_plain row.old }
{
    row.noted = false;
}

/// The greatest tag below a bound, or of all where there is none.
pub fn greatest_below(rows: &[PlainRow], bound: Option<Tag>) -> Option<Tag>
    ensures { IsGreatest bound rows.now result }
{
    let mut best = None;
    for row in rows.iter() {
        best = better(bound, best, row.tag);
    }
    best
}

fn better(bound: Option<Tag>, best: Option<Tag>, tag: Tag) -> Option<Tag>
    ensures { result ≡ better_of bound best tag }
{
    if !lies_below_bound(bound, tag) {
        return best;
    }
    match best {
        Some(other) if other.0 >= tag.0 => best,
        _ => Some(tag),
    }
}

fn lies_below_bound(bound: Option<Tag>, tag: Tag) -> bool
    ensures { result ≡ is_lesser bound tag }
{
    match bound {
        Some(bound) => tag.0 < bound.0,
        None => true,
    }
}

/// The child of a tag that has exactly one.
pub fn only_of(children: &[u64]) -> Option<u64>
    ensures one { IfSome result (λ child. children.now ≡ child ∷ []) }
    ensures none { IfNone result (length children.now ≢ 1) }
{
    match children {
        [child] => Some(*child),
        _ => None,
    }
}

/// Whether a tag's permission is covered by its child's at every byte.
pub fn folds_over(states: &[State], below: &[State], guarded: bool) -> bool
    requires { length states.now ≡ length below.now }
    ensures { IsTrue result ↔ ((byte : ℕ) → byte < length states.now → Covers (slice_index_or states.now byte (record { perm = Perm.Disabled; accessed = false })).perm (slice_index_or below.now byte (record { perm = Perm.Disabled; accessed = false })).perm guarded) }
{
    for at in 0..states.len() {
        if !implies(perm_at(states, at), perm_at(below, at), guarded) {
            return false;
        }
    }
    true
}

fn perm_at(states: &[State], at: usize) -> Perm
    requires { at < length states.now }
    ensures { result ≡ (slice_index_or states.now at (record { perm = Perm.Disabled; accessed = false })).perm }
{
    states[at].perm
}

/// Takes out the row of a tag.
pub fn take_row(rows: &mut Vec<PlainRow>, tag: Tag)
    requires one { (at : ℕ) (d : PlainRow) → at < length rows.old.items → (slice_index_or rows.old.items at d).tag.0 ≡ tag.0 → remove rows.old.items at ≡ others_plain tag.0 rows.old.items }
    requires there { HasPlain rows.old.items tag.0 }
    ensures { rows.new.items ≡ others_plain tag.0 rows.old.items }
{
    let at = index_of(rows, tag);
    let _ = rows.remove(at);
}

fn index_of(rows: &[PlainRow], tag: Tag) -> usize
    requires { HasPlain rows.now tag.0 }
    ensures within { result < length rows.now }
    ensures found { (d : PlainRow) → (slice_index_or rows.now result d).tag.0 ≡ tag.0 }
{
    for at in 0..rows.len() {
        if rows[at].tag.0 == tag.0 {
            return at;
        }
    }
    unreachable!()
}

/// Whether no key of the tree of tags has this one as its parent.
pub fn is_leaf_key(shape: &Shape, tag: Tag) -> bool
    ensures { IsTrue result ↔ ((u : ℕ) → parent_of shape.now u ≢ Some tag.0) }
{
    shape.children(tag.0).is_empty()
}

/// Takes a key that has a parent out of the tree of tags; its one child, if it has one, becomes its
/// parent's.
pub fn detach(shape: &mut Shape, tag: Tag)
    requires below { IsSome (parent_of shape.old tag.0) }
    requires alone { ((c : ℕ) → parent_of shape.old c ≢ Some tag.0) ⊎ ((c : ℕ) × (parent_of shape.old c ≡ Some tag.0) × ((d : ℕ) → parent_of shape.old d ≡ Some tag.0 → d ≡ c)) }
    ensures parents { (q : ℕ) → tag.0 ≢ q → parent_of shape.new q ≡ (if is_child_of tag.0 (parent_of shape.old q) then parent_of shape.old tag.0 else parent_of shape.old q) }
    ensures keys { keys_of shape.new ≡ other_keys tag.0 (keys_of shape.old) }
{
    if is_leaf_key(shape, tag) {
        shape.drop_leaf(tag.0);
        return;
    }
    shape.splice(tag.0);
}

/// Takes a tag out of the rows and the tree of tags.
pub fn remove_in(shape: &mut Shape, rows: &mut Vec<PlainRow>, size: u32, tag: Tag)
    requires plain { IsPlain shape.old rows.old.items size }
    requires below { IsSome (parent_in (rows_in shape.old rows.old.items) tag.0) }
    requires alone { IsLeaf (rows_in shape.old rows.old.items) tag.0 ⊎ ((child : ℕ) × IsOnlyChild (rows_in shape.old rows.old.items) tag.0 child) }
    ensures rows { rows_in shape.new rows.new.items ≡ removed (rows_in shape.old rows.old.items) tag.0 }
    ensures notes { notes_of rows.new.items ≡ forgotten (notes_of rows.old.items) tag.0 }
    ensures plain { IsPlain shape.new rows.new.items size }
{
    detach(shape, tag);
    take_row(rows, tag);
}
