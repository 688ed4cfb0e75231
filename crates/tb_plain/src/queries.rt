//! What pruning asks of the rows of a tree.

ghost use Rattle.std.specs.Prelude.{◌≡◌, ◌≢◌, ◌≤◌, ◌<◌, ◌↔◌, ℕ, All, IfSome, IfNone, IsSome, IsTrue, None};
ghost use Rattle.tb_perm.specs.Rows.{Row, HasTag};
ghost use Rattle.tb_perm.specs.Pruning.{parent_in, IsLeaf, IsOnlyChild, Folds};
ghost use Rattle.std.specs.Option.{option_map};
ghost use Rattle.tb_plain.specs.Plain.{IsPlain, rows_in, states_of};

use crate::choice::row_of;
use crate::events::row_at;
use crate::pruning::{folds_over, greatest_below, is_leaf_key, only_of};
use crate::row::PlainRow;
use tb_perm::{State, Tag};
use tb_shape::Shape;

/// The state of a tag at each byte; none where it has no row.
pub fn states_in<'a>(shape: &Shape, rows: &'a [PlainRow], tag: Tag) -> Option<&'a [State]>
    ensures { option_map (λ states. states.now) result ≡ states_of (rows_in shape.now rows.now) tag.0 }
{
    match row_of(rows, tag.0) {
        Some(row) => Some(row.states.as_slice()),
        None => None,
    }
}

/// The greatest tag.
pub fn greatest_of(shape: &Shape, rows: &[PlainRow], size: u32) -> Tag
    requires { IsPlain shape.now rows.now size }
    ensures there { HasTag (rows_in shape.now rows.now) result.0 }
    ensures greatest { All (λ (row : Row). row.tag ≤ result.0) (rows_in shape.now rows.now) }
{
    match greatest_below(rows, None) {
        Some(tag) => tag,
        None => unreachable!(),
    }
}

/// The greatest tag less than another.
pub fn less_than(shape: &Shape, rows: &[PlainRow], size: u32, tag: Tag) -> Option<Tag>
    requires plain { IsPlain shape.now rows.now size }
    requires tag { HasTag (rows_in shape.now rows.now) tag.0 }
    ensures there { IfSome result (λ found. HasTag (rows_in shape.now rows.now) found.0) }
    ensures less { IfSome result (λ found. found.0 < tag.0) }
    ensures greatest { IfSome result (λ found. All (λ (row : Row). row.tag < tag.0 → row.tag ≤ found.0) (rows_in shape.now rows.now)) }
    ensures child { IfSome result (λ found. IsSome (parent_in (rows_in shape.now rows.now) tag.0)) }
    ensures root { IfNone result (parent_in (rows_in shape.now rows.now) tag.0 ≡ None) }
    ensures least { IfNone result (All (λ (row : Row). tag.0 ≤ row.tag) (rows_in shape.now rows.now)) }
{
    match greatest_below(rows, Some(tag)) {
        Some(found) => Some(found),
        None => None,
    }
}

/// Whether no tag has this one as its parent.
pub fn is_leaf_in(shape: &Shape, rows: &[PlainRow], size: u32, tag: Tag) -> bool
    requires { IsPlain shape.now rows.now size }
    ensures { IsTrue result ↔ IsLeaf (rows_in shape.now rows.now) tag.0 }
{
    is_leaf_key(shape, tag)
}

/// The one tag that has this one as its parent.
pub fn only_child_in(shape: &Shape, rows: &[PlainRow], size: u32, tag: Tag) -> Option<Tag>
    requires { IsPlain shape.now rows.now size }
    ensures only { IfSome result (λ child. IsOnlyChild (rows_in shape.now rows.now) tag.0 child.0) }
    ensures none { IfNone result ((child : ℕ) → ¬ IsOnlyChild (rows_in shape.now rows.now) tag.0 child) }
{
    match only_of(shape.children(tag.0)) {
        Some(child) => Some(Tag(child)),
        None => None,
    }
}

/// Whether a tag's permission is covered by another's at every byte.
pub fn folds_in(
    shape: &Shape,
    rows: &[PlainRow],
    size: u32,
    tag: Tag,
    child: Tag,
    guarded: bool,
) -> bool
    requires plain { IsPlain shape.now rows.now size }
    requires tag { HasTag (rows_in shape.now rows.now) tag.0 }
    requires child { HasTag (rows_in shape.now rows.now) child.0 }
    ensures { IsTrue result ↔ Folds (rows_in shape.now rows.now) size tag.0 child.0 guarded }
{
    let upper = row_at(rows, tag);
    let lower = row_at(rows, child);
    folds_over(upper.states.as_slice(), lower.states.as_slice(), guarded)
}
