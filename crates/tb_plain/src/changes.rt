//! What makes and changes rows beside the events' moves.

ghost use Rattle.std.specs.Prelude.{◌≡◌, ◌≤◌, ◌<◌, ℕ, [], ◌∷◌, ◌++◌, map, OnOk, OnErr, IfOk, All, vec_len, vec_capacity, false, None};
ghost use Rattle.tb_perm.specs.Rows.{Row, HasTag, root_row, unguarded};
ghost use Rattle.tb_perm.specs.Answer.{Answers, OnBorrow, OnMemory, BetweenOrMade};
ghost use Rattle.tb_perm.specs.Reborrow.{new_row, reborrowed, reborrowed_rows, reborrow_report};
ghost use Rattle.tb_plain.specs.Plain.{IsPlain, rows_in, notes_of};
ghost use Rattle.tb_plain.specs.Sweep.{swept};
ghost use Rattle.tb_plain.specs.Changes.{unguarded_plain, IsMade};
ghost use Rattle.tb_plain.specs.declared.row.PlainRow.{PlainRow};
ghost use Rattle.tb_shape.specs.Tree.{HasKey, with_child};

use crate::bytes::{new_states, root_states};
use crate::choice::choose;
use crate::events::reborrow_sweep;
use crate::row::PlainRow;
use crate::sweep::{Sweep, sweep_rows};
use std::alloc::{AllocError, Global};
use tb_perm::{Access, Guard, NewTag, Span, Tag, TreeError};
use tb_shape::Shape;

/// The row of a root, in a list of its own.
pub fn root_rows(
    alloc: Global,
    size: u32,
    tag: Tag,
    made: Span,
) -> Result<Vec<PlainRow>, AllocError>
    ensures rows { IfOk result (λ rows. rows_in ((tag.0, None) ∷ []) rows.items ≡ root_row tag.0 size made ∷ []) }
    ensures notes { IfOk result (λ rows. notes_of rows.items ≡ []) }
    ensures plain { IfOk result (λ rows. IsPlain ((tag.0, None) ∷ []) rows.items size) }
{
    let states = root_states(alloc, size)?;
    let mut rows = Vec::new(alloc);
    let row = PlainRow {
        tag,
        guard: Guard::Free,
        made,
        noted: false,
        states,
    };
    match rows.push(row) {
        Ok(()) => Ok(rows),
        Err(_) => Err(AllocError),
    }
}

/// Takes the guard from a tag.
pub fn unguard_in(rows: &mut Vec<PlainRow>, tag: Tag)
    ensures { rows.new.items ≡ map (unguarded_plain tag.0) rows.old.items }
{
    for at in 0..rows.len() {
        unguard_row(&mut rows[at], tag);
    }
}

fn unguard_row(row: &mut PlainRow, tag: Tag)
    ensures { row.new ≡ unguarded_plain tag.0 row.old }
{
    if row.tag.0 == tag.0 {
        row.guard = Guard::Free;
    }
}

/// A reborrow on the rows of a tree.
pub fn retag_in(
    shape: &mut Shape,
    rows: &mut Vec<PlainRow>,
    size: u32,
    new: NewTag,
) -> Result<(), TreeError>
    requires plain { IsPlain shape.old rows.old.items size }
    requires parent { HasTag (rows_in shape.old rows.old.items) new.parent.0 }
    requires above { All (λ (row : Row). row.tag < new.tag.0) (rows_in shape.old rows.old.items) }
    ensures moved { OnOk result (rows_in shape.new rows.new.items ≡ reborrowed (rows_in shape.old rows.old.items) size new) }
    ensures answer { Answers (reborrow_report (rows_in shape.old rows.old.items) size new) result }
    ensures refused { OnBorrow result (rows_in shape.new rows.new.items ≡ rows_in shape.old rows.old.items) }
    ensures torn { OnMemory result (BetweenOrMade (rows_in shape.old rows.old.items) (reborrowed_rows (rows_in shape.old rows.old.items) new) (new_row size new) (rows_in shape.new rows.new.items)) }
    ensures notes { notes_of rows.new.items ≡ notes_of rows.old.items }
    ensures plain { IsPlain shape.new rows.new.items size }
{
    let alloc = *rows.allocator();
    let Ok(sweep) = reborrow_sweep(alloc, shape, rows, size, &new) else {
        return Err(TreeError::Memory);
    };
    if let Some(report) = choose(rows, &sweep, Access::Reborrow, size, new.parent) {
        return Err(TreeError::Borrow(report));
    }
    let Ok(row) = make_row(alloc, size, &new) else {
        return Err(TreeError::Memory);
    };
    match add_row(shape, rows, new.parent, row, &sweep) {
        Ok(()) => Ok(()),
        Err(_) => Err(TreeError::Memory),
    }
}

/// The row of a new tag.
fn make_row(alloc: Global, size: u32, new: &NewTag) -> Result<PlainRow, AllocError>
    ensures { IfOk result (IsMade size new.now) }
{
    let states = new_states(alloc, size, new)?;
    Ok(PlainRow {
        tag: new.tag,
        guard: new.guard,
        made: new.made,
        noted: false,
        states,
    })
}

/// Moves the rows by a sweep and puts a row behind them, below a parent; or changes nothing.
fn add_row(
    shape: &mut Shape,
    rows: &mut Vec<PlainRow>,
    parent: Tag,
    row: PlainRow,
    sweep: &Sweep,
) -> Result<(), AllocError>
    requires parent { HasKey shape.old parent.0 }
    requires fresh { ¬ HasKey shape.old row.tag.0 }
    ensures rows { OnOk result (rows.new.items ≡ map (swept sweep.now) rows.old.items ++ row ∷ []) }
    ensures shape { OnOk result (shape.new ≡ with_child parent.0 row.tag.0 shape.old) }
    ensures kept { OnErr result (rows.new.items ≡ rows.old.items) }
    ensures kept_shape { OnErr result (shape.new ≡ shape.old) }
{
    match rows.reserve(1) {
        Ok(()) => {}
        Err(_) => return Err(AllocError),
    }
    match shape.add_child(parent.0, row.tag.0) {
        Ok(()) => {}
        Err(_) => return Err(AllocError),
    }
    sweep_rows(rows, sweep);
    match rows.push(row) {
        Ok(()) => Ok(()),
        Err(_) => unreachable!(),
    }
}
