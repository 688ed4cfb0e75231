//! The events on the rows of a tree.

ghost use Rattle.std.specs.Prelude.{◌≡◌, ◌≤◌, ◌<◌, ℕ, [], ◌∷◌, ◌++◌, map, IfOk, OnOk, OnErr, All, Some, find, filter, length, true, false};
ghost use Rattle.std.specs.Option.{option_or};
ghost use Rattle.std.specs.List.{range_with_len};
ghost use Rattle.tb_perm.specs.Rows.{Row, HasTag};
ghost use Rattle.tb_perm.specs.Answer.{Answers, OnBorrow, OnMemory, Between};
ghost use Rattle.tb_perm.specs.Access.{access_event, accessed, access_report, access_of};
ghost use Rattle.tb_perm.specs.Reborrow.{reborrow_event};
ghost use Rattle.tb_perm.specs.Release.{release_event, is_below, released, release_report};
ghost use Rattle.tb_perm.specs.Deallocation.{deallocated, dealloc_report};
ghost use Rattle.tb_plain.specs.Plain.{IsPlain, rows_in, notes_of};
ghost use Rattle.tb_plain.specs.Fits.{Fits};
ghost use Rattle.tb_plain.specs.Sweep.{swept, reported, is_plain, HasPlain};
ghost use Rattle.tb_plain.specs.declared.row.PlainRow.{PlainRow};
ghost use Rattle.tb_shape.specs.Tree.{HasKey, IsPath};

use crate::bytes::{access_kinds, put, reborrow_kinds, release_kinds};
use crate::choice::{choose, row_of};
use crate::row::PlainRow;
use crate::sweep::{Sweep, sweep_rows};
use sqlite_items::Items;
use std::alloc::{AllocError, Global};
use tb_perm::{Access, Kind, NewTag, Tag, TreeError};
use tb_shape::Shape;

/// The sweep of an access.
pub fn access_sweep(
    alloc: Global,
    shape: &Shape,
    rows: &[PlainRow],
    size: u32,
    tag: Tag,
    lo: u32,
    hi: u32,
    kind: Kind,
) -> Result<Sweep, AllocError>
    requires plain { IsPlain shape.now rows.now size }
    requires tag { HasTag (rows_in shape.now rows.now) tag.0 }
    ensures fits { IfOk result (Fits shape.now rows.now size (access_event tag.0 lo hi kind)) }
    ensures table { IfOk result (λ sweep. sweep.strong ≡ false) }
{
    let path = path_of(shape, tag.0)?;
    let kinds = access_kinds(alloc, size, lo, hi, kind)?;
    Ok(Sweep {
        path,
        hidden: Items::new(alloc),
        kinds,
        strong: false,
    })
}

fn path_of(shape: &Shape, tag: u64) -> Result<Items<u64>, AllocError>
    requires { HasKey shape.now tag }
    ensures { IfOk result (IsPath shape.now tag) }
{
    match shape.path(tag) {
        Ok(path) => Ok(Items::from_vec(path)),
        Err(_) => Err(AllocError),
    }
}

/// Carries out an event: the rows move by its sweep, or a tag refuses it and nothing changes.
pub fn carry_out(
    rows: &mut Vec<PlainRow>,
    sweep: &Sweep,
    access: Access,
    size: u32,
    through: Tag,
) -> Result<(), TreeError>
    requires { All (λ (row : PlainRow). length row.states ≡ size) rows.old.items }
    ensures moved { OnOk result (rows.new.items ≡ map (swept sweep.now) rows.old.items) }
    ensures answer { Answers (reported sweep.now access size rows.old.items through.0) result }
    ensures kept { OnErr result (rows.new.items ≡ rows.old.items) }
{
    match choose(rows, sweep, access, size, through) {
        Some(report) => Err(TreeError::Borrow(report)),
        None => {
            sweep_rows(rows, sweep);
            Ok(())
        }
    }
}

/// The sweep of a reborrow's read.
pub fn reborrow_sweep(
    alloc: Global,
    shape: &Shape,
    rows: &[PlainRow],
    size: u32,
    new: &NewTag,
) -> Result<Sweep, AllocError>
    requires plain { IsPlain shape.now rows.now size }
    requires parent { HasTag (rows_in shape.now rows.now) new.now.parent.0 }
    ensures fits { IfOk result (Fits shape.now rows.now size (reborrow_event new.now)) }
    ensures table { IfOk result (λ sweep. sweep.strong ≡ false) }
{
    let path = path_of(shape, new.parent.0)?;
    let kinds = reborrow_kinds(alloc, size, new)?;
    Ok(Sweep {
        path,
        hidden: Items::new(alloc),
        kinds,
        strong: false,
    })
}

/// The sweep of a release.
pub fn release_sweep(
    alloc: Global,
    shape: &Shape,
    rows: &[PlainRow],
    size: u32,
    tag: Tag,
) -> Result<Sweep, AllocError>
    requires plain { IsPlain shape.now rows.now size }
    requires tag { HasTag (rows_in shape.now rows.now) tag.0 }
    ensures fits { IfOk result (Fits shape.now rows.now size (release_event (rows_in shape.now rows.now) tag.0)) }
    ensures table { IfOk result (λ sweep. sweep.strong ≡ false) }
{
    let path = path_of(shape, tag.0)?;
    let hidden = tags_below(alloc, shape, rows, size, tag)?;
    let kinds = release_kinds(alloc, row_at(rows, tag).states.as_slice())?;
    Ok(Sweep {
        path,
        hidden,
        kinds,
        strong: false,
    })
}

/// The row of a tag that has one.
pub fn row_at(rows: &[PlainRow], tag: Tag) -> &PlainRow
    requires { HasPlain rows.now tag.0 }
    ensures { find (is_plain tag.0) rows.now ≡ Some result.now }
{
    match row_of(rows, tag.0) {
        Some(row) => row,
        None => unreachable!(),
    }
}

/// The tags below a tag.
fn tags_below(
    alloc: Global,
    shape: &Shape,
    rows: &[PlainRow],
    size: u32,
    tag: Tag,
) -> Result<Items<u64>, AllocError>
    requires { IsPlain shape.now rows.now size }
    ensures { IfOk result (λ tags. tags ≡ map (λ (x : PlainRow). x.tag.0) (filter (λ (x : PlainRow). is_below (rows_in shape.now rows.now) tag.0 x.tag.0) rows.now)) }
{
    let mut below = Items::new(alloc);
    for row in rows.iter() {
        if lies_below(shape, rows, size, tag, row.tag) {
            put(&mut below, row.tag.0)?;
        }
    }
    Ok(below)
}

/// Whether the second tag is a strict descendant of the first.
fn lies_below(shape: &Shape, rows: &[PlainRow], size: u32, tag: Tag, other: Tag) -> bool
    requires plain { IsPlain shape.now rows.now size }
    requires other { HasTag (rows_in shape.now rows.now) other.0 }
    ensures { result ≡ is_below (rows_in shape.now rows.now) tag.0 other.0 }
{
    if other.0 == tag.0 {
        return false;
    }
    shape.is_ancestor(tag.0, other.0)
}

/// Carries out a deallocation: after the write strong guards are asked, by the rows before it.
pub fn free_all(
    rows: &mut Vec<PlainRow>,
    mut sweep: Sweep,
    size: u32,
    through: Tag,
) -> Result<(), TreeError>
    requires { All (λ (row : PlainRow). length row.states ≡ size) rows.old.items }
    ensures moved { OnOk result (rows.new.items ≡ map (swept sweep) rows.old.items) }
    ensures answer { Answers (option_or (reported sweep Access.Free size rows.old.items through.0) (reported (record sweep { strong = true }) Access.Free size rows.old.items through.0)) result }
    ensures kept { OnErr result (rows.new.items ≡ rows.old.items) }
{
    if let Some(report) = choose(rows, &sweep, Access::Free, size, through) {
        return Err(TreeError::Borrow(report));
    }
    sweep.strong = true;
    if let Some(report) = choose(rows, &sweep, Access::Free, size, through) {
        return Err(TreeError::Borrow(report));
    }
    sweep_rows(rows, &sweep);
    Ok(())
}

/// An access on the rows of a tree.
pub fn access_in(
    shape: &Shape,
    rows: &mut Vec<PlainRow>,
    size: u32,
    tag: Tag,
    lo: u32,
    hi: u32,
    kind: Kind,
) -> Result<(), TreeError>
    requires plain { IsPlain shape.now rows.old.items size }
    requires tag { HasTag (rows_in shape.now rows.old.items) tag.0 }
    ensures moved { OnOk result (rows_in shape.now rows.new.items ≡ accessed (rows_in shape.now rows.old.items) tag.0 lo hi kind) }
    ensures answer { Answers (access_report (rows_in shape.now rows.old.items) size tag.0 lo hi kind) result }
    ensures refused { OnBorrow result (rows_in shape.now rows.new.items ≡ rows_in shape.now rows.old.items) }
    ensures torn { OnMemory result (Between (rows_in shape.now rows.old.items) (accessed (rows_in shape.now rows.old.items) tag.0 lo hi kind) (rows_in shape.now rows.new.items)) }
    ensures notes { notes_of rows.new.items ≡ notes_of rows.old.items }
    ensures plain { IsPlain shape.now rows.new.items size }
{
    let alloc = *rows.allocator();
    let Ok(sweep) = access_sweep(alloc, shape, rows, size, tag, lo, hi, kind) else {
        return Err(TreeError::Memory);
    };
    carry_out(rows, &sweep, named(kind), size, tag)
}

fn named(kind: Kind) -> Access
    ensures { result ≡ access_of kind }
{
    match kind {
        Kind::Read => Access::Read,
        Kind::Write => Access::Write,
    }
}

/// A release on the rows of a tree.
pub fn release_in(
    shape: &Shape,
    rows: &mut Vec<PlainRow>,
    size: u32,
    tag: Tag,
) -> Result<(), TreeError>
    requires plain { IsPlain shape.now rows.old.items size }
    requires tag { HasTag (rows_in shape.now rows.old.items) tag.0 }
    ensures moved { OnOk result (rows_in shape.now rows.new.items ≡ released (rows_in shape.now rows.old.items) tag.0) }
    ensures answer { Answers (release_report (rows_in shape.now rows.old.items) size tag.0) result }
    ensures refused { OnBorrow result (rows_in shape.now rows.new.items ≡ rows_in shape.now rows.old.items) }
    ensures torn { OnMemory result (Between (rows_in shape.now rows.old.items) (released (rows_in shape.now rows.old.items) tag.0) (rows_in shape.now rows.new.items)) }
    ensures notes { notes_of rows.new.items ≡ notes_of rows.old.items }
    ensures plain { IsPlain shape.now rows.new.items size }
{
    let alloc = *rows.allocator();
    let Ok(sweep) = release_sweep(alloc, shape, rows, size, tag) else {
        return Err(TreeError::Memory);
    };
    carry_out(rows, &sweep, Access::CallEnd, size, tag)
}

/// A deallocation on the rows of a tree.
pub fn free_in(
    shape: &Shape,
    rows: &mut Vec<PlainRow>,
    size: u32,
    tag: Tag,
) -> Result<(), TreeError>
    requires plain { IsPlain shape.now rows.old.items size }
    requires tag { HasTag (rows_in shape.now rows.old.items) tag.0 }
    ensures moved { OnOk result (rows_in shape.now rows.new.items ≡ deallocated (rows_in shape.now rows.old.items) size tag.0) }
    ensures answer { Answers (dealloc_report (rows_in shape.now rows.old.items) size tag.0) result }
    ensures refused { OnBorrow result (rows_in shape.now rows.new.items ≡ rows_in shape.now rows.old.items) }
    ensures torn { OnMemory result (Between (rows_in shape.now rows.old.items) (deallocated (rows_in shape.now rows.old.items) size tag.0) (rows_in shape.now rows.new.items)) }
    ensures notes { notes_of rows.new.items ≡ notes_of rows.old.items }
    ensures plain { IsPlain shape.now rows.new.items size }
{
    let alloc = *rows.allocator();
    let Ok(sweep) = access_sweep(alloc, shape, rows, size, tag, 0, size, Kind::Write) else {
        return Err(TreeError::Memory);
    };
    free_all(rows, sweep, size, tag)
}
