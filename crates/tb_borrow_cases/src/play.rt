//! Events on a tree.

ghost use Rattle.std.specs.Prelude.{◌≡◌, ◌<◌, ◌≤◌, IsTrue, OnOk};
ghost use Rattle.tb_perm.specs.Rows.{HasTag};
ghost use Rattle.tb_perm.specs.Reborrow.{AreCells};

use crate::event::{Bytes, Child, Event};
use crate::words;
use sqlite_items::Items;
use std::alloc::{AllocError, Global};
use std::marker::Brand;
use std::sync::ledger::{Blank, Ledger};
use tb_perm::{CellRange, NewTag, PruneTree, State, Steps, Tag, TreeError};
use tb_plain::PlainTree;

/// A tree whose states can be seen.
trait States {
    /// The state of a tag at each byte; none where the tag has no row.
    fn states(&self, tag: Tag) -> Option<&[State]>;
}

impl States for PlainTree {
    fn states(&self, tag: Tag) -> Option<&[State]> {
        self.states_of(tag)
    }
}

/// Whether the tag has a row.
fn has<T: PruneTree>(tree: &T, tag: u64) -> bool
    ensures { IsTrue result → HasTag (T.rows tree.now) tag }
{
    let mut at = tree.greatest();
    loop {
        if at.0 == tag {
            return true;
        }
        match tree.below(at) {
            Some(next) => at = next,
            None => return false,
        }
    }
}

/// Whether the ranges are rising, disjoint and not empty, and lie in the bytes.
fn are_cells(cells: &[CellRange], bytes: Bytes) -> bool
    requires { bytes.lo ≤ bytes.hi }
    ensures { IsTrue result → AreCells bytes.lo bytes.hi cells.now }
{
    let mut lo = bytes.lo;
    for cell in cells {
        if cell.lo < lo || cell.hi <= cell.lo || bytes.hi < cell.hi {
            return false;
        }
        lo = cell.hi;
    }
    true
}

/// What an event is answered with where it makes no sense on the tree.
const SENSELESS: &str = "makes no sense";

fn said(alloc: Global, words: &str) -> Result<String, AllocError> {
    String::from_str(alloc, words)
}

/// An event that passes has no words.
fn ended(alloc: Global, outcome: Result<(), TreeError>) -> Result<String, AllocError> {
    match outcome {
        Ok(()) => said(alloc, ""),
        Err(TreeError::Borrow(report)) => words::report(alloc, &report),
        Err(TreeError::Memory) => Err(AllocError),
    }
}

fn truth(alloc: Global, is: bool) -> Result<String, AllocError> {
    said(alloc, if is { "yes" } else { "no" })
}

/// Carries out an event that may be refused.
fn moved<T: PruneTree, L: Ledger>(
    alloc: Global,
    tree: &mut T,
    size: u32,
    event: Event,
    steps: &mut Steps<L>,
) -> Result<String, AllocError>
    requires { T.extent tree.old ≡ size }
    ensures { OnOk result (T.extent tree.new ≡ size) }
{
    match event {
        Event::Access(kind, tag, bytes) => {
            if !has(tree, tag) || bytes.lo > bytes.hi || bytes.hi > size {
                return said(alloc, SENSELESS);
            }
            ended(
                alloc,
                tree.access(Tag(tag), bytes.lo, bytes.hi, kind, steps),
            )
        }
        Event::Retag(child) => retag(alloc, tree, size, child, steps),
        Event::Release(tag) if has(tree, tag) => ended(alloc, tree.release(Tag(tag), steps)),
        Event::Free(tag) if has(tree, tag) => ended(alloc, tree.dealloc(Tag(tag), steps)),
        _ => said(alloc, SENSELESS),
    }
}

fn retag<T: PruneTree, L: Ledger>(
    alloc: Global,
    tree: &mut T,
    size: u32,
    child: Child,
    steps: &mut Steps<L>,
) -> Result<String, AllocError>
    requires { T.extent tree.old ≡ size }
    ensures { OnOk result (T.extent tree.new ≡ size) }
{
    let bytes = child.bytes;
    if !has(tree, child.parent) || tree.greatest().0 >= child.tag {
        return said(alloc, SENSELESS);
    }
    if bytes.lo > bytes.hi || bytes.hi > size || !are_cells(&child.cells, bytes) {
        return said(alloc, SENSELESS);
    }
    let new = NewTag {
        parent: Tag(child.parent),
        tag: Tag(child.tag),
        lo: bytes.lo,
        hi: bytes.hi,
        perm: child.perm,
        outside: child.outside,
        cells: Items::from_vec(child.cells),
        guard: child.guard,
        made: words::made(child.tag),
    };
    ended(alloc, tree.retag(new, steps))
}

/// The tags of a tree that pass, in rising order.
fn tags<T: PruneTree>(alloc: Global, tree: &T, noted: bool) -> Result<String, AllocError> {
    let mut tags = Vec::new(alloc);
    let mut at = tree.greatest();
    loop {
        if !noted || tree.noted(at) {
            tags.push(at)?;
        }
        match tree.below(at) {
            Some(next) => at = next,
            None => break,
        }
    }
    tags.reverse();
    words::tags(alloc, &tags)
}

fn remove<T: PruneTree>(alloc: Global, tree: &mut T, tag: u64) -> Result<String, AllocError>
    requires { HasTag (T.rows tree.old) tag }
    ensures { OnOk result (T.extent tree.new ≡ T.extent tree.old) }
{
    let tag = Tag(tag);
    if tree.below(tag).is_none() {
        return said(alloc, SENSELESS);
    }
    if !tree.is_leaf(tag) && tree.only_child(tag).is_none() {
        return said(alloc, SENSELESS);
    }
    tree.remove(tag);
    said(alloc, "")
}

/// Answers a question, or changes what is not refused.
fn asked<T: PruneTree + States>(
    alloc: Global,
    tree: &mut T,
    event: &Event,
) -> Result<String, AllocError>
    ensures { OnOk result (T.extent tree.new ≡ T.extent tree.old) }
{
    match event {
        Event::Tags => tags(alloc, tree, false),
        Event::Noted => tags(alloc, tree, true),
        Event::Forget => {
            tree.clear_notes();
            said(alloc, "")
        }
        Event::States(tag) => match tree.states(Tag(*tag)) {
            Some(states) => words::states(alloc, states),
            None => said(alloc, "none"),
        },
        Event::Folds(tag, child, guarded) if has(tree, *tag) && has(tree, *child) => {
            truth(alloc, tree.folds(Tag(*tag), Tag(*child), *guarded))
        }
        Event::Unguard(tag)
        | Event::Note(tag)
        | Event::Leaf(tag)
        | Event::Child(tag)
        | Event::Remove(tag)
            if has(tree, *tag) => asked_of(alloc, tree, event, *tag),
        _ => said(alloc, SENSELESS),
    }
}

/// The same of one tag that has a row.
fn asked_of<T: PruneTree>(
    alloc: Global,
    tree: &mut T,
    event: &Event,
    tag: u64,
) -> Result<String, AllocError>
    requires { HasTag (T.rows tree.old) tag }
    ensures { OnOk result (T.extent tree.new ≡ T.extent tree.old) }
{
    match event {
        Event::Unguard(_) => {
            tree.unguard(Tag(tag));
            said(alloc, "")
        }
        Event::Note(_) => {
            tree.note(Tag(tag));
            said(alloc, "")
        }
        Event::Leaf(_) => truth(alloc, tree.is_leaf(Tag(tag))),
        Event::Child(_) => match tree.only_child(Tag(tag)) {
            Some(child) => words::tags(alloc, &[child]),
            None => said(alloc, "none"),
        },
        _ => remove(alloc, tree, tag),
    }
}

/// Carries out the event of a line.
fn answer<T: PruneTree + States, L: Ledger>(
    alloc: Global,
    tree: &mut T,
    size: u32,
    line: &str,
    steps: &mut Steps<L>,
) -> Result<String, AllocError>
    requires { T.extent tree.old ≡ size }
    ensures { OnOk result (T.extent tree.new ≡ size) }
{
    let Some(event) = Event::of(alloc, line)? else {
        return said(alloc, "no event");
    };
    match event {
        Event::Access(_, _, _) | Event::Retag(_) | Event::Release(_) | Event::Free(_) => {
            moved(alloc, tree, size, event, steps)
        }
        _ => asked(alloc, tree, &event),
    }
}

/// A line whose answer is otherwise than wanted.
#[derive(Debug, Drop)]
pub struct Miss {
    /// The place of the line, from 0.
    pub line: usize,
    /// What the tree answers.
    pub found: String,
}

/// Carries out the lines of a case, which begins at a line, on a tree of so many bytes.
fn misses_on<T: PruneTree + States, L: Ledger>(
    blank: Blank,
    alloc: Global,
    lines: &[&str],
    at: usize,
    size: u32,
) -> Result<Vec<Miss>, AllocError>
    requires name { blank.name ≡ L.name }
    requires parts { blank.parts ≡ L.parts }
    requires some { 0 < L.parts }
{
    let mut steps: Steps<L> = Steps::new(blank);
    let mut tree = T::root(alloc, size, Tag(1), words::made(1))?;
    let mut misses = Vec::new(alloc);
    for (number, line) in lines.iter().enumerate() {
        if number <= at || line.is_empty() || line.starts_with("#") {
            continue;
        }
        if line.starts_with("tree ") {
            break;
        }
        let (event, wanted) = line.split_once(" => ").unwrap_or((*line, ""));
        let found = answer(alloc, &mut tree, size, event, &mut steps)?;
        if found.as_str() != wanted {
            let line = number;
            misses.push(Miss { line, found })?;
        }
    }
    Ok(misses)
}

fn plain_misses<L: Ledger>(
    blank: Blank,
    alloc: Global,
    lines: &[&str],
    at: usize,
    size: u32,
) -> Result<Vec<Miss>, AllocError>
    requires name { blank.name ≡ L.name }
    requires parts { blank.parts ≡ L.parts }
    requires some { 0 < L.parts }
{
    misses_on::<PlainTree, L>(blank, alloc, lines, at, size)
}

/// The lines of a case whose answers on a plain tree are otherwise than wanted. The case begins at a line; its
/// tree has so many bytes.
pub fn misses(
    alloc: Global,
    lines: &[&str],
    at: usize,
    size: u32,
) -> Result<Vec<Miss>, AllocError> {
    plain_misses::<Brand>(Blank::new(1), alloc, lines, at, size)
}
