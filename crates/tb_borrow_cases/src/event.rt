//! Events and questions, as the lines of a case write them.

use std::alloc::{AllocError, Global};
use tb_perm::{CellRange, Guard, Kind, Perm};

/// A range of bytes, from `lo` to before `hi`.
#[derive(Clone, Copy, Debug, PartialEq, Eq)]
pub struct Bytes {
    pub lo: u32,
    pub hi: u32,
}

/// A new tag below its parent.
#[derive(Debug, Drop)]
pub struct Child {
    pub parent: u64,
    pub tag: u64,
    pub bytes: Bytes,
    pub perm: Perm,
    pub outside: Perm,
    pub guard: Guard,
    pub cells: Vec<CellRange>,
}

/// An event on a tree, or a question about it.
#[derive(Debug, Drop)]
pub enum Event {
    /// `read TAG LO..HI` and `write TAG LO..HI`
    Access(Kind, u64, Bytes),
    /// `retag PARENT -> TAG LO..HI PERM`, and behind it `outside PERM`, `weak` or `strong`, and `cell LO..HI`, a
    /// word for each range
    Retag(Child),
    /// `release TAG`
    Release(u64),
    /// `unguard TAG`
    Unguard(u64),
    /// `free TAG`
    Free(u64),
    /// `tags`: all, in rising order
    Tags,
    /// `states TAG`: its permission at each byte, as ranges
    States(u64),
    /// `note TAG`
    Note(u64),
    /// `noted`: the tags that are noted, in rising order
    Noted,
    /// `forget`: no tag is noted any longer
    Forget,
    /// `leaf TAG`: whether no tag lies below it
    Leaf(u64),
    /// `child TAG`: its only child
    Child(u64),
    /// `folds TAG CHILD` and `folds TAG CHILD guarded`
    Folds(u64, u64, bool),
    /// `remove TAG`
    Remove(u64),
}

/// The permission of this name.
fn perm(name: &str) -> Option<Perm> {
    match name {
        "Cell" => Some(Perm::Cell),
        "Reserved" => Some(Perm::Reserved),
        "Conflicted" => Some(Perm::Conflicted),
        "ReservedIm" => Some(Perm::ReservedIm),
        "Active" => Some(Perm::Active),
        "Frozen" => Some(Perm::Frozen),
        "Disabled" => Some(Perm::Disabled),
        _ => None,
    }
}

fn tag(word: Option<&str>) -> Option<u64> {
    word?.parse::<u64>().ok()
}

/// `LO..HI`
fn range_of(word: Option<&str>) -> Option<Bytes> {
    let (lo, hi) = word?.split_once("..")?;
    let lo = lo.parse::<u32>().ok()?;
    let hi = hi.parse::<u32>().ok()?;
    Some(Bytes { lo, hi })
}

/// What a word behind the permission of a retag says.
#[derive(Clone, Copy, Debug, PartialEq, Eq)]
enum Detail {
    Outside(Perm),
    Guard(Guard),
    Cell(CellRange),
}

/// The detail that a word begins, with the word after it where it needs one.
fn detail_of(word: &str, next: Option<&str>) -> Option<Detail> {
    match word {
        "weak" => Some(Detail::Guard(Guard::Weak)),
        "strong" => Some(Detail::Guard(Guard::Strong)),
        "outside" => Some(Detail::Outside(perm(next?)?)),
        "cell" => {
            let range = range_of(next)?;
            Some(Detail::Cell(CellRange {
                lo: range.lo,
                hi: range.hi,
            }))
        }
        _ => None,
    }
}

impl Child {
    /// Reads the words behind the permission of a retag; none where they say nothing that is known.
    fn details(&mut self, words: &[&str]) -> Result<Option<()>, AllocError> {
        let mut next_too = false;
        for (at, word) in words.iter().enumerate() {
            if next_too {
                next_too = false;
                continue;
            }
            let next = words.get(at.saturating_add(1)).copied();
            match detail_of(word, next) {
                Some(Detail::Outside(perm)) => {
                    self.outside = perm;
                    next_too = true;
                }
                Some(Detail::Guard(guard)) => self.guard = guard,
                Some(Detail::Cell(range)) => {
                    self.cells.push(range)?;
                    next_too = true;
                }
                None => return Ok(None),
            }
        }
        Ok(Some(()))
    }
}

/// The new tag that the words of a line name, without the details behind its permission.
fn child_of(alloc: Global, words: &[&str]) -> Option<Child> {
    let word = |at: usize| words.get(at).copied();
    if word(2)? != "->" {
        return None;
    }
    let perm = perm(word(5)?)?;
    Some(Child {
        parent: tag(word(1))?,
        tag: tag(word(3))?,
        bytes: range_of(word(4))?,
        perm,
        outside: perm,
        guard: Guard::Free,
        cells: Vec::new(alloc),
    })
}

/// The event of a line other than a retag.
fn simple(words: &[&str]) -> Option<Event> {
    let word = |at: usize| words.get(at).copied();
    let first = tag(word(1));
    Some(match word(0)? {
        "read" => Event::Access(Kind::Read, first?, range_of(word(2))?),
        "write" => Event::Access(Kind::Write, first?, range_of(word(2))?),
        "release" => Event::Release(first?),
        "unguard" => Event::Unguard(first?),
        "free" => Event::Free(first?),
        "tags" => Event::Tags,
        "states" => Event::States(first?),
        "note" => Event::Note(first?),
        "noted" => Event::Noted,
        "forget" => Event::Forget,
        "leaf" => Event::Leaf(first?),
        "child" => Event::Child(first?),
        "folds" => Event::Folds(first?, tag(word(2))?, word(3) == Some("guarded")),
        "remove" => Event::Remove(first?),
        _ => return None,
    })
}

impl Event {
    /// The event of a line; none where it is not one.
    pub fn of(alloc: Global, line: &str) -> Result<Option<Event>, AllocError> {
        let mut words = Vec::new(alloc);
        for word in line.split(" ") {
            words.push(word)?;
        }
        if words.first().copied() != Some("retag") {
            return Ok(simple(&words));
        }
        let Some(mut child) = child_of(alloc, &words) else {
            return Ok(None);
        };
        let read = child.details(words.get(6..).unwrap_or(&[]))?;
        Ok(read.map(|_| Event::Retag(child)))
    }
}
