ghost use Rattle.std.specs.Prelude.{◌≡◌, ◌<◌, All};
ghost use Rattle.tb_perm.specs.Rows.{Row, HasTag};
ghost use Rattle.tb_heap.specs.Access.{access, load, store, retag, free, perm_of};
ghost use Rattle.tb_heap.specs.Entries.{seen, stop_of, Turns};

use crate::stop::Stop;
use crate::value::Value;
use sqlite_items::Items;
use std::alloc::Global;
use std::sync::ledger::Ledger;
use tb_perm::{AllocId, BorrowTree, Guard, Kind, NewTag, Perm, Prov, Span, Steps, Tag, TreeError};

/// An allocation and the tree of its tags.
#[derive(Drop)]
pub struct Entry<T: BorrowTree> {
    pub tree: T,
    /// In bytes.
    pub size: u32,
    pub live: bool,
    pub content: Option<Value>,
}

/// Why an event on the tree of this allocation did not happen.
fn stop(alloc: AllocId, error: TreeError) -> Stop
    ensures { result ≡ stop_of alloc error }
{
    match error {
        TreeError::Borrow(report) => Stop::Borrow(alloc, report),
        TreeError::Memory => Stop::Memory,
    }
}

/// What a new reference may do.
fn perm(unique: bool) -> Perm
    ensures { result ≡ perm_of unique }
{
    if unique { Perm::Reserved } else { Perm::Frozen }
}

impl<T: BorrowTree> Entry<T> {
    /// An access through the tag to all bytes.
    fn access<L: Ledger>(
        &mut self,
        prov: Prov,
        kind: Kind,
        steps: &mut Steps<L>,
    ) -> Result<(), Stop>
        requires tag { HasTag (T.rows self.old.tree) prov.tag.0 }
        requires fits { T.extent self.old.tree ≡ self.old.size }
        ensures turns { Turns (access kind prov (seen T.rows self.old)) result (seen T.rows self.new) }
        ensures content { self.new.content ≡ self.old.content }
        ensures fits { T.extent self.new.tree ≡ self.new.size }
    {
        match self.tree.access(prov.tag, 0, self.size, kind, steps) {
            Ok(()) => Ok(()),
            Err(error) => Err(stop(prov.alloc, error)),
        }
    }

    /// A load through the tag.
    pub fn load<L: Ledger>(&mut self, prov: Prov, steps: &mut Steps<L>) -> Result<Value, Stop>
        requires tag { HasTag (T.rows self.old.tree) prov.tag.0 }
        requires fits { T.extent self.old.tree ≡ self.old.size }
        ensures turns { Turns (load prov (seen T.rows self.old)) result (seen T.rows self.new) }
        ensures fits { T.extent self.new.tree ≡ self.new.size }
    {
        self.access(prov, Kind::Read, steps)?;
        match self.content {
            Some(value) => Ok(value),
            None => Err(Stop::Uninit),
        }
    }

    /// A store through the tag.
    pub fn store<L: Ledger>(
        &mut self,
        prov: Prov,
        value: Value,
        steps: &mut Steps<L>,
    ) -> Result<(), Stop>
        requires tag { HasTag (T.rows self.old.tree) prov.tag.0 }
        requires fits { T.extent self.old.tree ≡ self.old.size }
        ensures turns { Turns (store value prov (seen T.rows self.old)) result (seen T.rows self.new) }
        ensures fits { T.extent self.new.tree ≡ self.new.size }
    {
        self.access(prov, Kind::Write, steps)?;
        self.content = Some(value);
        Ok(())
    }

    /// A reborrow of all bytes, which makes this tag; answers the pointer with it.
    pub fn retag<L: Ledger>(
        &mut self,
        alloc: Global,
        prov: Prov,
        tag: Tag,
        unique: bool,
        made: Span,
        steps: &mut Steps<L>,
    ) -> Result<Prov, Stop>
        requires parent { HasTag (T.rows self.old.tree) prov.tag.0 }
        requires above { All (λ (row : Row). row.tag < tag.0) (T.rows self.old.tree) }
        requires fits { T.extent self.old.tree ≡ self.old.size }
        ensures turns { Turns (retag tag.0 unique made prov (seen T.rows self.old)) result (seen T.rows self.new) }
        ensures fits { T.extent self.new.tree ≡ self.new.size }
    {
        let perm = perm(unique);
        let new = NewTag {
            parent: prov.tag,
            tag,
            lo: 0,
            hi: self.size,
            perm,
            outside: perm,
            cells: Items::new(alloc),
            guard: Guard::Free,
            made,
        };
        match self.tree.retag(new, steps) {
            Ok(()) => Ok(Prov {
                alloc: prov.alloc,
                tag,
            }),
            Err(error) => Err(stop(prov.alloc, error)),
        }
    }

    /// A deallocation through the tag, which ends the life of the allocation.
    pub fn free<L: Ledger>(&mut self, prov: Prov, steps: &mut Steps<L>) -> Result<(), Stop>
        requires tag { HasTag (T.rows self.old.tree) prov.tag.0 }
        requires fits { T.extent self.old.tree ≡ self.old.size }
        ensures turns { Turns (free prov (seen T.rows self.old)) result (seen T.rows self.new) }
        ensures fits { T.extent self.new.tree ≡ self.new.size }
    {
        match self.tree.dealloc(prov.tag, steps) {
            Ok(()) => {
                self.live = false;
                Ok(())
            }
            Err(error) => Err(stop(prov.alloc, error)),
        }
    }
}
