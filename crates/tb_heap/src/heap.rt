ghost use Rattle.std.specs.Prelude.{◌≡◌};
ghost use Rattle.tb_heap.specs.Entries.{Finds};

use crate::entry::Entry;
use crate::stop::Stop;
use crate::value::Value;
use std::alloc::Global;
use std::marker::Model;
use std::sync::ledger::Ledger;
use tb_perm::{AllocId, BorrowTree, Prov, Span, Steps, Tag};

/// The memory of a run. Contracts see its allocations with the rows of their tags, and how many tags
/// were made. After a stop it is only good to be dropped.
#[derive(Drop)]
pub struct Heap<T: BorrowTree> {
    alloc: Global,
    /// The allocation of number n stands at place n - 1.
    entries: Vec<Entry<T>>,
    /// How many tags were made.
    tags: u64,
}

impl<T: BorrowTree> Model for Heap<T> {
    ghost use Rattle.std.specs.Prelude.{map};
    ghost use Rattle.tb_heap.specs.Memory.{RunMemory};
    ghost use Rattle.tb_heap.specs.Entries.{seen, AreFitting};

    ghost Value = { RunMemory };

    ghost view = { λ h. record { allocations = map (seen T.rows) h.entries.items; tags = h.tags } };

    ghost invariant = { λ h. AreFitting T.extent h.entries.items };
}

/// Where the allocation stands that the pointer names, if it is live; with the pointer's provenance.
fn find<T: BorrowTree>(entries: &[Entry<T>], pointer: Option<Prov>) -> Result<(Prov, usize), Stop>
    ensures { Finds T.rows entries.now pointer result }
{
    let Some(prov) = pointer else {
        return Err(Stop::Dangling);
    };
    let Some(place) = prov.alloc.0.checked_sub(1) else {
        return Err(Stop::Dangling);
    };
    let Some(entry) = entries.get(place as usize) else {
        return Err(Stop::Dangling);
    };
    if entry.live {
        Ok((prov, place as usize))
    } else {
        Err(Stop::Dangling)
    }
}

impl<T: BorrowTree> Heap<T> {
    ghost use Rattle.std.specs.Prelude.{◌≡◌};
    ghost use Rattle.tb_heap.specs.Memory.{no_memory, born, birth};
    ghost use Rattle.tb_heap.specs.Access.{Answers, Done, loaded, stored, retagged, freed};
    ghost use Rattle.tb_heap.specs.Sound.{IsSound, KnowsPointer};

    /// A memory without allocations.
    pub fn new(alloc: Global) -> Heap<T>
        ensures { result ≡ no_memory }
    {
        Heap {
            alloc,
            entries: Vec::new(alloc),
            tags: 0,
        }
    }

    /// Makes an allocation of so many bytes, and answers the pointer to it, whose tag is its root. It
    /// answers no stop but want of memory.
    pub fn local_live(&mut self, size: u32, made: Span) -> Result<Prov, Stop>
        ensures { Answers (Done (born self.old size made) (birth self.old)) result self.new }
    {
        let tag = self.tags.checked_add(1).ok_or(Stop::Memory)?;
        let Ok(tree) = T::root(self.alloc, size, Tag(tag), made) else {
            return Err(Stop::Memory);
        };
        let entry = Entry {
            tree,
            size,
            live: true,
            content: None,
        };
        if self.entries.push(entry).is_err() {
            return Err(Stop::Memory);
        }
        self.tags = tag;
        Ok(Prov {
            alloc: AllocId(self.entries.len() as u64),
            tag: Tag(tag),
        })
    }

    /// Ends the life of an allocation: a deallocation through the pointer.
    pub fn local_dead<L: Ledger>(
        &mut self,
        pointer: Option<Prov>,
        steps: &mut Steps<L>,
    ) -> Result<(), Stop>
        requires pointer { KnowsPointer self.old pointer }
        ensures { Answers (freed self.old pointer) result self.new }
    {
        let (prov, place) = find(self.entries.as_slice(), pointer)?;
        self.entries[place].free(prov, steps)
    }

    /// Loads the value of an allocation: a read access through the pointer to all of its bytes.
    pub fn load<L: Ledger>(
        &mut self,
        pointer: Option<Prov>,
        steps: &mut Steps<L>,
    ) -> Result<Value, Stop>
        requires pointer { KnowsPointer self.old pointer }
        ensures { Answers (loaded self.old pointer) result self.new }
    {
        let (prov, place) = find(self.entries.as_slice(), pointer)?;
        self.entries[place].load(prov, steps)
    }

    /// Stores a value to an allocation: a write access through the pointer to all of its bytes.
    pub fn store<L: Ledger>(
        &mut self,
        pointer: Option<Prov>,
        value: Value,
        steps: &mut Steps<L>,
    ) -> Result<(), Stop>
        requires pointer { KnowsPointer self.old pointer }
        ensures { Answers (stored self.old pointer value) result self.new }
    {
        let (prov, place) = find(self.entries.as_slice(), pointer)?;
        self.entries[place].store(prov, value, steps)
    }

    /// Makes a tag below the pointer's own, by a reborrow of all bytes of its allocation, and answers
    /// the pointer with that tag. A unique reference is reserved, a shared one frozen.
    pub fn retag<L: Ledger>(
        &mut self,
        pointer: Option<Prov>,
        unique: bool,
        made: Span,
        steps: &mut Steps<L>,
    ) -> Result<Prov, Stop>
        requires sound { IsSound self.old }
        requires pointer { KnowsPointer self.old pointer }
        ensures { Answers (retagged self.old pointer unique made) result self.new }
    {
        let (prov, place) = find(self.entries.as_slice(), pointer)?;
        let Some(tag) = self.tags.checked_add(1) else {
            return Err(Stop::Memory);
        };
        self.tags = tag;
        self.entries[place].retag(self.alloc, prov, Tag(tag), unique, made, steps)
    }
}
