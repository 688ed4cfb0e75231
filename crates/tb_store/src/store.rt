ghost use Rattle.std.specs.Prelude.{◌≡◌, ◌≢◌, ◌≤◌, ◌<◌, ◌+◌, ◌↔◌, ◌++◌, ◌∷◌, [], ℕ, length, IfOk, OnOk, OnErr, IsErrOf, MatchOption, map};
ghost use Rattle.std.specs.List.{slice_range, splice};
ghost use Rattle.tb_alloc.specs.Allocations.{new_allocation, live_bytes_of, live_limit, killed};
ghost use Rattle.tb_bytes.specs.Bytes.{prov_of, HasNoProv, IsNextRun};
ghost use Rattle.tb_store.specs.Store.{no_blocks, with_nth, bytes_at, uninit, AreBlocks};

use crate::entries::{at, empty, put, write};
use std::alloc::{AllocError as MemoryError, Global};
use std::marker::Model;
use tb_alloc::{AllocError, AllocKind, Allocs};
use tb_bytes::{ByteVal, Bytes};
use tb_perm::{AllocId, Prov, Span};

/// How many bytes may be live at once.
const LIVE_LIMIT: u64 = 16_777_216;

/// All allocations of a run, each with its bytes. Contracts see the table of the allocations, and the bytes of each. A
/// dead allocation keeps no bytes.
#[derive(Drop)]
pub struct Store {
    alloc: Global,
    table: Allocs,
    entries: Vec<Option<Bytes>>,
}

impl Model for Store {
    ghost use Rattle.std.specs.Prelude.{map};
    ghost use Rattle.tb_store.specs.Store.{Blocks, AreBlocks, kept_bytes};

    ghost Value = { Blocks };

    ghost view = { λ s. record { table = s.table; contents = map kept_bytes s.entries.items } };

    ghost invariant = { λ s. AreBlocks s.table (map kept_bytes s.entries.items) };
}

impl Store {
    /// No allocation yet.
    pub fn new(alloc: Global) -> Store
        ensures { result ≡ no_blocks }
    {
        Store {
            alloc,
            table: Allocs::new(alloc),
            entries: Vec::new(alloc),
        }
    }

    /// Makes an allocation, live, at the next address that its alignment allows, its bytes uninitialised, and answers
    /// its number. After either error nothing has changed.
    pub fn allocate(
        &mut self,
        size: u32,
        align: u32,
        kind: AllocKind,
        made: Span,
    ) -> Result<AllocId, AllocError>
        requires { 0 < align }
        ensures number { IfOk result (λ id. id.0 ≡ length self.old.table + 1) }
        ensures table { OnOk result (self.new.table ≡ self.old.table ++ new_allocation self.old.table size align kind made ∷ []) }
        ensures contents { OnOk result (self.new.contents ≡ self.old.contents ++ uninit size ∷ []) }
        ensures limit { IsErrOf result AllocError.LiveLimit ↔ (live_limit < live_bytes_of self.old.table + size) }
        ensures err { OnErr result (self.new ≡ self.old) }
    {
        let live = self.table.live_bytes() + size as u64;
        if live > LIVE_LIMIT {
            return Err(AllocError::LiveLimit);
        }
        let Ok(bytes) = Bytes::new(self.alloc, size) else {
            return Err(AllocError::Memory);
        };
        let Ok(()) = put(&mut self.entries, bytes) else {
            return Err(AllocError::Memory);
        };
        match self.table.allocate(size, align, kind, made) {
            Ok(id) => Ok(id),
            Err(_) => {
                self.entries.pop();
                Err(AllocError::Memory)
            }
        }
    }

    /// The table of the allocations, by which accesses, moved pointers and frees are checked.
    pub fn table(&self) -> &Allocs
        ensures { result.now ≡ self.now.table }
    {
        &self.table
    }

    /// The bytes of an allocation from `lo` to before `hi`.
    pub fn read(&self, id: AllocId, lo: u32, hi: u32) -> Result<Vec<ByteVal>, MemoryError>
        requires order { lo ≤ hi }
        requires within { hi ≤ length (bytes_at self.now.contents id.0) }
        ensures { IfOk result (λ bytes. bytes.items ≡ slice_range (bytes_at self.now.contents id.0) lo hi) }
    {
        match at(&self.entries, id) {
            Some(bytes) => bytes.read(lo, hi),
            None => Ok(Vec::new(self.alloc)),
        }
    }

    /// Writes bytes of an allocation that was made from `lo` on. After want of memory the allocation is dead.
    pub fn write(&mut self, id: AllocId, lo: u32, bytes: &[ByteVal]) -> Result<(), MemoryError>
        requires number { 0 < id.0 }
        requires given { id.0 ≤ length self.old.table }
        requires within { lo + length bytes.now ≤ length (bytes_at self.old.contents id.0) }
        ensures table { OnOk result (self.new.table ≡ self.old.table) }
        ensures contents { OnOk result (self.new.contents ≡ with_nth self.old.contents id.0 (splice (bytes_at self.old.contents id.0) lo (lo + length bytes.now) bytes.now)) }
        ensures dead { OnErr result (self.new.table ≡ killed self.old.table id.0) }
        ensures gone { OnErr result (self.new.contents ≡ with_nth self.old.contents id.0 []) }
    {
        match write(&mut self.entries, id, lo, bytes) {
            Ok(()) => Ok(()),
            Err(error) => {
                self.table.kill(id);
                empty(&mut self.entries, id);
                Err(error)
            }
        }
    }

    /// Makes an allocation dead, and lets go of its bytes. Where it is dead, or its number was not given yet, nothing
    /// changes.
    pub fn kill(&mut self, id: AllocId)
        ensures table { self.new.table ≡ killed self.old.table id.0 }
        ensures contents { self.new.contents ≡ with_nth self.old.contents id.0 [] }
    {
        self.table.kill(id);
        empty(&mut self.entries, id);
    }

    /// The first run of bytes of an allocation of one provenance that has a place at or after `place`, by where it ends
    /// and its provenance; none where no byte from there on has one.
    pub fn next_prov(&self, id: AllocId, place: u32) -> Option<(u32, Prov)>
        ensures { MatchOption result (HasNoProv place (bytes_at self.now.contents id.0)) (λ run. IsNextRun place (map prov_of (bytes_at self.now.contents id.0)) run.0 run.1) }
    {
        match at(&self.entries, id) {
            Some(bytes) => bytes.next_prov(place),
            None => None,
        }
    }

    /// What is true of the allocations and their bytes.
    pub fn law_blocks(&self)
        ensures { AreBlocks self.now.table self.now.contents }
    {
        let _ = &self.entries;
    }
}
