ghost use Rattle.std.specs.Prelude.{◌≡◌, ◌≢◌, ◌<◌, ◌≤◌, ◌+◌, ◌-◌, ◌^◌, true, Some, length, IfOk, OnOk, OnErr, IsErrOf, All};
ghost use Rattle.std.specs.List.{slice_range, splice};
ghost use Rattle.tb_perm.specs.declared.tag.Prov.{Prov};
ghost use Rattle.tb_perm.specs.Answer.{Answers, OnBorrow, OnMemory};
ghost use Rattle.tb_perm.specs.Access.{accessed, access_report};
ghost use Rattle.tb_perm.specs.Deallocation.{dealloc_report};
ghost use Rattle.tb_perm.specs.Reborrow.{AreCells, reborrow_report};
ghost use Rattle.tb_perm.specs.Release.{released, release_report};
ghost use Rattle.tb_perm.specs.declared.perm.Guard.TheVariants.{Free};
ghost use Rattle.tb_protect.specs.Frames.{kind_of};
ghost use Rattle.tb_alloc.specs.declared.allocation.Allocation.{Allocation};
ghost use Rattle.tb_alloc.specs.Allocations.{allocation_at, live_bytes_of, live_limit};
ghost use Rattle.tb_value.specs.Provs.{passes, all_pass};
ghost use Rattle.tb_store.specs.Store.{bytes_at};

use crate::calls::{guard_made, unguard_all};
use std::alloc::{AllocError as MemoryError, Global};
use std::marker::Model;
use std::sync::ledger::Ledger;
use tb_alloc::{AllocError, AllocKind, Allocs, Ptr};
use tb_bytes::ByteVal;
use tb_forest::Forest;
use tb_perm::{AllocId, BorrowTree, Kind, NewTag, Prov, Span, Steps, Tag, TreeError};
use tb_protect::Protectors;
use tb_store::Store;

/// The memory of a run. Contracts see the table of its allocations, the bytes and the rows of each, how many tags were
/// drawn, and what the running calls guard.
///
/// After want of memory the allocation that was to be changed is dead, so that the memory is still sound, and good to be
/// dropped.
#[derive(Drop)]
pub struct Memory<T: BorrowTree> {
    alloc: Global,
    store: Store,
    forest: Forest<T>,
    tags: u64,
    frames: Protectors,
}

impl<T: BorrowTree> Model for Memory<T> {
    ghost use Rattle.tb_events.specs.Memory.{RunMemory};
    ghost use Rattle.tb_events.specs.Sound.{IsSound};

    ghost Value = { RunMemory };

    ghost view = { λ m. record { table = m.store.table; contents = m.store.contents; trees = m.forest; tags = m.tags; frames = m.frames } };

    ghost invariant = { λ m. IsSound (record { table = m.store.table; contents = m.store.contents; trees = m.forest; tags = m.tags; frames = m.frames }) };
}

/// Where an allocation begins.
fn base_at(table: &Allocs, id: AllocId) -> u64
    ensures { (a : Allocation) → allocation_at table.now id.0 ≡ Some a → result ≡ a.base }
{
    match table.get(id) {
        Some(found) => found.base,
        None => 0,
    }
}

impl<T: BorrowTree> Memory<T> {
    ghost use Rattle.tb_forest.specs.Forest.{TreeRows};
    ghost use Rattle.tb_events.specs.Memory.{no_memory, rows_at, size_at, reaches, knows, with_made, made_pointer, with_rows, with_bytes, without, Keeps};
    ghost use Rattle.tb_events.specs.Calls.{prov_made, prov_parent, with_tag, with_call, guarded_now, without_call};
    ghost use Rattle.tb_events.specs.Sound.{IsSound};

    /// A memory without allocations and calls.
    pub fn new(alloc: Global) -> Result<Memory<T>, MemoryError>
        ensures { IfOk result (λ memory. memory ≡ no_memory) }
    {
        let frames = Protectors::new(alloc)?;
        Ok(Memory {
            alloc,
            store: Store::new(alloc),
            forest: Forest::new(alloc),
            tags: 0,
            frames,
        })
    }

    /// The table of the allocations, by which accesses, moved pointers and frees are checked.
    pub fn table(&self) -> &Allocs
        ensures { result.now ≡ self.now.table }
    {
        self.store.table()
    }

    /// How many bytes an allocation has; none where its number was not given yet.
    pub fn size(&self, id: AllocId) -> u32
        ensures { result ≡ size_at self.now id.0 }
    {
        match self.store.table().get(id) {
            Some(found) => found.size,
            None => 0,
        }
    }

    /// What is true of every memory.
    pub fn law_memory(&self)
        ensures { IsSound self.now }
    {
        let _ = &self.tags;
    }

    /// Makes an allocation, live, its bytes uninitialised, and draws its root tag. The pointer points to its first
    /// byte. After either error nothing has changed.
    pub fn make(
        &mut self,
        size: u32,
        align: u32,
        kind: AllocKind,
        made: Span,
    ) -> Result<Ptr, AllocError>
        requires align { 0 < align }
        requires tags { self.old.tags < 2 ^ 62 }
        ensures pointer { IfOk result (λ ptr. ptr ≡ made_pointer self.old align) }
        ensures memory { OnOk result (self.new ≡ with_made self.old size align kind made) }
        ensures limit { IsErrOf result AllocError.LiveLimit → live_limit < live_bytes_of self.old.table + size }
        ensures fits { OnOk result (live_bytes_of self.old.table + size ≤ live_limit) }
        ensures err { OnErr result (self.new ≡ self.old) }
        ensures known { IfOk result (λ ptr. passes (knows self.new) ptr.prov ≡ true) }
        ensures keeps { Keeps self.old self.new }
        ensures calls { length self.new.frames ≡ length self.old.frames }
        ensures drawn { self.new.tags ≤ self.old.tags + 1 }
    {
        let tag = self.tags + 1;
        let Ok(()) = self.forest.plant(self.alloc, size, Tag(tag), made) else {
            return Err(AllocError::Memory);
        };
        match self.store.allocate(size, align, kind, made) {
            Ok(alloc) => {
                self.tags = tag;
                let addr = base_at(self.store.table(), alloc);
                let prov = Prov {
                    alloc,
                    tag: Tag(tag),
                };
                Ok(Ptr {
                    addr,
                    prov: Some(prov),
                })
            }
            Err(error) => {
                self.forest.uproot();
                Err(error)
            }
        }
    }

    /// An access through a provenance to the bytes of its allocation from `lo` to before `hi`.
    pub fn access<L: Ledger>(
        &mut self,
        prov: Prov,
        lo: u32,
        hi: u32,
        kind: Kind,
        steps: &mut Steps<L>,
    ) -> Result<(), TreeError>
        requires prov { reaches self.old prov ≡ true }
        requires range { lo ≤ hi }
        requires end { hi ≤ size_at self.old prov.alloc.0 }
        ensures moved { OnOk result (self.new ≡ with_rows self.old prov.alloc.0 (λ (tree : TreeRows). accessed tree.rows prov.tag.0 lo hi kind)) }
        ensures answer { Answers (access_report (rows_at self.old prov.alloc.0) (size_at self.old prov.alloc.0) prov.tag.0 lo hi kind) result }
        ensures refused { OnBorrow result (self.new ≡ self.old) }
        ensures gone { OnMemory result (self.new ≡ without self.old prov.alloc.0) }
        ensures reached { OnOk result (reaches self.new prov ≡ true) }
        ensures known { OnOk result ((asked : Prov) → knows self.new asked ≡ knows self.old asked) }
        ensures keeps { Keeps self.old self.new }
        ensures calls { length self.new.frames ≡ length self.old.frames }
        ensures drawn { self.new.tags ≡ self.old.tags }
        ensures counted { steps.old ≤ steps.new }
    {
        match self
            .forest
            .access(prov.alloc, prov.tag, lo, hi, kind, steps)
        {
            Ok(()) => Ok(()),
            Err(TreeError::Borrow(report)) => Err(TreeError::Borrow(report)),
            Err(TreeError::Memory) => {
                self.store.kill(prov.alloc);
                Err(TreeError::Memory)
            }
        }
    }

    /// A deallocation through a provenance, after which its allocation is dead.
    pub fn end<L: Ledger>(&mut self, prov: Prov, steps: &mut Steps<L>) -> Result<(), TreeError>
        requires { reaches self.old prov ≡ true }
        ensures done { OnOk result (self.new ≡ without self.old prov.alloc.0) }
        ensures answer { Answers (dealloc_report (rows_at self.old prov.alloc.0) (size_at self.old prov.alloc.0) prov.tag.0) result }
        ensures refused { OnBorrow result (self.new ≡ self.old) }
        ensures gone { OnMemory result (self.new ≡ without self.old prov.alloc.0) }
        ensures keeps { Keeps self.old self.new }
        ensures calls { length self.new.frames ≡ length self.old.frames }
        ensures drawn { self.new.tags ≡ self.old.tags }
        ensures counted { steps.old ≤ steps.new }
    {
        match self.forest.fell(prov.alloc, prov.tag, steps) {
            Ok(()) => {
                self.store.kill(prov.alloc);
                Ok(())
            }
            Err(TreeError::Borrow(report)) => Err(TreeError::Borrow(report)),
            Err(TreeError::Memory) => {
                self.store.kill(prov.alloc);
                Err(TreeError::Memory)
            }
        }
    }

    /// The bytes of an allocation from `lo` to before `hi`.
    pub fn read(&self, prov: Prov, lo: u32, hi: u32) -> Result<Vec<ByteVal>, MemoryError>
        requires prov { reaches self.now prov ≡ true }
        requires order { lo ≤ hi }
        requires within { hi ≤ size_at self.now prov.alloc.0 }
        ensures value { IfOk result (λ bytes. bytes.items ≡ slice_range (bytes_at self.now.contents prov.alloc.0) lo hi) }
        ensures size { IfOk result (λ bytes. length bytes.items ≡ hi - lo) }
        ensures known { IfOk result (λ bytes. all_pass (knows self.now) bytes.items ≡ true) }
    {
        self.store.read(prov.alloc, lo, hi)
    }

    /// Writes bytes of an allocation from `lo` on. Each provenance among them is known.
    pub fn write(&mut self, prov: Prov, lo: u32, bytes: &[ByteVal]) -> Result<(), MemoryError>
        requires prov { reaches self.old prov ≡ true }
        requires within { lo + length bytes.now ≤ size_at self.old prov.alloc.0 }
        requires known { all_pass (knows self.old) bytes.now ≡ true }
        ensures ok { OnOk result (self.new ≡ with_bytes self.old prov.alloc.0 (splice (bytes_at self.old.contents prov.alloc.0) lo (lo + length bytes.now) bytes.now)) }
        ensures gone { OnErr result (self.new ≡ without self.old prov.alloc.0) }
        ensures keeps { Keeps self.old self.new }
        ensures calls { length self.new.frames ≡ length self.old.frames }
        ensures drawn { self.new.tags ≡ self.old.tags }
    {
        match self.store.write(prov.alloc, lo, bytes) {
            Ok(()) => Ok(()),
            Err(error) => {
                self.forest.clear(prov.alloc);
                Err(error)
            }
        }
    }

    /// The tag that is drawn next.
    pub fn next_tag(&self) -> Tag
        requires { self.now.tags < 2 ^ 62 }
        ensures { result.0 ≡ self.now.tags + 1 }
    {
        Tag(self.tags + 1)
    }

    /// A reborrow, which draws the next tag where it is not refused. A guarded tag is guarded by the running call.
    pub fn reborrow<L: Ledger>(
        &mut self,
        alloc: AllocId,
        new: NewTag,
        steps: &mut Steps<L>,
    ) -> Result<(), TreeError>
        requires parent { reaches self.old (prov_parent alloc new) ≡ true }
        requires next { new.tag.0 ≡ self.old.tags + 1 }
        requires range { new.lo ≤ new.hi }
        requires end { new.hi ≤ size_at self.old alloc.0 }
        requires cells { AreCells new.lo new.hi new.cells }
        requires call { new.guard ≢ Free → 0 < length self.old.frames }
        ensures moved { OnOk result (self.new ≡ with_tag self.old alloc new) }
        ensures answer { Answers (reborrow_report (rows_at self.old alloc.0) (size_at self.old alloc.0) new) result }
        ensures refused { OnBorrow result (self.new ≡ self.old) }
        ensures gone { OnMemory result (self.new ≡ without self.old alloc.0) }
        ensures known { OnOk result (knows self.new (prov_made alloc new) ≡ true) }
        ensures keeps { Keeps self.old self.new }
        ensures calls { length self.new.frames ≡ length self.old.frames }
        ensures drawn { self.new.tags ≤ self.old.tags + 1 }
        ensures counted { steps.old ≤ steps.new }
    {
        let made = Prov {
            alloc,
            tag: new.tag,
        };
        let guard = new.guard;
        match self.forest.retag(alloc, new, steps) {
            Ok(()) => match guard_made(&mut self.frames, made, guard) {
                Ok(()) => {
                    self.tags = made.tag.0;
                    Ok(())
                }
                Err(_) => {
                    self.forest.clear(alloc);
                    self.store.kill(alloc);
                    Err(TreeError::Memory)
                }
            },
            Err(TreeError::Borrow(report)) => Err(TreeError::Borrow(report)),
            Err(TreeError::Memory) => {
                self.store.kill(alloc);
                Err(TreeError::Memory)
            }
        }
    }

    /// A call begins. Out of memory leaves all as it was.
    pub fn begin_call(&mut self) -> Result<(), MemoryError>
        ensures ok { OnOk result (self.new ≡ with_call self.old) }
        ensures err { OnErr result (self.new ≡ self.old) }
        ensures keeps { Keeps self.old self.new }
        ensures calls { OnOk result (length self.new.frames ≡ length self.old.frames + 1) }
        ensures drawn { self.new.tags ≡ self.old.tags }
    {
        self.frames.push_frame()
    }

    /// What the running call guards, in the order in which it came.
    pub fn guarded(&self) -> &[Prov]
        requires { 0 < length self.now.frames }
        ensures value { result.now ≡ guarded_now self.now }
        ensures known { All (λ (prov : Prov). knows self.now prov ≡ true) result.now }
    {
        self.frames.frame_list()
    }

    /// The accesses of a guarded tag at the end of its call. Its guard stays.
    pub fn release<L: Ledger>(&mut self, prov: Prov, steps: &mut Steps<L>) -> Result<(), TreeError>
        requires { reaches self.old prov ≡ true }
        ensures moved { OnOk result (self.new ≡ with_rows self.old prov.alloc.0 (λ (tree : TreeRows). released tree.rows prov.tag.0)) }
        ensures answer { Answers (release_report (rows_at self.old prov.alloc.0) (size_at self.old prov.alloc.0) prov.tag.0) result }
        ensures refused { OnBorrow result (self.new ≡ self.old) }
        ensures gone { OnMemory result (self.new ≡ without self.old prov.alloc.0) }
        ensures keeps { Keeps self.old self.new }
        ensures calls { length self.new.frames ≡ length self.old.frames }
        ensures drawn { self.new.tags ≡ self.old.tags }
        ensures counted { steps.old ≤ steps.new }
    {
        match self.forest.release(prov.alloc, prov.tag, steps) {
            Ok(()) => Ok(()),
            Err(TreeError::Borrow(report)) => Err(TreeError::Borrow(report)),
            Err(TreeError::Memory) => {
                self.store.kill(prov.alloc);
                Err(TreeError::Memory)
            }
        }
    }

    /// The running call is over, and its guards go.
    #[tactic(auto, using(crate::proofs::Counting::below_one))]
    pub fn finish_call(&mut self)
        requires { 0 < length self.old.frames }
        ensures done { self.new ≡ without_call self.old }
        ensures keeps { Keeps self.old self.new }
        ensures calls { length self.new.frames + 1 ≡ length self.old.frames }
        ensures drawn { self.new.tags ≡ self.old.tags }
    {
        unguard_all(
            &mut self.forest,
            self.store.table(),
            self.frames.frame_list(),
        );
        self.frames.pop_frame();
    }
}
