ghost use Rattle.std.specs.Prelude.{◌≡◌, ◌≢◌, ◌<◌, ◌≤◌, ◌^◌, ◌+◌, true, Some, Ok, length, IfOk, OnOk, OnErr, IfSome, IsSome};
ghost use Rattle.std.specs.List.{AllByRecursion};
ghost use Rattle.tb_perm.specs.declared.tag.Prov.{Prov};
ghost use Rattle.tb_perm.specs.declared.perm.Guard.TheVariants.{Free};
ghost use Rattle.tb_types.specs.Table.{IsType};
ghost use Rattle.tb_types.specs.Extent.{extent_of, fits};
ghost use Rattle.tb_alloc.specs.Check.{live_of};
ghost use Rattle.tb_alloc.specs.Offset.{offset_of};
ghost use Rattle.tb_new_tag.specs.NewTags.{bytes_of, tag_of};
ghost use Rattle.tb_value.specs.Copies.{copy_of};
ghost use Rattle.tb_value.specs.Provs.{passes, all_pass};
ghost use Rattle.tb_alloc.specs.declared.allocation.AllocKind.TheVariants.{Stack, Heap as OnHeap};

use crate::stop::{
    Stop, access_stop, done_or_stop, free_stop, offset_or_stop, place_or_stop, pointer_or_stop,
    reborrow_or_stop, value_stop,
};
use sqlite_items::Items;
use std::alloc::{AllocError as MemoryError, Global};
use std::marker::Model;
use std::sync::ledger::Ledger;
use tb_alloc::{AllocKind, Allocs, Ptr};
use tb_bytes::ByteVal;
use tb_events::Memory;
use tb_new_tag::{Place, Retag};
use tb_perm::{BorrowTree, Kind, Prov, Span, Steps};
use tb_types::{Ty, Types};
use tb_value::{copy, stored};

/// How many bytes may be live at once.
const LIVE_LIMIT: u64 = 16_777_216;

/// The heap of a run. Contracts see its memory. Each call answers what its definition says, or that memory is wanting,
/// after which the heap is good to be dropped.
#[derive(Drop)]
pub struct Heap<T: BorrowTree> {
    alloc: Global,
    memory: Memory<T>,
}

impl<T: BorrowTree> Model for Heap<T> {
    ghost use Rattle.tb_events.specs.Memory.{RunMemory};

    ghost Value = { RunMemory };

    ghost view = { λ h. h.memory };
}

impl<T: BorrowTree> Heap<T> {
    ghost use Rattle.tb_events.specs.Memory.{no_memory, size_at, knows, reaches, Keeps};
    ghost use Rattle.tb_events.specs.Calls.{with_call, without_call};
    ghost use Rattle.tb_memory.specs.Heap.{Done, through, if_checked, access, bytes_through, valued, loaded, written, stored, made, ended, freed, dead};
    ghost use Rattle.tb_memory.specs.Retags.{drawn, reborrowed, if_placed, retagged};
    ghost use Rattle.tb_memory.specs.Calls.{tag_released, release_one, release_all, call_ended};
    ghost use Rattle.tb_memory.specs.Answers.{Answers, IsWithin, offset_told};

    /// A heap without allocations and calls.
    pub fn new(alloc: Global) -> Result<Heap<T>, MemoryError>
        ensures { IfOk result (λ heap. heap ≡ no_memory) }
    {
        let memory = Memory::new(alloc)?;
        Ok(Heap { alloc, memory })
    }

    /// The table of the allocations, by which moved pointers are checked.
    pub fn table(&self) -> &Allocs
        ensures { result.now ≡ self.now.table }
    {
        self.memory.table()
    }

    /// The pointer moved by a distance in bytes. Any pointer may be moved by 0; else it needs a live allocation, and its
    /// address and the new one lie from the allocation's base to its end, the end included.
    pub fn offset(&self, ptr: Ptr, distance: i128) -> Result<Ptr, Stop>
        ensures { result ≡ offset_told (offset_of self.now.table ptr distance) }
    {
        offset_or_stop(self.memory.table().offset(ptr, distance))
    }

    /// Where bytes of an allocation end.
    fn end_of(&self, prov: Prov, offset: u32, size: u32) -> u32
        requires { offset + size ≤ size_at self.now prov.alloc.0 }
        ensures { result ≡ offset + size }
    {
        let _size = self.memory.size(prov.alloc);
        offset + size
    }

    /// An access to bytes of the allocation that a provenance names.
    fn through<L: Ledger>(
        &mut self,
        prov: Prov,
        offset: u32,
        size: u32,
        kind: Kind,
        steps: &mut Steps<L>,
    ) -> Result<u32, Stop>
        requires prov { reaches self.old prov ≡ true }
        requires end { offset + size ≤ size_at self.old prov.alloc.0 }
        ensures answer { Answers (through self.old (Some prov) offset size kind) result self.new }
        ensures within { IfOk result (λ place. IsWithin self.new (Some prov) place size) }
        ensures known { OnOk result ((asked : Prov) → knows self.new asked ≡ knows self.old asked) }
        ensures keeps { Keeps self.old self.new }
        ensures calls { length self.new.frames ≡ length self.old.frames }
        ensures drawn { self.new.tags ≡ self.old.tags }
    {
        let end = self.end_of(prov, offset, size);
        let done = self.memory.access(prov, offset, end, kind, steps);
        place_or_stop(prov.alloc, offset, done)
    }

    /// An access to `size` bytes at a pointer. Answers where in the allocation they begin.
    fn access<L: Ledger>(
        &mut self,
        ptr: Ptr,
        size: u32,
        align: u32,
        kind: Kind,
        steps: &mut Steps<L>,
    ) -> Result<u32, Stop>
        requires align { 0 < align }
        requires known { passes (knows self.old) ptr.prov ≡ true }
        ensures answer { Answers (access self.old ptr size align kind) result self.new }
        ensures within { IfOk result (λ offset. IsWithin self.new ptr.prov offset size) }
        ensures known { OnOk result ((asked : Prov) → knows self.new asked ≡ knows self.old asked) }
        ensures keeps { Keeps self.old self.new }
        ensures calls { length self.new.frames ≡ length self.old.frames }
        ensures drawn { self.new.tags ≡ self.old.tags }
    {
        self.memory.law_memory();
        match self.memory.table().check(ptr, size as u128, align) {
            Ok(offset) => self.after_check(ptr, offset, size, kind, steps),
            Err(fault) => Err(access_stop(fault)),
        }
    }

    /// An access that was checked but for the borrow rules.
    fn after_check<L: Ledger>(
        &mut self,
        ptr: Ptr,
        offset: u32,
        size: u32,
        kind: Kind,
        steps: &mut Steps<L>,
    ) -> Result<u32, Stop>
        requires prov { 0 < size → IfSome ptr.prov (λ prov. reaches self.old prov ≡ true) }
        requires end { 0 < size → IfSome ptr.prov (λ prov. offset + size ≤ size_at self.old prov.alloc.0) }
        requires there { 0 < size → IsSome ptr.prov }
        ensures answer { Answers (if_checked self.old ptr size kind (Ok offset)) result self.new }
        ensures within { IfOk result (λ place. IsWithin self.new ptr.prov place size) }
        ensures known { OnOk result ((asked : Prov) → knows self.new asked ≡ knows self.old asked) }
        ensures keeps { Keeps self.old self.new }
        ensures calls { length self.new.frames ≡ length self.old.frames }
        ensures drawn { self.new.tags ≡ self.old.tags }
    {
        if size == 0 {
            return Ok(offset);
        }
        let Some(prov) = ptr.prov else { unreachable!() };
        self.through(prov, offset, size, kind, steps)
    }

    /// The bytes of an allocation from an offset on.
    fn bytes(&self, prov: Option<Prov>, offset: u32, size: u32) -> Result<Vec<ByteVal>, MemoryError>
        requires { IsWithin self.now prov offset size }
        ensures value { IfOk result (λ bytes. bytes.items ≡ bytes_through self.now prov offset size) }
        ensures size { IfOk result (λ bytes. length bytes.items ≡ size) }
        ensures known { IfOk result (λ bytes. all_pass (knows self.now) bytes.items ≡ true) }
    {
        if size == 0 {
            return Ok(Vec::new(self.alloc));
        }
        let Some(prov) = prov else { unreachable!() };
        let end = self.end_of(prov, offset, size);
        self.memory.read(prov, offset, end)
    }

    /// Writes bytes of an allocation from an offset on.
    fn put(&mut self, prov: Option<Prov>, offset: u32, bytes: &[ByteVal]) -> Result<(), Stop>
        requires within { IsWithin self.old prov offset (length bytes.now) }
        requires known { all_pass (knows self.old) bytes.now ≡ true }
        ensures answer { Answers (Done (written self.old prov offset bytes.now) tt) result self.new }
        ensures keeps { Keeps self.old self.new }
        ensures calls { length self.new.frames ≡ length self.old.frames }
        ensures drawn { self.new.tags ≡ self.old.tags }
    {
        if bytes.is_empty() {
            return Ok(());
        }
        let Some(prov) = prov else { unreachable!() };
        match self.memory.write(prov, offset, bytes) {
            Ok(()) => Ok(()),
            Err(_) => Err(Stop::Memory),
        }
    }

    /// A deallocation of the allocation that a provenance names.
    fn finish<L: Ledger>(&mut self, prov: Prov, steps: &mut Steps<L>) -> Result<(), Stop>
        requires { reaches self.old prov ≡ true }
        ensures answer { Answers (ended self.old (Some prov)) result self.new }
        ensures keeps { Keeps self.old self.new }
        ensures calls { length self.new.frames ≡ length self.old.frames }
        ensures drawn { self.new.tags ≡ self.old.tags }
    {
        let done = self.memory.end(prov, steps);
        done_or_stop(prov.alloc, done)
    }

    /// Makes an allocation.
    fn make(&mut self, size: u32, align: u32, kind: AllocKind, span: Span) -> Result<Ptr, Stop>
        requires align { 0 < align }
        requires tags { self.old.tags < 2 ^ 62 }
        ensures answer { Answers (made self.old size align kind span) result self.new }
        ensures known { IfOk result (λ ptr. passes (knows self.new) ptr.prov ≡ true) }
        ensures keeps { Keeps self.old self.new }
        ensures calls { length self.new.frames ≡ length self.old.frames }
        ensures drawn { self.new.tags ≤ self.old.tags + 1 }
    {
        let made = self.memory.make(size, align, kind, span);
        pointer_or_stop(made)
    }

    /// Makes the allocation of a variable of a type, live and uninitialised, and answers the pointer to it.
    pub fn local_live(&mut self, types: &Types, ty: Ty, span: Span) -> Result<Ptr, Stop>
        requires ty { IsType types.now ty }
        requires layout { fits types.now ty ≡ true }
        requires tags { self.old.tags < 2 ^ 62 }
        ensures answer { Answers (made self.old (extent_of types.now ty).size (extent_of types.now ty).align Stack span) result self.new }
        ensures known { IfOk result (λ ptr. passes (knows self.new) ptr.prov ≡ true) }
        ensures keeps { Keeps self.old self.new }
        ensures calls { length self.new.frames ≡ length self.old.frames }
        ensures drawn { self.new.tags ≤ self.old.tags + 1 }
    {
        let (size, align) = types.size_align(ty);
        self.make(size, align, AllocKind::Stack, span)
    }

    /// Makes a block of the heap for a value of a type, also for one of no bytes, and answers the pointer to it.
    pub fn new_box(&mut self, types: &Types, ty: Ty, span: Span) -> Result<Ptr, Stop>
        requires ty { IsType types.now ty }
        requires layout { fits types.now ty ≡ true }
        requires tags { self.old.tags < 2 ^ 62 }
        ensures answer { Answers (made self.old (extent_of types.now ty).size (extent_of types.now ty).align OnHeap span) result self.new }
        ensures known { IfOk result (λ ptr. passes (knows self.new) ptr.prov ≡ true) }
        ensures keeps { Keeps self.old self.new }
        ensures calls { length self.new.frames ≡ length self.old.frames }
        ensures drawn { self.new.tags ≤ self.old.tags + 1 }
    {
        let (size, align) = types.size_align(ty);
        self.make(size, align, AllocKind::Heap, span)
    }

    /// Makes a block of the heap of a size and an alignment.
    pub fn raw_new(&mut self, size: u64, align: u32, span: Span) -> Result<Ptr, Stop>
        requires align { 0 < align }
        requires tags { self.old.tags < 2 ^ 62 }
        ensures answer { Answers (made self.old size align OnHeap span) result self.new }
        ensures known { IfOk result (λ ptr. passes (knows self.new) ptr.prov ≡ true) }
        ensures keeps { Keeps self.old self.new }
        ensures calls { length self.new.frames ≡ length self.old.frames }
        ensures drawn { self.new.tags ≤ self.old.tags + 1 }
    {
        if size > LIVE_LIMIT {
            return Err(Stop::LiveLimit);
        }
        self.make(size as u32, align, AllocKind::Heap, span)
    }

    /// The typed copy of bytes of an allocation.
    fn value(
        &self,
        types: &Types,
        prov: Option<Prov>,
        offset: u32,
        ty: Ty,
    ) -> Result<Items<ByteVal>, Stop>
        requires ty { IsType types.now ty }
        requires layout { fits types.now ty ≡ true }
        requires within { IsWithin self.now prov offset (extent_of types.now ty).size }
        ensures answer { Answers (valued self.now (copy_of types.now ty (bytes_through self.now prov offset (extent_of types.now ty).size))) result self.now }
        ensures known { IfOk result (λ bytes. all_pass (knows self.now) bytes ≡ true) }
    {
        let (size, _) = types.size_align(ty);
        let Ok(bytes) = self.bytes(prov, offset, size) else {
            return Err(Stop::Memory);
        };
        match copy(self.alloc, types, ty, &bytes) {
            Ok(copy) => Ok(Items::from_vec(copy)),
            Err(fault) => Err(value_stop(fault)),
        }
    }

    /// Loads a value of a type: the pointer is checked, then the borrow rules, and then the value.
    pub fn load<L: Ledger>(
        &mut self,
        types: &Types,
        ptr: Ptr,
        ty: Ty,
        steps: &mut Steps<L>,
    ) -> Result<Items<ByteVal>, Stop>
        requires ty { IsType types.now ty }
        requires layout { fits types.now ty ≡ true }
        requires known { passes (knows self.old) ptr.prov ≡ true }
        ensures answer { Answers (loaded self.old types.now ptr ty) result self.new }
        ensures known { IfOk result (λ bytes. all_pass (knows self.new) bytes ≡ true) }
        ensures keeps { Keeps self.old self.new }
        ensures calls { length self.new.frames ≡ length self.old.frames }
        ensures drawn { self.new.tags ≡ self.old.tags }
    {
        let (size, align) = types.size_align(ty);
        match self.access(ptr, size, align, Kind::Read, steps) {
            Ok(offset) => self.value(types, ptr.prov, offset, ty),
            Err(stop) => Err(stop),
        }
    }

    /// Stores a value of a type: the pointer is checked, then the borrow rules. Bytes that are no value are stored too.
    pub fn store<L: Ledger>(
        &mut self,
        types: &Types,
        ptr: Ptr,
        ty: Ty,
        bytes: &[ByteVal],
        steps: &mut Steps<L>,
    ) -> Result<(), Stop>
        requires ty { IsType types.now ty }
        requires layout { fits types.now ty ≡ true }
        requires size { length bytes.now ≡ (extent_of types.now ty).size }
        requires known { passes (knows self.old) ptr.prov ≡ true }
        requires values { all_pass (knows self.old) bytes.now ≡ true }
        ensures answer { Answers (stored self.old types.now ptr ty bytes.now) result self.new }
        ensures keeps { Keeps self.old self.new }
        ensures calls { length self.new.frames ≡ length self.old.frames }
        ensures drawn { self.new.tags ≡ self.old.tags }
    {
        let (size, align) = types.size_align(ty);
        let Ok(copy) = stored(self.alloc, types, ty, bytes) else {
            return Err(Stop::Memory);
        };
        match self.access(ptr, size, align, Kind::Write, steps) {
            Ok(offset) => self.put(ptr.prov, offset, &copy),
            Err(stop) => Err(stop),
        }
    }

    /// Frees the block of the heap that a pointer points to, with a size and an alignment.
    pub fn raw_free<L: Ledger>(
        &mut self,
        ptr: Ptr,
        size: u64,
        align: u64,
        steps: &mut Steps<L>,
    ) -> Result<(), Stop>
        requires { passes (knows self.old) ptr.prov ≡ true }
        ensures answer { Answers (freed self.old ptr size align) result self.new }
        ensures keeps { Keeps self.old self.new }
        ensures calls { length self.new.frames ≡ length self.old.frames }
        ensures drawn { self.new.tags ≡ self.old.tags }
    {
        match self.memory.table().check_free(ptr, size, align) {
            Ok(()) => self.end_live(ptr, steps),
            Err(fault) => Err(free_stop(fault)),
        }
    }

    /// Frees the block of the heap that a box points to, whose content has this type.
    pub fn free<L: Ledger>(
        &mut self,
        types: &Types,
        ptr: Ptr,
        ty: Ty,
        steps: &mut Steps<L>,
    ) -> Result<(), Stop>
        requires ty { IsType types.now ty }
        requires layout { fits types.now ty ≡ true }
        requires known { passes (knows self.old) ptr.prov ≡ true }
        ensures answer { Answers (freed self.old ptr (extent_of types.now ty).size (extent_of types.now ty).align) result self.new }
        ensures keeps { Keeps self.old self.new }
        ensures calls { length self.new.frames ≡ length self.old.frames }
        ensures drawn { self.new.tags ≡ self.old.tags }
    {
        let (size, align) = types.size_align(ty);
        self.raw_free(ptr, size as u64, align as u64, steps)
    }

    /// Ends the life of a variable.
    pub fn local_dead<L: Ledger>(&mut self, ptr: Ptr, steps: &mut Steps<L>) -> Result<(), Stop>
        requires { passes (knows self.old) ptr.prov ≡ true }
        ensures answer { Answers (dead self.old ptr) result self.new }
        ensures keeps { Keeps self.old self.new }
        ensures calls { length self.new.frames ≡ length self.old.frames }
        ensures drawn { self.new.tags ≡ self.old.tags }
    {
        if self.memory.table().live_of(ptr.prov).is_none() {
            return Err(Stop::Dangling);
        }
        self.end_live(ptr, steps)
    }

    /// A deallocation of the live allocation that a pointer names.
    fn end_live<L: Ledger>(&mut self, ptr: Ptr, steps: &mut Steps<L>) -> Result<(), Stop>
        requires known { passes (knows self.old) ptr.prov ≡ true }
        requires live { IsSome (live_of self.old.table ptr.prov) }
        ensures answer { Answers (ended self.old ptr.prov) result self.new }
        ensures keeps { Keeps self.old self.new }
        ensures calls { length self.new.frames ≡ length self.old.frames }
        ensures drawn { self.new.tags ≡ self.old.tags }
    {
        let Some(prov) = ptr.prov else { unreachable!() };
        self.finish(prov, steps)
    }

    /// Retags the pointer in a reference or a box: a reborrow of the bytes that it points to, after which it has the
    /// tag that was made. The pointer is checked first, then the borrow rules. Of a pointer to no bytes the alignment
    /// alone is checked, and it stays as it is. A call that guards has begun and is not over.
    pub fn retag<L: Ledger>(
        &mut self,
        types: &Types,
        ptr: Ptr,
        how: Retag,
        made: Span,
        steps: &mut Steps<L>,
    ) -> Result<Ptr, Stop>
        requires ty { IsType types.now how.pointee }
        requires layout { fits types.now how.pointee ≡ true }
        requires known { passes (knows self.old) ptr.prov ≡ true }
        requires call { how.guard ≢ Free → 0 < length self.old.frames }
        requires tags { self.old.tags < 2 ^ 62 }
        ensures answer { Answers (retagged self.old types.now ptr how made) result self.new }
        ensures known { IfOk result (λ ptr. passes (knows self.new) ptr.prov ≡ true) }
        ensures keeps { Keeps self.old self.new }
        ensures calls { length self.new.frames ≡ length self.old.frames }
        ensures drawn { self.new.tags ≤ self.old.tags + 1 }
    {
        let (_, align) = types.size_align(how.pointee);
        let size = how.size(types);
        self.memory.law_memory();
        match self.memory.table().check(ptr, size, align) {
            Ok(offset) => self.retag_placed(types, ptr, how, offset, made, steps),
            Err(fault) => Err(access_stop(fault)),
        }
    }

    /// A retag that was checked but for the borrow rules.
    fn retag_placed<L: Ledger>(
        &mut self,
        types: &Types,
        ptr: Ptr,
        how: Retag,
        offset: u32,
        made: Span,
        steps: &mut Steps<L>,
    ) -> Result<Ptr, Stop>
        requires ty { IsType types.now how.pointee }
        requires layout { fits types.now how.pointee ≡ true }
        requires known { passes (knows self.old) ptr.prov ≡ true }
        requires prov { 0 < bytes_of types.now how → IfSome ptr.prov (λ prov. reaches self.old prov ≡ true) }
        requires end { 0 < bytes_of types.now how → IfSome ptr.prov (λ prov. offset + bytes_of types.now how ≤ size_at self.old prov.alloc.0) }
        requires there { 0 < bytes_of types.now how → IsSome ptr.prov }
        requires call { how.guard ≢ Free → 0 < length self.old.frames }
        requires tags { self.old.tags < 2 ^ 62 }
        ensures answer { Answers (if_placed self.old types.now ptr how made (Ok offset)) result self.new }
        ensures known { IfOk result (λ ptr. passes (knows self.new) ptr.prov ≡ true) }
        ensures keeps { Keeps self.old self.new }
        ensures calls { length self.new.frames ≡ length self.old.frames }
        ensures drawn { self.new.tags ≤ self.old.tags + 1 }
    {
        if how.size(types) == 0 {
            return Ok(ptr);
        }
        let Some(prov) = ptr.prov else { unreachable!() };
        let place = Place {
            parent: prov.tag,
            tag: self.memory.next_tag(),
            offset,
            made,
        };
        self.reborrow(types, ptr.addr, prov, how, place, steps)
    }

    /// A reborrow through a provenance, at its place. Answers the address with the provenance of the new tag.
    fn reborrow<L: Ledger>(
        &mut self,
        types: &Types,
        addr: u64,
        prov: Prov,
        how: Retag,
        place: Place,
        steps: &mut Steps<L>,
    ) -> Result<Ptr, Stop>
        requires ty { IsType types.now how.pointee }
        requires layout { fits types.now how.pointee ≡ true }
        requires prov { reaches self.old prov ≡ true }
        requires end { place.offset + bytes_of types.now how ≤ size_at self.old prov.alloc.0 }
        requires call { how.guard ≢ Free → 0 < length self.old.frames }
        requires parent { place.parent ≡ prov.tag }
        requires tag { place.tag.0 ≡ self.old.tags + 1 }
        ensures answer { Answers (reborrowed self.old addr prov (tag_of types.now how place.parent place.tag place.offset place.made)) result self.new }
        ensures known { IfOk result (λ ptr. passes (knows self.new) ptr.prov ≡ true) }
        ensures keeps { Keeps self.old self.new }
        ensures calls { length self.new.frames ≡ length self.old.frames }
        ensures drawn { self.new.tags ≤ self.old.tags + 1 }
    {
        let size = self.memory.size(prov.alloc);
        let Ok(new) = how.new_tag(self.alloc, types, place) else {
            return Err(Stop::Memory);
        };
        let done = self.memory.reborrow(prov.alloc, new, steps);
        let made = Prov {
            alloc: prov.alloc,
            tag: place.tag,
        };
        let ptr = Ptr {
            addr,
            prov: Some(made),
        };
        reborrow_or_stop(prov.alloc, ptr, done)
    }

    /// A call begins, which guards nothing yet. Out of memory leaves all as it was.
    pub fn begin_call(&mut self) -> Result<(), MemoryError>
        ensures ok { OnOk result (self.new ≡ with_call self.old) }
        ensures err { OnErr result (self.new ≡ self.old) }
        ensures keeps { Keeps self.old self.new }
        ensures calls { OnOk result (length self.new.frames ≡ length self.old.frames + 1) }
        ensures drawn { self.new.tags ≡ self.old.tags }
    {
        self.memory.begin_call()
    }

    /// The running call is over: what it guards is released in the order in which it came, and then the guards go. The
    /// tags of dead allocations are passed over. Where a tag refuses, the releases before it stand, and so do all guards.
    pub fn end_call<L: Ledger>(&mut self, steps: &mut Steps<L>) -> Result<(), Stop>
        requires { 0 < length self.old.frames }
        ensures answer { Answers (call_ended self.old) result self.new }
        ensures keeps { Keeps self.old self.new }
        ensures calls { OnOk result (length self.new.frames + 1 ≡ length self.old.frames) }
        ensures drawn { self.new.tags ≡ self.old.tags }
    {
        let Ok(provs) = Vec::from_slice(self.alloc, self.memory.guarded()) else {
            return Err(Stop::Memory);
        };
        match self.release_all(&provs, steps) {
            Ok(()) => {
                self.memory.finish_call();
                Ok(())
            }
            Err(stop) => Err(stop),
        }
    }

    /// The releases of guarded tags, one after another.
    fn release_all<L: Ledger>(&mut self, provs: &[Prov], steps: &mut Steps<L>) -> Result<(), Stop>
        requires { AllByRecursion (λ (prov : Prov). knows self.old prov ≡ true) provs.now }
        ensures answer { Answers (release_all self.old provs.now) result self.new }
        ensures keeps { Keeps self.old self.new }
        ensures calls { length self.new.frames ≡ length self.old.frames }
        ensures drawn { self.new.tags ≡ self.old.tags }
    {
        for prov in provs {
            match self.release_one(*prov, steps) {
                Ok(()) => {}
                Err(stop) => return Err(stop),
            }
        }
        Ok(())
    }

    /// The release of a guarded tag, unless its allocation is dead.
    fn release_one<L: Ledger>(&mut self, prov: Prov, steps: &mut Steps<L>) -> Result<(), Stop>
        requires { knows self.old prov ≡ true }
        ensures answer { Answers (release_one self.old prov) result self.new }
        ensures keeps { Keeps self.old self.new }
        ensures calls { length self.new.frames ≡ length self.old.frames }
        ensures drawn { self.new.tags ≡ self.old.tags }
    {
        if self.memory.table().live_of(Some(prov)).is_none() {
            return Ok(());
        }
        self.release_live(prov, steps)
    }

    /// The release of a guarded tag of a live allocation.
    fn release_live<L: Ledger>(&mut self, prov: Prov, steps: &mut Steps<L>) -> Result<(), Stop>
        requires { reaches self.old prov ≡ true }
        ensures answer { Answers (tag_released self.old prov) result self.new }
        ensures keeps { Keeps self.old self.new }
        ensures calls { length self.new.frames ≡ length self.old.frames }
        ensures drawn { self.new.tags ≡ self.old.tags }
    {
        let done = self.memory.release(prov, steps);
        done_or_stop(prov.alloc, done)
    }
}
