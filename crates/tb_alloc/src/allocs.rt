ghost use Rattle.std.specs.Prelude.{◌≡◌, ◌≢◌, ◌↔◌, ◌+◌, ◌%◌, ◌<◌, ◌≤◌, ◌^◌, ℕ, [], ◌∷◌, ◌++◌, Some, None, IfOk, IfSome, IfNone, OnOk, OnErr, IsErrOf, length, map};
ghost use Rattle.std.specs.List.{All, AllPairs};
ghost use Rattle.std.specs.Int.{next_multiple_of};
ghost use Rattle.std.specs.Option.{option_copied, option_map};
ghost use Rattle.tb_alloc.specs.declared.allocation.Allocation.{Allocation};
ghost use Rattle.tb_alloc.specs.Allocations.{end_of, allocation_at, live_bytes_of, live_limit, new_allocation, dead, killed, least_live_heap};
ghost use Rattle.tb_perm.specs.declared.tag.AllocId.{AllocId};
ghost use Rattle.tb_alloc.specs.Allocations.{live_numbers};
ghost use Rattle.tb_alloc.specs.Check.{live_of, check_of, IsAccess};
ghost use Rattle.tb_alloc.specs.Offset.{offset_of};
ghost use Rattle.tb_alloc.specs.Free.{free_of};

use crate::allocation::{AllocKind, Allocation};
use crate::entries::{
    at, base_from, bury, candidate_past, check_free_in, check_in, live_in, offset_in_table,
};
use crate::faults::{AccessFault, AllocError, FreeFault, OffsetFault};
use crate::live::{enter, first_heap, strike};
use crate::ptr::Ptr;
use std::alloc::Global;
use std::marker::Model;
use tb_perm::{AllocId, Prov, Span};

/// How many bytes may be live at once.
const LIVE_LIMIT: u64 = 16_777_216;

/// From where the first base is looked for.
const FIRST: u64 = 65_536;

/// The table of all allocations of a run, live and dead. Contracts see it as their list, in the order
/// of their making; numbers count from 1.
#[derive(Drop)]
pub struct Allocs {
    entries: Vec<Allocation>,
    // from where the next base is looked for
    candidate: u64,
    // the bytes of the live allocations
    live: u64,
    // the numbers of the live allocations, in order
    ids: Vec<AllocId>,
}

impl Model for Allocs {
    ghost use Rattle.std.specs.Prelude.{List};
    ghost use Rattle.tb_alloc.specs.declared.allocation.Allocation.{Allocation};
    ghost use Rattle.tb_alloc.specs.Kept.{IsTable};

    ghost Value = { List Allocation };

    ghost view = { λ s. s.entries.items };

    ghost invariant = { λ s. IsTable s.entries.items s.candidate s.live s.ids.items };
}

impl Allocs {
    /// The table without allocations.
    pub fn new(alloc: Global) -> Allocs
        ensures { result ≡ [] }
    {
        Allocs {
            entries: Vec::new(alloc),
            candidate: FIRST,
            live: 0,
            ids: Vec::new(alloc),
        }
    }

    /// Makes an allocation, live, at the next address that its alignment allows, and answers its number.
    /// The alignment is at least 1; it need be no power of two. After either error the table is unchanged.
    /// Want of memory is answered also where no address below 2^64 is left.
    pub fn allocate(
        &mut self,
        size: u32,
        align: u32,
        kind: AllocKind,
        made: Span,
    ) -> Result<AllocId, AllocError>
        requires { 0 < align }
        ensures number { IfOk result (λ id. id.0 ≡ length self.old + 1) }
        ensures ok { OnOk result (self.new ≡ self.old ++ new_allocation self.old size align kind made ∷ []) }
        ensures found { IfOk result (λ id. allocation_at self.new id.0 ≡ Some (new_allocation self.old size align kind made)) }
        ensures others { IfOk result (λ id. (number : ℕ) → number ≢ id.0 → allocation_at self.new number ≡ allocation_at self.old number) }
        ensures live { OnOk result (live_bytes_of self.new ≡ live_bytes_of self.old + size) }
        ensures limit { IsErrOf result AllocError.LiveLimit ↔ (live_limit < live_bytes_of self.old + size) }
        ensures err { OnErr result (self.new ≡ self.old) }
    {
        let live = self.live + size as u64;
        if live > LIVE_LIMIT {
            return Err(AllocError::LiveLimit);
        }
        let Some(base) = base_from(self.candidate, align) else {
            return Err(AllocError::Memory);
        };
        let Some(candidate) = candidate_past(base, size) else {
            return Err(AllocError::Memory);
        };
        let entry = Allocation {
            base,
            size,
            align,
            kind,
            made,
            live: true,
        };
        let id = AllocId(self.entries.len() as u64 + 1);
        enter(&mut self.entries, &mut self.ids, entry, id)?;
        self.candidate = candidate;
        self.live = live;
        Ok(id)
    }

    /// The allocation with a number, live or dead; none where that number was not given yet. It is found
    /// without a search.
    pub fn get(&self, id: AllocId) -> Option<&Allocation>
        ensures { option_copied result ≡ allocation_at self.now id.0 }
    {
        at(&self.entries, id)
    }

    /// The live allocation that a provenance names.
    pub fn live_of(&self, prov: Option<Prov>) -> Option<&Allocation>
        ensures { option_copied result ≡ live_of self.now prov }
    {
        live_in(&self.entries, prov)
    }

    /// How many allocations were made so far, so that this is the greatest number that was given.
    pub fn count(&self) -> u64
        ensures { result ≡ length self.now }
    {
        self.entries.len() as u64
    }

    /// Checks an access to `size` bytes at a pointer, and answers the place of the first byte in the
    /// pointer's allocation. The first of the three faults that applies is answered. For no bytes the
    /// alignment alone is checked, and the answer is 0. The alignment is at least 1.
    pub fn check(&self, ptr: Ptr, size: u128, align: u32) -> Result<u32, AccessFault>
        requires { 0 < align }
        ensures value { result ≡ check_of self.now ptr size align }
        ensures ok { IfOk result (λ offset. IsAccess self.now ptr size align offset) }
    {
        check_in(&self.entries, ptr, size, align)
    }

    /// Checks that a pointer may be moved by a distance in bytes, and gives it so moved. Any pointer may be
    /// moved by 0. Else it needs a live allocation, and then its address and the new one lie from the
    /// allocation's base to its end, the end included. Nothing wraps.
    pub fn offset(&self, ptr: Ptr, distance: i128) -> Result<Ptr, OffsetFault>
        ensures { result ≡ offset_of self.now ptr distance }
    {
        offset_in_table(&self.entries, ptr, distance)
    }

    /// Checks that the block of a pointer may be freed with a size and an alignment. The first of the two
    /// faults that applies is given.
    pub fn check_free(&self, ptr: Ptr, size: u64, align: u64) -> Result<(), FreeFault>
        ensures { result ≡ free_of self.now ptr size align }
    {
        check_free_in(&self.entries, ptr, size, align)
    }

    /// The numbers of the live allocations, in order. They are lent as they are kept, and no dead
    /// allocation is looked at.
    pub fn live_ids(&self) -> &[AllocId]
        ensures { map (λ (id : AllocId). id.0) result.now ≡ live_numbers self.now }
    {
        &self.ids
    }

    /// Makes an allocation dead. Where it is dead, or its number was not given yet, nothing changes.
    pub fn kill(&mut self, id: AllocId)
        ensures value { self.new ≡ killed self.old id.0 }
        ensures dead { allocation_at self.new id.0 ≡ option_map dead (allocation_at self.old id.0) }
        ensures others { (number : ℕ) → number ≢ id.0 → allocation_at self.new number ≡ allocation_at self.old number }
        ensures count { length self.new ≡ length self.old }
    {
        self.live -= bury(&mut self.entries, id);
        strike(&mut self.ids, id);
    }

    /// The bytes of all live allocations, at most 16,777,216.
    pub fn live_bytes(&self) -> u64
        ensures value { result ≡ live_bytes_of self.now }
        ensures limit { result ≤ live_limit }
    {
        self.live
    }

    /// Where the live heap allocation with the least number was made; none where no heap allocation is
    /// live. Only the live allocations are looked at.
    pub fn least_heap(&self) -> Option<Span>
        ensures { result ≡ least_live_heap self.now }
    {
        first_heap(&self.entries, &self.ids)
    }

    /// Where the allocations lie, live and dead: no two share an address, and at least 16 bytes stay free
    /// between them.
    pub fn law_places(&self)
        ensures aligned { All (λ (a : Allocation). a.base % a.align ≡ 0) self.now }
        ensures low { All (λ (a : Allocation). 65536 ≤ a.base) self.now }
        ensures high { All (λ (a : Allocation). end_of a < 2 ^ 64) self.now }
        ensures apart { AllPairs (λ (a b : Allocation). end_of a + 16 ≤ b.base) self.now }
    {
        let _candidate = self.candidate;
    }
}
