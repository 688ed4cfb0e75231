//! The entries of a table of allocations, the one with the number n at place n - 1.

ghost use Rattle.std.specs.Prelude.{◌≡◌, ◌+◌, ◌<◌, ◌^◌, SomeIff, IfOk};
ghost use Rattle.std.specs.List.{All};
ghost use Rattle.std.specs.Int.{next_multiple_of};
ghost use Rattle.tb_alloc.specs.declared.allocation.Allocation.{Allocation};
ghost use Rattle.std.specs.Option.{option_copied};
ghost use Rattle.tb_alloc.specs.Allocations.{end_of, allocation_at, live_bytes_of, killed};
ghost use Rattle.tb_alloc.specs.Check.{live_of, check_of, check_aligned, IsAccess};
ghost use Rattle.tb_alloc.specs.Offset.{offset_of};
ghost use Rattle.tb_alloc.specs.Free.{free_of};

use crate::allocation::Allocation;
use crate::faults::{AccessFault, FreeFault, OffsetFault};
use crate::ptr::Ptr;
use tb_perm::{AllocId, Prov};

/// How many bytes stay free at least between an allocation's end and the next base.
const GAP: u64 = 16;

/// The base of an allocation that is looked for from an address on; none from 2^64 on.
pub fn base_from(candidate: u64, align: u32) -> Option<u64>
    requires { 0 < align }
    ensures { SomeIff result (next_multiple_of candidate align < 2 ^ 64) (next_multiple_of candidate align) }
{
    candidate.checked_next_multiple_of(align as u64)
}

/// From where the base of the next allocation is looked for; none from 2^64 on.
pub fn candidate_past(base: u64, size: u32) -> Option<u64>
    ensures { SomeIff result (base + size + 16 < 2 ^ 64) (base + size + 16) }
{
    base.checked_add(size as u64 + GAP)
}

/// The entry of a number.
pub fn at(entries: &[Allocation], id: AllocId) -> Option<&Allocation>
    ensures { option_copied result ≡ allocation_at entries.now id.0 }
{
    if id.0 == 0 {
        return None;
    }
    entries.get((id.0 - 1) as usize)
}

/// The live entry that a provenance names.
pub fn live_in(entries: &[Allocation], prov: Option<Prov>) -> Option<&Allocation>
    ensures { option_copied result ≡ live_of entries.now prov }
{
    let Some(prov) = prov else {
        return None;
    };
    let Some(entry) = at(entries, prov.alloc) else {
        return None;
    };
    if entry.live { Some(entry) } else { None }
}

/// The offset, where the address is a multiple of the alignment.
pub fn aligned(addr: u64, align: u32, offset: u32) -> Result<u32, AccessFault>
    requires { 0 < align }
    ensures { result ≡ check_aligned addr align offset }
{
    if addr % align as u64 == 0 {
        Ok(offset)
    } else {
        Err(AccessFault::Misaligned)
    }
}

/// The offset of an access, or its first fault.
pub fn check_in(
    entries: &[Allocation],
    ptr: Ptr,
    size: u128,
    align: u32,
) -> Result<u32, AccessFault>
    requires { 0 < align }
    ensures value { result ≡ check_of entries.now ptr size align }
    ensures ok { IfOk result (λ offset. IsAccess entries.now ptr size align offset) }
{
    if size == 0 {
        return aligned(ptr.addr, align, 0);
    }
    let Some(entry) = live_in(entries, ptr.prov) else {
        return Err(AccessFault::Dangling);
    };
    let Some(offset) = entry.offset(ptr.addr, size) else {
        return Err(AccessFault::OutOfBounds);
    };
    aligned(ptr.addr, align, offset)
}

/// The pointer at a distance, or the first fault.
pub fn offset_in_table(entries: &[Allocation], ptr: Ptr, distance: i128) -> Result<Ptr, OffsetFault>
    requires { All (λ (a : Allocation). end_of a < 2 ^ 64) entries.now }
    ensures { result ≡ offset_of entries.now ptr distance }
{
    if distance == 0 {
        return Ok(ptr);
    }
    let Some(entry) = live_in(entries, ptr.prov) else {
        return Err(OffsetFault::Dangling);
    };
    match entry.moved(ptr.addr, distance) {
        Some(addr) => Ok(Ptr { addr, ..ptr }),
        None => Err(OffsetFault::OutOfBounds),
    }
}

/// Whether the block of a pointer may be freed, or the first fault.
pub fn check_free_in(
    entries: &[Allocation],
    ptr: Ptr,
    size: u64,
    align: u64,
) -> Result<(), FreeFault>
    ensures { result ≡ free_of entries.now ptr size align }
{
    let Some(entry) = live_in(entries, ptr.prov) else {
        return Err(FreeFault::Dangling);
    };
    if entry.is_block(ptr.addr, size, align) {
        Ok(())
    } else {
        Err(FreeFault::BadFree)
    }
}

/// Makes the entry of a number dead, and answers how many bytes it held while it was live.
pub fn bury(entries: &mut Vec<Allocation>, id: AllocId) -> u64
    ensures killed { entries.new.items ≡ killed entries.old.items id.0 }
    ensures freed { live_bytes_of entries.new.items + result ≡ live_bytes_of entries.old.items }
{
    if id.0 == 0 {
        return 0;
    }
    let place = (id.0 - 1) as usize;
    if place >= entries.len() {
        return 0;
    }
    let freed = entries[place].live_size();
    entries[place].live = false;
    freed
}
