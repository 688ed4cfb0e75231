//! The numbers of the live allocations of a table.

ghost use Rattle.std.specs.Prelude.{◌≡◌, ◌+◌, ◌<◌, [], ◌∷◌, ◌++◌, length, filter, not, ◌==◌, OnOk, OnErr, IsErrOf};
ghost use Rattle.tb_perm.specs.declared.tag.AllocId.{AllocId};
ghost use Rattle.tb_alloc.specs.declared.faults.AllocError.{AllocError};
ghost use Rattle.tb_alloc.specs.Allocations.{allocation_at};
ghost use Rattle.tb_alloc.specs.Kept.{number_of, AreRisingFrom, heap_made, first_made};

use crate::allocation::Allocation;
use crate::entries::at;
use crate::faults::AllocError;
use tb_perm::{AllocId, Span};

/// Puts an entry into a table, and its number behind those of the live ones. After running out of memory
/// nothing has changed.
pub fn enter(
    entries: &mut Vec<Allocation>,
    ids: &mut Vec<AllocId>,
    entry: Allocation,
    id: AllocId,
) -> Result<(), AllocError>
    ensures entries { OnOk result (entries.new.items ≡ entries.old.items ++ entry ∷ []) }
    ensures ids { OnOk result (ids.new.items ≡ ids.old.items ++ id ∷ []) }
    ensures kept { OnErr result (entries.new.items ≡ entries.old.items) }
    ensures kept_ids { OnErr result (ids.new.items ≡ ids.old.items) }
    ensures memory { IsErrOf result AllocError.LiveLimit → ⊥ }
{
    match ids.push(id) {
        Ok(()) => {}
        Err(_) => return Err(AllocError::Memory),
    }
    match entries.push(entry) {
        Ok(()) => Ok(()),
        Err(_) => {
            ids.pop();
            Err(AllocError::Memory)
        }
    }
}

/// Takes a number out of rising ones, if it is among them.
pub fn strike(ids: &mut Vec<AllocId>, id: AllocId)
    requires { AreRisingFrom 0 ids.old.items }
    ensures { ids.new.items ≡ filter (λ (other : AllocId). not (number_of other == id.0)) ids.old.items }
{
    let place = ids.partition_point(|other| other.0 < id.0);
    if place >= ids.len() {
        return;
    }
    if ids[place].0 != id.0 {
        return;
    }
    ids.remove(place);
}

/// Where the first live heap allocation of those with the numbers was made.
pub fn first_heap(entries: &[Allocation], ids: &[AllocId]) -> Option<Span>
    ensures { result ≡ first_made entries.now ids.now }
{
    for id in ids {
        if let Some(made) = heap_at(entries, *id) {
            return Some(made);
        }
    }
    None
}

/// Where the allocation with a number was made, if it is a live one of the heap.
fn heap_at(entries: &[Allocation], id: AllocId) -> Option<Span>
    ensures { result ≡ heap_made (allocation_at entries.now id.0) }
{
    let Some(entry) = at(entries, id) else {
        return None;
    };
    if entry.is_live_heap() {
        Some(entry.made)
    } else {
        None
    }
}
