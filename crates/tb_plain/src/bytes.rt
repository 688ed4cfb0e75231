//! What an event does at each byte, and the states of new rows.

ghost use Rattle.std.specs.Prelude.{◌≡◌, ℕ, map, replicate, true, IfOk, OnOk, not, ◌&&◌, [], ◌∷◌, ◌++◌};
ghost use Rattle.std.specs.List.{range_with_len};
ghost use Rattle.tb_perm.specs.Event.{is_within};
ghost use Rattle.tb_perm.specs.Reborrow.{is_in_cells, new_perm, new_state, is_cell};
ghost use Rattle.tb_perm.specs.Release.{released_kind};
ghost use Rattle.tb_plain.specs.Bytes.{access_at, reborrow_at};
ghost use Rattle.tb_perm.specs.declared.perm.State.{State};

use sqlite_items::Items;
use std::alloc::{AllocError, Global};
use tb_perm::{CellRange, Kind, NewTag, Perm, State};

/// An access to the bytes of a range.
pub fn access_kinds(
    alloc: Global,
    size: u32,
    lo: u32,
    hi: u32,
    kind: Kind,
) -> Result<Items<Option<Kind>>, AllocError>
    ensures { IfOk result (λ kinds. kinds ≡ map (access_at lo hi kind) (range_with_len 0 size)) }
{
    let mut kinds = Items::new(alloc);
    for byte in 0..size {
        put(&mut kinds, access_in(lo, hi, kind, byte))?;
    }
    Ok(kinds)
}

fn access_in(lo: u32, hi: u32, kind: Kind, byte: u32) -> Option<Kind>
    ensures { result ≡ access_at lo hi kind byte }
{
    if lies_in(lo, hi, byte) {
        return Some(kind);
    }
    None
}

fn lies_in(lo: u32, hi: u32, byte: u32) -> bool
    ensures { result ≡ is_within lo hi byte }
{
    lo <= byte && byte < hi
}

/// The read of a reborrow.
pub fn reborrow_kinds(
    alloc: Global,
    size: u32,
    new: &NewTag,
) -> Result<Items<Option<Kind>>, AllocError>
    ensures { IfOk result (λ kinds. kinds ≡ map (reborrow_at new.now) (range_with_len 0 size)) }
{
    let mut kinds = Items::new(alloc);
    for byte in 0..size {
        put(&mut kinds, reborrow_in(new, byte))?;
    }
    Ok(kinds)
}

fn reborrow_in(new: &NewTag, byte: u32) -> Option<Kind>
    ensures { result ≡ reborrow_at new.now byte }
{
    if state_of(new, byte).accessed {
        return Some(Kind::Read);
    }
    None
}

/// The states of a new tag.
pub fn new_states(alloc: Global, size: u32, new: &NewTag) -> Result<Items<State>, AllocError>
    ensures { IfOk result (λ states. states ≡ map (new_state new.now) (range_with_len 0 size)) }
{
    let mut states = Items::new(alloc);
    for byte in 0..size {
        put(&mut states, state_of(new, byte))?;
    }
    Ok(states)
}

fn state_of(new: &NewTag, byte: u32) -> State
    ensures { result ≡ new_state new.now byte }
{
    let perm = perm_of(new, byte);
    let within = lies_in(new.lo, new.hi, byte);
    State {
        perm,
        accessed: is_accessed(within, perm),
    }
}

fn is_accessed(within: bool, perm: Perm) -> bool
    ensures { result ≡ (within && not (is_cell perm)) }
{
    match perm {
        Perm::Cell => false,
        _ => within,
    }
}

fn perm_of(new: &NewTag, byte: u32) -> Perm
    ensures { result ≡ new_perm new.now byte }
{
    if !lies_in(new.lo, new.hi, byte) {
        return new.outside;
    }
    if is_cell_byte(new.cells.as_slice(), byte) {
        return Perm::Cell;
    }
    new.perm
}

fn is_cell_byte(cells: &[CellRange], byte: u32) -> bool
    ensures { result ≡ is_in_cells cells.now byte }
{
    for cell in cells.iter() {
        if lies_in(cell.lo, cell.hi, byte) {
            return true;
        }
    }
    false
}

/// The accesses at the end of a call, of a tag with these states.
pub fn release_kinds(alloc: Global, states: &[State]) -> Result<Items<Option<Kind>>, AllocError>
    ensures { IfOk result (λ kinds. kinds ≡ map released_kind states.now) }
{
    let mut kinds = Items::new(alloc);
    for state in states.iter() {
        put(&mut kinds, release_of(*state))?;
    }
    Ok(kinds)
}

fn release_of(state: State) -> Option<Kind>
    ensures { result ≡ released_kind state }
{
    if !state.accessed {
        return None;
    }
    match state.perm {
        Perm::Cell => None,
        Perm::Active => Some(Kind::Write),
        _ => Some(Kind::Read),
    }
}

/// The states of a root.
pub fn root_states(alloc: Global, size: u32) -> Result<Items<State>, AllocError>
    ensures { IfOk result (λ states. states ≡ replicate size (record { perm = Perm.Active; accessed = true })) }
{
    let mut states = Items::new(alloc);
    for _ in 0..size {
        put(
            &mut states,
            State {
                perm: Perm::Active,
                accessed: true,
            },
        )?;
    }
    Ok(states)
}

/// Adds an item at the end.
pub fn put<T: Drop>(items: &mut Items<T>, item: T) -> Result<(), AllocError>
    ensures { OnOk result (items.new ≡ items.old ++ item ∷ []) }
{
    match items.push(item) {
        Ok(()) => Ok(()),
        Err(_) => Err(AllocError),
    }
}
