//! The bytes of allocations, those of the one with the number n at place n - 1.
ghost use Rattle.std.specs.Prelude.{◌≡◌, ◌<◌, ◌≤◌, ◌+◌, ◌++◌, ◌∷◌, [], length, map, Some, None, OnOk, OnErr};
ghost use Rattle.std.specs.List.{splice};
ghost use Rattle.std.specs.Option.{option_copied};
ghost use Rattle.tb_store.specs.Store.{nth, with_nth, kept_bytes};

use std::alloc::AllocError;
use tb_bytes::{ByteVal, Bytes};
use tb_perm::AllocId;

/// The bytes of the allocation with a number; none where it is dead, and where the number was not given yet.
pub fn at(entries: &[Option<Bytes>], id: AllocId) -> Option<&Bytes>
    ensures { option_copied result ≡ nth entries.now id.0 None }
{
    if id.0 == 0 {
        return None;
    }
    match entries.get((id.0 - 1) as usize) {
        Some(entry) => entry.as_ref(),
        None => None,
    }
}

/// Puts the bytes of one more allocation. After want of memory nothing has changed.
pub fn put(entries: &mut Vec<Option<Bytes>>, bytes: Bytes) -> Result<(), AllocError>
    ensures ok { OnOk result (entries.new.items ≡ entries.old.items ++ Some bytes ∷ []) }
    ensures err { OnErr result (entries.new.items ≡ entries.old.items) }
{
    match entries.push(Some(bytes)) {
        Ok(()) => Ok(()),
        Err(_) => Err(AllocError),
    }
}

/// Lets go of the bytes of the allocation with a number.
pub fn empty(entries: &mut Vec<Option<Bytes>>, id: AllocId)
    ensures { entries.new.items ≡ with_nth entries.old.items id.0 None }
{
    if id.0 == 0 {
        return;
    }
    let place = (id.0 - 1) as usize;
    if place < entries.len() {
        entries[place] = None;
    }
}

/// Writes bytes where some are kept.
fn write_entry(entry: &mut Option<Bytes>, lo: u32, bytes: &[ByteVal]) -> Result<(), AllocError>
    requires { lo + length bytes.now ≤ length (kept_bytes entry.old) }
    ensures { OnOk result (kept_bytes entry.new ≡ splice (kept_bytes entry.old) lo (lo + length bytes.now) bytes.now) }
{
    match entry {
        Some(kept) => kept.write(lo, bytes),
        None => Ok(()),
    }
}

/// Writes bytes of the allocation with a number. After want of memory they are not known.
pub fn write(
    entries: &mut Vec<Option<Bytes>>,
    id: AllocId,
    lo: u32,
    bytes: &[ByteVal],
) -> Result<(), AllocError>
    requires number { 0 < id.0 }
    requires given { id.0 ≤ length entries.old.items }
    requires within { lo + length bytes.now ≤ length (kept_bytes (nth entries.old.items id.0 None)) }
    ensures ok { OnOk result (map kept_bytes entries.new.items ≡ with_nth (map kept_bytes entries.old.items) id.0 (splice (kept_bytes (nth entries.old.items id.0 None)) lo (lo + length bytes.now) bytes.now)) }
    ensures err { OnErr result (with_nth entries.new.items id.0 None ≡ with_nth entries.old.items id.0 None) }
{
    write_entry(&mut entries[(id.0 - 1) as usize], lo, bytes)
}
