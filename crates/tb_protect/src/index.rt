//! The guards by provenance, over all frames.

ghost use Rattle.std.specs.Prelude.{◌≡◌, ◌≤◌, ℕ, None, Some, cond, OnOk, OnErr, drop, length};
ghost use Rattle.std.specs.List.{list_any};
ghost use Rattle.std.specs.HashMap.{get, IsUnchanged};
ghost use Rattle.tb_perm.specs.declared.tag.Prov.{Prov};
ghost use Rattle.tb_protect.specs.Kept.{key_of, same_key, guard_by};

use std::alloc::AllocError;
use std::collections::HashMap;
use tb_perm::{Guard, Prov};

/// A provenance as the numbers of its allocation and its tag.
pub type Key = (u64, u64);

/// The key of a provenance.
pub fn key_of(prov: Prov) -> Key
    ensures { result ≡ key_of prov }
{
    (prov.alloc.0, prov.tag.0)
}

/// How a provenance is guarded; it is free where it has no entry.
pub fn guard_of(index: &HashMap<Key, Guard>, prov: Prov) -> Guard
    ensures { result ≡ guard_by (get same_key index.now) prov }
{
    match index.get(&key_of(prov)) {
        Some(guard) => *guard,
        None => Guard::Free,
    }
}

/// Enters a provenance. After want of memory the index is as it was.
pub fn enter(index: &mut HashMap<Key, Guard>, prov: Prov, guard: Guard) -> Result<(), AllocError>
    ensures ok { OnOk result ((key : ℕ × ℕ) → get same_key index.new key ≡ cond (same_key (key_of prov) key) (Some guard) (get same_key index.old key)) }
    ensures err { OnErr result (IsUnchanged index.old index.new) }
{
    match index.insert(key_of(prov), guard) {
        Ok(_) => Ok(()),
        Err(_) => Err(AllocError),
    }
}

/// Takes out the provenances from a place on.
pub fn forget(index: &mut HashMap<Key, Guard>, provs: &[Prov], start: usize)
    requires { start ≤ length provs.now }
    ensures { (key : ℕ × ℕ) → get same_key index.new key ≡ cond (list_any (λ (p : Prov). same_key (key_of p) key) (drop start provs.now)) None (get same_key index.old key) }
{
    for prov in provs[start..].iter() {
        let _ = index.remove(&key_of(*prov));
    }
}
