ghost use Rattle.std.specs.Prelude.{◌≡◌, ◌≤◌, ◌<◌, ◌+◌, ℕ, List, ◌↔◌, Some, length, map, replicate, IfOk, OnOk, slice_get, Contains, MatchOption};
ghost use Rattle.std.specs.List.{slice_range, splice};
ghost use Rattle.tb_perm.specs.declared.tag.Prov.{Prov};
ghost use Rattle.tb_bytes.specs.Bytes.{prov_of, OnlyChanges, HasNoProv, IsNextRun, AreNextRuns, AreRising};
ghost use Rattle.tb_bytes.specs.declared.byte_val.ByteVal.TheVariants.{Uninit};

use crate::byte_val::ByteVal;
use crate::marks::{mark, read_bytes, write_values};
use crate::origins::{list_provs, next_run};
use std::alloc::{AllocError, Global};
use std::marker::Model;
use tb_perm::Prov;
use tb_ranges::Runs;

/// The bytes of an allocation. Contracts see them as the list of the bytes.
#[derive(Drop)]
pub struct Bytes {
    values: Vec<u8>,
    init: Runs<bool>,
    provs: Runs<Option<Prov>>,
}

impl Model for Bytes {
    ghost use Rattle.std.specs.Prelude.{List, ◌≡◌, length};
    ghost use Rattle.tb_bytes.specs.declared.byte_val.ByteVal.{ByteVal};
    ghost use Rattle.tb_bytes.specs.Parts.{byte_list, AreParts};

    ghost Value = { List ByteVal };

    ghost view = { λ b. byte_list b.values.items b.init b.provs };

    ghost invariant = { λ b. AreParts b.values.items b.init b.provs };
}

impl Bytes {
    /// Uninitialised bytes, as many as `size` says.
    pub fn new(alloc: Global, size: u32) -> Result<Bytes, AllocError>
        ensures { IfOk result (λ bytes. bytes ≡ replicate size ByteVal.Uninit) }
    {
        let Ok(values) = Vec::from_elem(alloc, 0u8, size as usize) else {
            return Err(AllocError);
        };
        let Ok(init) = Runs::new(alloc, size, false) else {
            return Err(AllocError);
        };
        let Ok(provs) = Runs::new(alloc, size, None) else {
            return Err(AllocError);
        };
        Ok(Bytes {
            values,
            init,
            provs,
        })
    }

    /// The bytes from `lo` to before `hi`.
    pub fn read(&self, lo: u32, hi: u32) -> Result<Vec<ByteVal>, AllocError>
        requires order { lo ≤ hi }
        requires within { hi ≤ length self.now }
        ensures { IfOk result (λ bytes. bytes.items ≡ slice_range self.now lo hi) }
    {
        let init = self.init.read_from(lo);
        let provs = self.provs.read_from(lo);
        read_bytes(*self.values.allocator(), &self.values, lo, hi, init, provs)
    }

    /// Writes bytes from `lo` on. After want of memory the bytes written over are not known; there are
    /// as many as before, and the others are unchanged.
    pub fn write(&mut self, lo: u32, bytes: &[ByteVal]) -> Result<(), AllocError>
        requires { lo + length bytes.now ≤ length self.old }
        ensures value { OnOk result (self.new ≡ splice self.old lo (lo + length bytes.now) bytes.now) }
        ensures others { OnlyChanges lo (lo + length bytes.now) self.old self.new }
    {
        let alloc = *self.values.allocator();
        mark(alloc, &mut self.init, &mut self.provs, lo, bytes)?;
        write_values(&mut self.values, lo as usize, bytes);
        Ok(())
    }

    /// Each provenance that some byte has, once, in the order of allocations and then of tags.
    pub fn provenances(&self) -> Result<Vec<Prov>, AllocError>
        ensures members { IfOk result (λ provs. (prov : Prov) → Contains provs.items prov ↔ Contains (map prov_of self.now) (Some prov)) }
        ensures rising { IfOk result (λ provs. AreRising provs.items) }
    {
        list_provs(*self.values.allocator(), &self.provs)
    }

    /// The first run of bytes of one provenance that has a place at or after `at`, by where it ends
    /// and its provenance; none where no byte from `at` on has one.
    pub fn next_prov(&self, at: u32) -> Option<(u32, Prov)>
        ensures { MatchOption result (HasNoProv at self.now) (λ run. IsNextRun at (map prov_of self.now) run.0 run.1) }
    {
        next_run(self.provs.runs(), at)
    }

    /// The runs that `next_prov` finds one after another, each from the end of the one before it on, have
    /// all provenances.
    pub fn law_next_provs(&self)
        ensures { (runs : List (ℕ × Prov)) → AreNextRuns 0 (map prov_of self.now) runs → (prov : Prov) → Contains (map prov_of self.now) (Some prov) ↔ Contains (map (λ run. run.1) runs) prov }
    {}
}
