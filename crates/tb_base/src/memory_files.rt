ghost use Rattle.std.specs.Prelude.{◌≡◌, ◌≢◌, ◌≤◌, ◌<◌, ◌↔◌, ◌⊎◌, ℕ, [], min, length, None, Some, IfOk, IsErr, IsErrOf, IfErr, OnOk, OnErr, Contains, ◌∷◌, ◌++◌, map, Err, string_bytes, option_map};
ghost use Rattle.tb_base.specs.Outside.{bytes_under};
ghost use Rattle.tb_base.specs.Memory.{named};

use crate::calls::Calls;
use crate::fault::{Fault, FileError};
use crate::files::Files;
use crate::memory_source::give;
use std::alloc::{AllocError, Global};
use std::marker::Model;

/// Named files in memory. Chosen calls fail. Of files with one name the first is read.
#[derive(Debug, Drop)]
pub struct MemFiles {
    alloc: Global,
    files: Vec<(String, Vec<u8>)>,
    opened: Vec<u8>,
    at: usize,
    asked: Vec<String>,
    calls: Calls,
}

impl Model for MemFiles {
    ghost use Rattle.std.specs.Prelude.{◌≤◌, drop, map, vec_len, string_bytes};
    ghost use Rattle.tb_base.specs.Memory.{FilesHeld, named};

    ghost Value = { FilesHeld };

    ghost view = { λ s. record { files = named s.files.items; left = drop s.at s.opened.items; asked = map string_bytes s.asked.items; fail = s.calls.fail.items; calls = s.calls.made; faults = s.calls.faults } };

    ghost invariant = { λ s. s.at ≤ vec_len s.opened };
}

impl MemFiles {
    /// These files, of which none is open. Calls with the numbers in `fail` fail; calls of `open`
    /// and of `take` are counted together, from 1.
    pub fn new(alloc: Global, files: Vec<(String, Vec<u8>)>, fail: Vec<u64>) -> MemFiles
        ensures { result ≡ record { files = named files.items; left = []; asked = []; fail = fail.items; calls = 0; faults = 0 } }
    {
        MemFiles {
            alloc,
            files,
            opened: Vec::new(alloc),
            at: 0,
            asked: Vec::new(alloc),
            calls: Calls::new(fail),
        }
    }

    /// The names that `open` was asked for, in order.
    pub fn asked(&self) -> &[String]
        ensures { map string_bytes result.now ≡ self.now.asked }
    {
        &self.asked
    }
}

/// A copy of the bytes of the first file of this name.
fn copy_under(
    alloc: Global,
    files: &[(String, Vec<u8>)],
    name: &str,
) -> Result<Option<Vec<u8>>, AllocError>
    ensures { IfOk result (λ found. option_map (λ bytes. bytes.items) found ≡ bytes_under (named files.now) name.now) }
{
    for (file, bytes) in files {
        if file.as_str() == name {
            return Ok(Some(bytes.to_vec(alloc)?));
        }
    }
    Ok(None)
}

/// Adds a name to those asked for.
fn push_name(alloc: Global, asked: &mut Vec<String>, name: &str) -> Result<(), AllocError>
    ensures ok { OnOk result (map string_bytes asked.new.items ≡ map string_bytes asked.old.items ++ name.now ∷ []) }
    ensures err { OnErr result (asked.new.items ≡ asked.old.items) }
{
    asked.push(String::from_str(alloc, name)?)?;
    Ok(())
}

impl Files for MemFiles {
    ghost use Rattle.tb_base.specs.Outside.{FilesTold, Opens, TakesOfFile, Counts, CountsOpening};
    ghost use Rattle.tb_base.specs.Memory.{counted};
    ghost use Rattle.tb_base.specs.MemoryTold.{files_told};

    ghost told = { λ s. Some (files_told s) };

    ghost faults = { λ s. s.faults };

    fn open(&mut self, name: &str) -> Result<(), FileError>
        ensures told { Opens (Some (files_told self.old)) (Some (files_told self.new)) name.now result }
        ensures count { CountsOpening self.old.faults self.new.faults result }
        ensures fails { result ≢ Err FileError.Memory → (IsErr result ↔ (Contains self.old.fail (counted self.old.calls) ⊎ (bytes_under self.old.files name.now ≡ None))) }
        ensures failed { IsErrOf result FileError.Fault → (self.new.faults ≡ counted self.old.faults) × (self.new.left ≡ self.old.left) }
        ensures memory { IsErrOf result FileError.Memory → self.new ≡ self.old }
        ensures calls { result ≢ Err FileError.Memory → self.new.calls ≡ counted self.old.calls }
        ensures fail { self.new.fail ≡ self.old.fail }
    {
        let found = copy_under(self.alloc, &self.files, name)?;
        push_name(self.alloc, &mut self.asked, name)?;
        if self.calls.begin() {
            self.calls.fault();
            return Err(FileError::Fault);
        }
        let Some(bytes) = found else {
            self.calls.fault();
            return Err(FileError::Fault);
        };
        self.opened = bytes;
        self.at = 0;
        Ok(())
    }

    fn take(&mut self, buffer: &mut [u8]) -> Result<usize, Fault>
        requires { 0 < length buffer.old }
        ensures bound { IfOk result (λ count. count ≤ length buffer.new) }
        ensures told { TakesOfFile (Some (files_told self.old)) (Some (files_told self.new)) buffer.new result }
        ensures count { Counts self.old.faults self.new.faults result }
        ensures fails { IsErr result ↔ Contains self.old.fail (counted self.old.calls) }
        ensures most { IfOk result (λ count. count ≡ min (length buffer.old) (length self.old.left)) }
        ensures failed { OnErr result (self.new.faults ≡ counted self.old.faults) }
        ensures calls { self.new.calls ≡ counted self.old.calls }
        ensures fail { self.new.fail ≡ self.old.fail }
    {
        if self.calls.begin() {
            return Err(self.calls.fault());
        }
        let count = give(&self.opened, self.at, buffer);
        self.at += count;
        Ok(count)
    }
}
