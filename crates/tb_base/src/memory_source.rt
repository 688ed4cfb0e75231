ghost use Rattle.std.specs.Prelude.{◌≡◌, ◌≤◌, ◌<◌, ◌+◌, ◌↔◌, [], ◌++◌, min, length, take, drop, Some, IfOk, IsErr, OnErr, Contains};

use crate::calls::Calls;
use crate::fault::Fault;
use crate::source::Source;
use std::marker::Model;

/// A source over bytes in memory. Chosen calls of it fail.
#[derive(Debug, Drop)]
pub struct MemSource {
    bytes: Vec<u8>,
    at: usize,
    calls: Calls,
}

impl Model for MemSource {
    ghost use Rattle.std.specs.Prelude.{◌≤◌, drop, vec_len};
    ghost use Rattle.tb_base.specs.Memory.{SourceHeld};

    ghost Value = { SourceHeld };

    ghost view = { λ s. record { left = drop s.at s.bytes.items; fail = s.calls.fail.items; calls = s.calls.made; faults = s.calls.faults } };

    ghost invariant = { λ s. s.at ≤ vec_len s.bytes };
}

impl MemSource {
    /// A source that gives these bytes, and whose calls with the numbers in `fail` fail. Calls are
    /// counted from 1.
    pub fn new(bytes: Vec<u8>, fail: Vec<u64>) -> MemSource
        ensures { result ≡ record { left = bytes.items; fail = fail.items; calls = 0; faults = 0 } }
    {
        MemSource {
            bytes,
            at: 0,
            calls: Calls::new(fail),
        }
    }

    /// The bytes that are left.
    pub fn rest(&self) -> &[u8]
        ensures { result.now ≡ self.now.left }
    {
        &self.bytes[self.at..]
    }
}

/// Copies the bytes from `at` on into the front of the buffer, as many as fit, and returns how many.
pub fn give(bytes: &[u8], at: usize, buffer: &mut [u8]) -> usize
    requires { at ≤ length bytes.now }
    ensures count { result ≡ min (length buffer.old) (length (drop at bytes.now)) }
    ensures given { drop at bytes.now ≡ take result buffer.new ++ drop (at + result) bytes.now }
    ensures within { at + result ≤ length bytes.now }
    ensures end { 0 < length buffer.old → result ≡ 0 → drop at bytes.now ≡ [] }
{
    let rest = &bytes[at..];
    let count = buffer.len().min(rest.len());
    buffer[..count].copy_from_slice(&rest[..count]);
    count
}

impl Source for MemSource {
    ghost use Rattle.tb_base.specs.Outside.{Takes, Counts};
    ghost use Rattle.tb_base.specs.Memory.{counted};

    ghost left = { λ s. Some s.left };

    ghost faults = { λ s. s.faults };

    fn take(&mut self, buffer: &mut [u8]) -> Result<usize, Fault>
        requires { 0 < length buffer.old }
        ensures bound { IfOk result (λ count. count ≤ length buffer.new) }
        ensures told { Takes (Some self.old.left) (Some self.new.left) buffer.new result }
        ensures count { Counts self.old.faults self.new.faults result }
        ensures fails { IsErr result ↔ Contains self.old.fail (counted self.old.calls) }
        ensures most { IfOk result (λ count. count ≡ min (length buffer.old) (length self.old.left)) }
        ensures failed { OnErr result (self.new.faults ≡ counted self.old.faults) }
        ensures calls { self.new.calls ≡ counted self.old.calls }
        ensures fail { self.new.fail ≡ self.old.fail }
    {
        if self.calls.begin() {
            return Err(self.calls.fault());
        }
        let count = give(&self.bytes, self.at, buffer);
        self.at += count;
        Ok(count)
    }
}
