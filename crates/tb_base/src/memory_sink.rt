ghost use Rattle.std.specs.Prelude.{◌≡◌, ◌≤◌, ◌<◌, ◌+◌, ◌↔◌, ◌⊎◌, ℕ, [], min, length, Some, IfOk, IsErr, OnErr, Contains};

use crate::calls::Calls;
use crate::fault::Fault;
use crate::sink::Sink;
use std::alloc::{AllocError, Global};
use std::marker::Model;

/// A sink that keeps its bytes in memory. Chosen calls of it fail, and so does one for whose bytes
/// there is no room.
#[derive(Debug, Drop)]
pub struct MemSink {
    bytes: Vec<u8>,
    room: usize,
    most: usize,
    calls: Calls,
}

impl Model for MemSink {
    ghost use Rattle.std.specs.Prelude.{◌≤◌, ◌<◌, vec_len, vec_capacity};
    ghost use Rattle.tb_base.specs.Memory.{SinkHeld, HasRoom};

    ghost Value = { SinkHeld };

    ghost view = { λ s. record { bytes = s.bytes.items; room = s.room; most = s.most; fail = s.calls.fail.items; calls = s.calls.made; faults = s.calls.faults } };

    ghost invariant = { λ s. HasRoom s.most s.room (vec_len s.bytes) (vec_capacity s.bytes) };
}

impl MemSink {
    /// An empty sink with room for `room` bytes, which takes at most `most` bytes in one call, and
    /// whose calls with the numbers in `fail` fail. Calls are counted from 1.
    pub fn new(
        alloc: Global,
        room: usize,
        most: usize,
        fail: Vec<u64>,
    ) -> Result<MemSink, AllocError>
        requires { 0 < most }
        ensures { IfOk result (λ sink. sink ≡ record { bytes = []; room = room; most = most; fail = fail.items; calls = 0; faults = 0 }) }
    {
        Ok(MemSink {
            bytes: Vec::with_capacity(alloc, room)?,
            room,
            most,
            calls: Calls::new(fail),
        })
    }

    /// The bytes that were put.
    pub fn bytes(&self) -> &[u8]
        ensures { result.now ≡ self.now.bytes }
    {
        &self.bytes
    }
}

impl Sink for MemSink {
    ghost use Rattle.tb_base.specs.Outside.{Puts, Counts};
    ghost use Rattle.tb_base.specs.Memory.{counted};

    ghost bytes = { λ s. Some s.bytes };

    ghost faults = { λ s. s.faults };

    fn put(&mut self, piece: &[u8]) -> Result<usize, Fault>
        requires { 0 < length piece.now }
        ensures some { IfOk result (λ count. 0 < count) }
        ensures bound { IfOk result (λ count. count ≤ length piece.now) }
        ensures told { Puts (Some self.old.bytes) (Some self.new.bytes) piece.now result }
        ensures count { Counts self.old.faults self.new.faults result }
        ensures fails { IsErr result ↔ (Contains self.old.fail (counted self.old.calls) ⊎ (self.old.room < length self.old.bytes + min self.old.most (length piece.now))) }
        ensures most { IfOk result (λ count. count ≡ min self.old.most (length piece.now)) }
        ensures failed { OnErr result (self.new.faults ≡ counted self.old.faults) }
        ensures calls { self.new.calls ≡ counted self.old.calls }
        ensures fail { self.new.fail ≡ self.old.fail }
        ensures room { self.new.room ≡ self.old.room }
        ensures width { self.new.most ≡ self.old.most }
    {
        if self.calls.begin() {
            return Err(self.calls.fault());
        }
        let count = piece.len().min(self.most);
        if self.room - self.bytes.len() < count {
            return Err(self.calls.fault());
        }
        match self.bytes.extend_from_slice(&piece[..count]) {
            Ok(()) => Ok(count),
            Err(_) => unreachable!(),
        }
    }
}
