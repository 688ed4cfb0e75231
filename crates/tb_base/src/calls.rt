ghost use Rattle.std.specs.Prelude.{◌≡◌, ◌↔◌, IsTrue, Contains};
ghost use Rattle.tb_base.specs.Memory.{counted};

use crate::fault::Fault;

/// The calls of an object in memory: the numbers of those that are to fail, counted from 1, how
/// many there were, and how many of them failed. Both counts stop at 2^64 - 1.
#[derive(Debug, Drop)]
pub struct Calls {
    pub fail: Vec<u64>,
    pub made: u64,
    pub faults: u64,
}

impl Calls {
    pub fn new(fail: Vec<u64>) -> Calls
        ensures fail { result.fail ≡ fail }
        ensures made { result.made ≡ 0 }
        ensures faults { result.faults ≡ 0 }
    {
        Calls {
            fail,
            made: 0,
            faults: 0,
        }
    }

    /// Counts a call, and returns whether it is to fail.
    pub fn begin(&mut self) -> bool
        ensures fails { IsTrue result ↔ Contains self.old.fail.items (counted self.old.made) }
        ensures made { self.new.made ≡ counted self.old.made }
        ensures fail { self.new.fail ≡ self.old.fail }
        ensures faults { self.new.faults ≡ self.old.faults }
    {
        self.made = self.made.saturating_add(1);
        self.fail.contains(&self.made)
    }

    /// Counts a fault.
    pub fn fault(&mut self) -> Fault
        ensures faults { self.new.faults ≡ counted self.old.faults }
        ensures made { self.new.made ≡ self.old.made }
        ensures fail { self.new.fail ≡ self.old.fail }
    {
        self.faults = self.faults.saturating_add(1);
        Fault
    }
}
