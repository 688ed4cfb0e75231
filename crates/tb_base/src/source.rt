ghost use Rattle.std.specs.Prelude.{◌≤◌, ◌<◌, ℕ, List, Option, length, IfOk};
ghost use Rattle.tb_base.specs.Outside.{Takes, Counts};

use crate::fault::Fault;

/// A source of bytes, as standard input.
///
/// The object counts its faults as `Files` does.
pub trait Source {
    /// The bytes that are left, if it tells them.
    ghost left: { Self → Option (List ℕ) };

    /// How many calls have failed so far.
    ghost faults: { Self → ℕ };

    /// Takes the next bytes into the front of the buffer, and returns how many. 0 is the end.
    fn take(&mut self, buffer: &mut [u8]) -> Result<usize, Fault>
        requires { 0 < length buffer.old }
        ensures bound { IfOk result (λ count. count ≤ length buffer.new) }
        ensures told { Takes (left self.old) (left self.new) buffer.new result }
        ensures count { Counts (faults self.old) (faults self.new) result };
}
