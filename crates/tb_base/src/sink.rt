ghost use Rattle.std.specs.Prelude.{◌≤◌, ◌<◌, ℕ, List, Option, length, IfOk};
ghost use Rattle.tb_base.specs.Outside.{Puts, Counts};

use crate::fault::Fault;

/// A sink of bytes, as standard output.
///
/// The object counts its faults as `Files` does.
pub trait Sink {
    /// The bytes that were put so far, if it tells them.
    ghost bytes: { Self → Option (List ℕ) };

    /// How many calls have failed so far.
    ghost faults: { Self → ℕ };

    /// Puts the first bytes of the piece, at least one, and returns how many.
    fn put(&mut self, piece: &[u8]) -> Result<usize, Fault>
        requires { 0 < length piece.now }
        ensures some { IfOk result (λ count. 0 < count) }
        ensures bound { IfOk result (λ count. count ≤ length piece.now) }
        ensures told { Puts (bytes self.old) (bytes self.new) piece.now result }
        ensures count { Counts (faults self.old) (faults self.new) result };
}
