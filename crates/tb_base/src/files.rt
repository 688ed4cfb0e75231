ghost use Rattle.std.specs.Prelude.{◌≤◌, ◌<◌, ℕ, Option, length, IfOk};
ghost use Rattle.tb_base.specs.Outside.{FilesTold, Opens, TakesOfFile, Counts, CountsOpening};

use crate::fault::{Fault, FileError};

/// Named files, of which one at a time is read from its beginning to its end.
///
/// The object counts its faults, from 0 to 2^64 - 1, where the count stops. The count never
/// falls, and a fault is returned only where it rose or stands at that last value.
pub trait Files {
    /// What it tells of itself, if it tells anything.
    ghost told: { Self → Option FilesTold };

    /// How many calls have failed so far.
    ghost faults: { Self → ℕ };

    /// Begins to read the file of this name. A name that is not there is a fault.
    fn open(&mut self, name: &str) -> Result<(), FileError>
        ensures told { Opens (told self.old) (told self.new) name.now result }
        ensures count { CountsOpening (faults self.old) (faults self.new) result };

    /// Reads the next bytes of the open file into the front of the buffer, and returns how many.
    /// 0 is the end of the file.
    fn take(&mut self, buffer: &mut [u8]) -> Result<usize, Fault>
        requires { 0 < length buffer.old }
        ensures bound { IfOk result (λ count. count ≤ length buffer.new) }
        ensures told { TakesOfFile (told self.old) (told self.new) buffer.new result }
        ensures count { Counts (faults self.old) (faults self.new) result };
}
