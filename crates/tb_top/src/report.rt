ghost use Rattle.std.specs.Prelude.{◌≡◌, ◌<◌, ◌≤◌, ◌-◌, ◌^◌};
ghost use Rattle.tb_top.specs.Report.{Reports};

use crate::call::Status;
use crate::halt::Halt;
use tb_base::{Sink, put_all};

/// Puts the report of a call that does not finish, and returns the status. A fault of the sink ends
/// it, and makes the status 7, except that out of memory stays 8.
pub fn report<E: Sink>(err: &mut E, why: &Halt) -> Status
    requires { E.faults err.old < 2 ^ 64 - 1 }
    ensures { Reports why.now (E.bytes err.old) (E.bytes err.new) (E.faults err.old) (E.faults err.new) result.0 }
{
    match put_all(err, why.line()) {
        Ok(()) => Status(why.status()),
        Err(_) => Status(why.cut_status()),
    }
}
