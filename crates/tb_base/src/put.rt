ghost use Rattle.std.specs.Prelude.{◌≡◌, ◌<◌, ◌-◌, ◌^◌, OnOk, OnErr};
ghost use Rattle.tb_base.specs.Growth.{Grew, GrewByPrefix};

use crate::fault::Fault;
use crate::sink::Sink;

/// Puts the whole piece, in as many calls as the sink needs. After a fault the first bytes of it,
/// which may be none, have gone out.
#[tactic(auto, using(crate::proofs::GrowthLaws::growth_laws))]
pub fn put_all<S: Sink>(sink: &mut S, piece: &[u8]) -> Result<(), Fault>
    requires { S.faults sink.old < 2 ^ 64 - 1 }
    ensures whole { OnOk result (Grew (S.bytes sink.old) (S.bytes sink.new) piece.now) }
    ensures kept { OnOk result (S.faults sink.new ≡ S.faults sink.old) }
    ensures front { OnErr result (GrewByPrefix (S.bytes sink.old) (S.bytes sink.new) piece.now) }
    ensures rose { OnErr result (S.faults sink.old < S.faults sink.new) }
{
    let mut done = 0;
    while done < piece.len() {
        done += sink.put(&piece[done..])?;
    }
    Ok(())
}
