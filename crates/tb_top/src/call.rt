//! The one top call.
ghost use Rattle.std.specs.Prelude.{◌≡◌, ◌≢◌, ◌<◌, ◌≤◌, ◌⊎◌, ◌-◌, ◌^◌, ℕ, List, None, Some, map, string_bytes};
ghost use Rattle.tb_base.specs.Growth.{Grew, GrewByPrefix, Stays};
ghost use Rattle.tb_top.specs.Output.{Tells, SomeOutput, EachOutput, FrontOfFaultLine};
ghost use Rattle.tb_top.specs.Report.{line_of};
ghost use Rattle.tb_top.specs.Told.{AskedOnce, AskedNothing};
ghost use Rattle.tb_top.specs.Words.{file_of};

use crate::halt::Halt;
use crate::report::report;
use crate::run::run;
use std::alloc::Global;
use tb_base::{Files, Sink, Source};

/// The status with which the program ends.
#[derive(Clone, Copy, Debug, PartialEq, Eq)]
pub struct Status(pub u8);

/// Does all that the program does.
pub fn tbmiri<F: Files, I: Source, O: Sink, E: Sink>(
    alloc: Global,
    words: &[String],
    files: &mut F,
    input: &mut I,
    out: &mut O,
    err: &mut E,
) -> Status
    requires files { F.faults files.old < 2 ^ 64 - 1 }
    requires input { I.faults input.old < 2 ^ 64 - 1 }
    requires out { O.faults out.old < 2 ^ 64 - 1 }
    requires err { E.faults err.old < 2 ^ 64 - 1 }

    // With no fault, enough memory, and files that tell: what goes out, the report and the status
    // are those of an output of these words and files.
    ensures answers { result.0 ≢ 8 → Tells (map string_bytes words.now) (F.told files.old)
        → F.faults files.new ≡ F.faults files.old → O.faults out.new ≡ O.faults out.old → E.faults err.new ≡ E.faults err.old
        → SomeOutput (map string_bytes words.now) (F.told files.old) (λ output. (result.0 ≡ output.status)
        × Grew (O.bytes out.old) (O.bytes out.new) output.out × Grew (E.bytes err.old) (E.bytes err.new) output.err) }

    // The causes of the statuses. Of 8 none is named. The others come only with no fault.
    ensures usage { result.0 ≡ 9 → file_of (map string_bytes words.now) ≡ None }
    ensures unnamed { file_of (map string_bytes words.now) ≡ None → (result.0 ≡ 9) ⊎ (E.faults err.old < E.faults err.new) }
    ensures read { result.0 ≡ 6 → F.faults files.old < F.faults files.new }
    ensures write { result.0 ≡ 7 → (O.faults out.old < O.faults out.new) ⊎ (E.faults err.old < E.faults err.new) }
    ensures read_failed { F.faults files.old < F.faults files.new → (result.0 ≡ 6) ⊎ (result.0 ≡ 7) ⊎ (result.0 ≡ 8) }
    ensures write_failed { (O.faults out.old < O.faults out.new) ⊎ (E.faults err.old < E.faults err.new) → (result.0 ≡ 7) ⊎ (result.0 ≡ 8) }

    // No count falls. The input is left alone.
    ensures files_count { F.faults files.old ≤ F.faults files.new }
    ensures out_count { O.faults out.old ≤ O.faults out.new }
    ensures err_count { E.faults err.old ≤ E.faults err.new }
    ensures input_count { I.faults input.new ≡ I.faults input.old }
    ensures unread { I.left input.new ≡ I.left input.old }

    // The file that the words name is opened once, and no other; with no such file none is.
    ensures asked_once { result.0 ≢ 8 → (name : List ℕ) → file_of (map string_bytes words.now) ≡ Some name → AskedOnce (F.told files.old) (F.told files.new) name }
    ensures asked { (name : List ℕ) → file_of (map string_bytes words.now) ≡ Some name → AskedOnce (F.told files.old) (F.told files.new) name ⊎ AskedNothing (F.told files.old) (F.told files.new) }
    ensures unasked { file_of (map string_bytes words.now) ≡ None → AskedNothing (F.told files.old) (F.told files.new) }
    ensures unfailed { file_of (map string_bytes words.now) ≡ None → F.faults files.new ≡ F.faults files.old }

    // In every call, also after a fault: what went out is a front of what should.
    ensures out_front { EachOutput (map string_bytes words.now) (F.told files.old) (λ output. GrewByPrefix (O.bytes out.old) (O.bytes out.new) output.out) }
    ensures err_front { EachOutput (map string_bytes words.now) (F.told files.old) (λ output. GrewByPrefix (E.bytes err.old) (E.bytes err.new) output.err ⊎ FrontOfFaultLine (E.bytes err.old) (E.bytes err.new)) }
    ensures nothing_out { F.faults files.old < F.faults files.new → Stays (O.bytes out.old) (O.bytes out.new) }
    ensures read_line { F.faults files.old < F.faults files.new → FrontOfFaultLine (E.bytes err.old) (E.bytes err.new) }
    ensures read_reported { result.0 ≡ 6 → Grew (E.bytes err.old) (E.bytes err.new) (line_of Halt.ReadFault) }
    ensures write_reported { result.0 ≡ 7 → E.faults err.new ≡ E.faults err.old → Grew (E.bytes err.old) (E.bytes err.new) (line_of Halt.WriteFault) }
    ensures memory_reported { result.0 ≡ 8 → E.faults err.new ≡ E.faults err.old → Grew (E.bytes err.old) (E.bytes err.new) (line_of Halt.Memory) }
    ensures memory_front { result.0 ≡ 8 → GrewByPrefix (E.bytes err.old) (E.bytes err.new) (line_of Halt.Memory) }
{
    match run(alloc, words, files, out) {
        Ok(()) => Status(0),
        Err(why) => report(err, &why),
    }
}
