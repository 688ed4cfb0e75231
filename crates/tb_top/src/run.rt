//! A call up to its report: reads the source that the words name, lowers it and runs it.
ghost use Rattle.std.specs.Prelude.{◌≡◌, ◌≢◌, ◌<◌, ◌≤◌, ◌-◌, ◌^◌, [], length, map, string_bytes, IfOk, IfErr};
ghost use Rattle.tb_eval.specs.Run.{whole_run};
ghost use Rattle.tb_small.specs.Grammar.{AreStatements, IsWithinLimits};
ghost use Rattle.tb_top.specs.Conclusion.{Concludes, RunEnds};
ghost use Rattle.tb_top.specs.Program.{IsProgram};
ghost use Rattle.tb_top.specs.Stages.{ComesTo};

use crate::halt::Halt;
use crate::read::read_file;
use crate::words::file_word;
use sqlite_items::Items;
use std::alloc::Global;
use std::marker::Brand;
use std::sync::ledger::{Blank, Ledger};
use tb_base::{Files, Sink};
use tb_diag::report;
use tb_eval::Outcome;
use tb_lower::lower_source;
use tb_mir::Mir;
use tb_perm::Steps;
use tb_plain::PlainTree;
use tb_retag::place;
use tb_run::Machine;
use tb_small::{SmallTree, small};

/// The program that runs for a tree: what it is lowered to, with its retags at their places.
fn program_of(alloc: Global, tree: &SmallTree) -> Result<Mir, Halt>
    requires scopes { AreStatements [] tree.now.body.statements }
    requires limits { IsWithinLimits tree.now }
    ensures program { IfOk result (λ mir. IsProgram tree.now mir) }
    ensures memory { IfErr result (λ why. why ≡ Halt.Memory) }
{
    let mut mir = lower_source(alloc, tree)?;
    place(alloc, &mut mir)?;
    Ok(mir)
}

/// Reports the end of a run that does not finish.
fn conclude(alloc: Global, source: &[u8], end: Outcome) -> Result<(), Halt>
    requires short { length source.now ≤ 1048576 }
    requires ended { end ≢ Outcome.StepLimit }
    ensures { Concludes source.now end result }
{
    match end {
        Outcome::Finished => Ok(()),
        Outcome::WriteFault => Err(Halt::WriteFault),
        Outcome::Memory => Err(Halt::Memory),
        Outcome::StepLimit => unreachable!(),
        Outcome::Undefined(_, _) => match report(alloc, source, &end) {
            Ok(text) => Err(Halt::Undefined(Items::from_vec(text))),
            Err(_) => Err(Halt::Memory),
        },
        Outcome::Panic(_, _) => match report(alloc, source, &end) {
            Ok(text) => Err(Halt::Panic(Items::from_vec(text))),
            Err(_) => Err(Halt::Memory),
        },
    }
}

/// Runs a lowered source to its end. The bound on steps is one that no run meets.
fn run_mir<O: Sink>(alloc: Global, source: &[u8], mir: &Mir, out: &mut O) -> Result<(), Halt>
    requires short { length source.now ≤ 1048576 }
    requires out { O.faults out.old < 2 ^ 64 - 1 }
    ensures { RunEnds source.now (whole_run mir.now)
        (record { bytes = O.bytes out.old; faults = O.faults out.old }) (record { bytes = O.bytes out.new; faults = O.faults out.new }) result }
{
    run_from::<Brand, O>(Blank::new(1), alloc, source, mir, out)
}

/// The same, with a counter of the steps of its trees, which takes no bytes.
fn run_from<L: Ledger, O: Sink>(
    blank: Blank,
    alloc: Global,
    source: &[u8],
    mir: &Mir,
    out: &mut O,
) -> Result<(), Halt>
    requires name { blank.name ≡ L.name }
    requires parts { blank.parts ≡ L.parts }
    requires some { 0 < L.parts }
    requires short { length source.now ≤ 1048576 }
    requires out { O.faults out.old < 2 ^ 64 - 1 }
    ensures { RunEnds source.now (whole_run mir.now)
        (record { bytes = O.bytes out.old; faults = O.faults out.old }) (record { bytes = O.bytes out.new; faults = O.faults out.new }) result }
{
    let mut steps: Steps<L> = Steps::new(blank);
    let mut machine: Machine<PlainTree> = Machine::start(alloc, mir)?;
    let bound = mir.lines(0, 0).len() as u64 + 1;
    let end = tb_run::run(&mut machine, mir, bound, out, &mut steps);
    conclude(alloc, source, end)
}

/// Reads the source that the words name, and runs it.
pub fn run<F: Files, O: Sink>(
    alloc: Global,
    words: &[String],
    files: &mut F,
    out: &mut O,
) -> Result<(), Halt>
    requires files { F.faults files.old < 2 ^ 64 - 1 }
    requires out { O.faults out.old < 2 ^ 64 - 1 }
    ensures { ComesTo (map string_bytes words.now)
        (record { told = F.told files.old; read_faults = F.faults files.old; bytes = O.bytes out.old; write_faults = O.faults out.old })
        (record { told = F.told files.new; read_faults = F.faults files.new; bytes = O.bytes out.new; write_faults = O.faults out.new })
        result }
{
    let name = file_word(words).ok_or(Halt::Usage)?;
    let source = read_file(alloc, files, name)?;
    let text = source.as_slice();
    let tree = small(alloc, text)?;
    let mir = program_of(alloc, &tree)?;
    run_mir(alloc, text, &mir, out)
}
