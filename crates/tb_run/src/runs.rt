ghost use Rattle.std.specs.Prelude.{◌≡◌, ◌≢◌, ◌≤◌, ◌<◌, ◌+◌, ◌-◌, ◌^◌};
ghost use Rattle.tb_eval.specs.Run.{run_of, ample};
ghost use Rattle.tb_eval.specs.Sound.{IsSoundState};
ghost use Rattle.tb_eval.specs.Step.{first_state};
ghost use Rattle.tb_run.specs.Stepped.{RunsAs};

use crate::machine::{Machine, Turn};
use std::sync::ledger::Ledger;
use tb_base::Sink;
use tb_eval::Outcome;
use tb_mir::Mir;
use tb_perm::{BorrowTree, Steps};

/// Runs a machine to its end, for at most `bound` steps.
pub fn run<T: BorrowTree, O: Sink, L: Ledger>(
    machine: &mut Machine<T>,
    mir: &Mir,
    bound: u64,
    out: &mut O,
    steps: &mut Steps<L>,
) -> Outcome
    requires out { O.faults out.old < 2 ^ 64 - 1 }
    requires steps { machine.old.steps + bound < 2 ^ 64 }
    requires sound { IsSoundState machine.old.state }
    ensures run { RunsAs (run_of mir.now machine.old.state bound)
        (record { bytes = O.bytes out.old; faults = O.faults out.old }) (record { bytes = O.bytes out.new; faults = O.faults out.new }) result }
    // A bound above the number of lines is met by no run from the first line.
    ensures unlimited { machine.old.state ≡ first_state mir.now → ample mir.now ≤ bound → result ≢ Outcome.StepLimit }
{
    for _ in 0..bound {
        if let Turn::Ended(outcome) = machine.step(mir, out, steps) {
            return outcome;
        }
    }
    Outcome::StepLimit
}
