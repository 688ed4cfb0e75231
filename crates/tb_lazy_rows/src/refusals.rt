//! At which byte a tag refuses an event first.

ghost use Rattle.std.specs.Prelude.{◌≡◌, ◌≤◌, length, List, Option, Some, is_some};
ghost use Rattle.tb_perm.specs.declared.perm.Kind.{Kind};
ghost use Rattle.tb_perm.specs.Event.{refusal_of};
ghost use Rattle.tb_lazy_rows.specs.Kinds.{MeetsRun, IsFirstIn, refuses_at, first_refusal};

use tb_perm::{Kind, Rel, State, step};
use tb_ranges::{Run, Runs};

/// The first byte at which a tag with these states refuses what the byte meets.
pub fn first_refused(
    states: &Runs<State>,
    protected: bool,
    rel: Rel,
    kinds: &Runs<Option<Kind>>,
) -> Option<u32>
    requires { length kinds.now ≡ length states.now }
    ensures { result ≡ first_refusal kinds.now protected rel states.now }
{
    let runs = kinds.runs();
    for run in runs.iter() {
        if let Some(byte) = refused_in(states, protected, rel, run) {
            return Some(byte);
        }
    }
    None
}

/// The first such byte of a run, whose bytes all meet the same.
fn refused_in(
    states: &Runs<State>,
    protected: bool,
    rel: Rel,
    run: &Run<Option<Kind>>,
) -> Option<u32>
    requires order { run.now.lo ≤ run.now.hi }
    requires within { run.now.hi ≤ length states.now }
    ensures { (kinds : List (Option Kind)) → MeetsRun kinds run.now → IsFirstIn (refuses_at kinds protected rel states.now) run.now.lo run.now.hi result }
{
    let Some(kind) = run.value else {
        return None;
    };
    states.find(
        run.lo,
        run.hi,
        |state| refuses(*state, protected, rel, kind),
    )
}

/// Whether a state refuses an access.
fn refuses(state: State, protected: bool, rel: Rel, kind: Kind) -> bool
    ensures { result ≡ is_some (refusal_of (Some kind) protected rel state) }
{
    step(state, protected, rel, kind).is_err()
}
