//! New runs for some places, and the runs that they stand for.

ghost use Rattle.std.specs.Prelude.{◌≡◌, ◌≤◌, ◌<◌, ◌+◌, ◌-◌, ◌^◌, length, take, IfOk, OnOk, OnErr, ℕ, List, ◌++◌};
ghost use Rattle.std.specs.List.{AllZip, slice_range, splice};
ghost use Rattle.std.specs.Fn.{FnReturnsAt};
ghost use Rattle.tb_ranges.specs.Runs.{expanded, AreRuns, IsExact};
ghost use Rattle.tb_ranges.specs.Pieces.{end_of, IsRebuilt, AddsAll, AddsMapped, Completes, Patches};

use crate::pieces::{find_run, push_run};
use crate::run::Run;
use std::alloc::{AllocError, Global};

/// Runs that take the place of those from `start` to before `end`.
pub struct Patch<V> {
    start: usize,
    end: usize,
    runs: Vec<Run<V>>,
}

/// The change of runs by which each place from `lo` to before `hi` gets what `f` makes of its value.
/// It goes over the runs of these places and the two beside them.
pub fn make_patch<V: Copy + Eq, F: Fn(&V) -> V>(
    alloc: Global,
    runs: &[Run<V>],
    lo: u32,
    hi: u32,
    f: F,
) -> Result<Patch<V>, AllocError>
    requires exact { IsExact V.eq }
    requires callable { F.IsAlwaysCallable f }
    requires runs { AreRuns (length (expanded runs.now)) runs.now }
    requires order { lo < hi }
    requires within { hi ≤ length (expanded runs.now) }
    ensures bounds { IfOk result (λ patch. (patch.start ≤ patch.end) × (patch.end ≤ length runs.now)) }
    ensures patches { IfOk result (λ patch. Patches (FnReturnsAt F.Fn f) lo hi runs.now (splice runs.now patch.start patch.end patch.runs.items)) }
{
    let Opening {
        first,
        start,
        runs: mut out,
    } = open_patch(alloc, runs, lo)?;
    let past = push_mapped(&mut out, runs, first, lo, hi, f)?;
    let end = push_right(&mut out, runs, past, hi)?;
    Ok(Patch {
        start,
        end,
        runs: out,
    })
}

/// The change of runs by which the places from `lo` on get the values of other runs, which are not empty.
pub fn make_overwrite<V: Copy + Eq>(
    alloc: Global,
    runs: &[Run<V>],
    lo: u32,
    hi: u32,
    new: &[Run<V>],
) -> Result<Patch<V>, AllocError>
    requires exact { IsExact V.eq }
    requires runs { AreRuns (length (expanded runs.now)) runs.now }
    requires new { AreRuns (length (expanded new.now)) new.now }
    requires order { lo < hi }
    requires long { hi ≡ lo + length (expanded new.now) }
    requires within { hi ≤ length (expanded runs.now) }
    ensures bounds { IfOk result (λ patch. (patch.start ≤ patch.end) × (patch.end ≤ length runs.now)) }
    ensures runs { IfOk result (λ patch. AreRuns (length (expanded runs.now)) (splice runs.now patch.start patch.end patch.runs.items)) }
    ensures values { IfOk result (λ patch. expanded (splice runs.now patch.start patch.end patch.runs.items) ≡ splice (expanded runs.now) lo hi (expanded new.now)) }
{
    let Opening {
        first: _,
        start,
        runs: mut out,
    } = open_patch(alloc, runs, lo)?;
    push_all(&mut out, lo, new)?;
    let past = find_run(runs, hi - 1) + 1;
    let end = push_right(&mut out, runs, past, hi)?;
    Ok(Patch {
        start,
        end,
        runs: out,
    })
}

/// The beginning of a patch: the run before the one that has the place `lo`, if there is one, and the
/// part of that one before `lo`.
struct Opening<V> {
    first: usize,
    start: usize,
    runs: Vec<Run<V>>,
}

/// Begins a patch at a place. `first` is the number of the run that has it, and `start` of the first run
/// that the patch replaces.
fn open_patch<V: Copy + Eq>(
    alloc: Global,
    runs: &[Run<V>],
    lo: u32,
) -> Result<Opening<V>, AllocError>
    requires exact { IsExact V.eq }
    requires runs { AreRuns (length (expanded runs.now)) runs.now }
    requires within { lo < length (expanded runs.now) }
    ensures bounds { IfOk result (λ opening. (opening.start ≤ opening.first) × (opening.first < length runs.now)) }
    ensures first { IfOk result (λ opening. (end_of 0 (take opening.first runs.now) ≤ lo) × (lo < end_of 0 (take (opening.first + 1) runs.now))) }
    ensures values { IfOk result (λ opening. IsRebuilt (take opening.start runs.now) opening.runs.items lo (take lo (expanded runs.now))) }
{
    let first = find_run(runs, lo);
    let start = first.saturating_sub(1);
    let mut out = match Vec::from_slice(alloc, &runs[start..first]) {
        Ok(out) => out,
        Err(_) => return Err(AllocError),
    };
    let run = runs[first];
    push_run(&mut out, run.lo, lo, run.value)?;
    Ok(Opening {
        first,
        start,
        runs: out,
    })
}

/// Puts other runs, their places counted from `lo`, behind runs that end at `lo`.
fn push_all<V: Copy + Eq>(out: &mut Vec<Run<V>>, lo: u32, new: &[Run<V>]) -> Result<(), AllocError>
    requires exact { IsExact V.eq }
    requires new { AreRuns (length (expanded new.now)) new.now }
    requires within { lo + length (expanded new.now) < 2 ^ 32 }
    ensures adds { OnOk result (AddsAll lo new.now out.old.items out.new.items) }
{
    for run in new {
        push_run(out, lo + run.lo, lo + run.hi, run.value)?;
    }
    Ok(())
}

/// Puts what `f` makes of the values at the places from `lo` to before `hi` behind runs that end at
/// `lo`. The run `first` has the place `lo`; the answer is the number of the run behind the one
/// that has the place `hi - 1`.
fn push_mapped<V: Copy + Eq, F: Fn(&V) -> V>(
    out: &mut Vec<Run<V>>,
    runs: &[Run<V>],
    first: usize,
    lo: u32,
    hi: u32,
    f: F,
) -> Result<usize, AllocError>
    requires exact { IsExact V.eq }
    requires callable { F.IsAlwaysCallable f }
    requires runs { AreRuns (length (expanded runs.now)) runs.now }
    requires first { first < length runs.now }
    requires starts { end_of 0 (take first runs.now) ≤ lo }
    requires ends { lo < end_of 0 (take (first + 1) runs.now) }
    requires order { lo < hi }
    requires within { hi ≤ length (expanded runs.now) }
    ensures bounds { IfOk result (λ past. (first < past) × (past ≤ length runs.now)) }
    ensures past { IfOk result (λ past. (end_of 0 (take (past - 1) runs.now) < hi) × (hi ≤ end_of 0 (take past runs.now))) }
    ensures adds { OnOk result (AddsMapped (FnReturnsAt F.Fn f) lo hi (expanded runs.now) out.old.items out.new.items) }
{
    let mut at = first;
    let mut from = lo;
    loop {
        let run = runs[at];
        let to = run.hi.min(hi);
        push_run(out, from, to, f(&run.value))?;
        at += 1;
        if to == hi {
            return Ok(at);
        }
        from = to;
    }
}

/// Puts the rest of a run from `hi` on behind runs that end at `hi`, and then the run behind that, if
/// there is one. The answer is the number of the first run that is not there yet.
fn push_right<V: Copy + Eq>(
    out: &mut Vec<Run<V>>,
    runs: &[Run<V>],
    past: usize,
    hi: u32,
) -> Result<usize, AllocError>
    requires exact { IsExact V.eq }
    requires runs { AreRuns (length (expanded runs.now)) runs.now }
    requires some { 0 < past }
    requires bound { past ≤ length runs.now }
    requires last { end_of 0 (take (past - 1) runs.now) < hi }
    requires ends { hi ≤ end_of 0 (take past runs.now) }
    ensures bounds { IfOk result (λ end. (past ≤ end) × (end ≤ length runs.now)) }
    ensures completes { IfOk result (λ end. Completes hi end runs.now out.old.items out.new.items) }
{
    let last = runs[past - 1];
    push_run(out, hi, last.hi, last.value)?;
    if past == runs.len() {
        return Ok(past);
    }
    let next = runs[past];
    push_run(out, next.lo, next.hi, next.value)?;
    Ok(past + 1)
}

/// Makes the change. After running out of memory the runs are unchanged.
pub fn apply<V: Copy>(runs: &mut Vec<Run<V>>, patch: Patch<V>) -> Result<(), AllocError>
    requires order { patch.start ≤ patch.end }
    requires within { patch.end ≤ length runs.old.items }
    ensures ok { OnOk result (runs.new.items ≡ splice runs.old.items patch.start patch.end patch.runs.items) }
    ensures err { OnErr result (runs.new.items ≡ runs.old.items) }
{
    let Patch {
        start,
        end,
        runs: new,
    } = patch;
    // As many runs as before: those behind them need not move.
    if new.len() == end - start {
        runs[start..end].copy_from_slice(&new);
        return Ok(());
    }
    match runs.splice(start..end, new) {
        Ok(_gone) => Ok(()),
        Err(_) => Err(AllocError),
    }
}
