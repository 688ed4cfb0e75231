//! Lists of runs: which run has a place, and runs that are put behind others.

ghost use Rattle.std.specs.Prelude.{◌≡◌, ◌≢◌, ◌≤◌, ◌<◌, ◌+◌, ◌^◌, false, length, replicate, take, None, Some, IsTrue, IfOk, OnOk};
ghost use Rattle.std.specs.List.{AllZip};
ghost use Rattle.std.specs.Fn.{FnReturnsAt};
ghost use Rattle.tb_ranges.specs.Runs.{expanded, AreRuns, IsExact};
ghost use Rattle.tb_ranges.specs.Pieces.{end_of, last_of, stretched, Adds, EndsIn};

use crate::run::Run;
use std::alloc::{AllocError, Global};

/// The runs of one value at all places.
pub fn whole<V>(alloc: Global, size: u32, value: V) -> Result<Vec<Run<V>>, AllocError>
where
    V: Copy,
    ensures runs { IfOk result (λ runs. AreRuns size runs.items) }
    ensures values { IfOk result (λ runs. expanded runs.items ≡ replicate size value) }
{
    let mut runs = Vec::new(alloc);
    if size == 0 {
        return Ok(runs);
    }
    let run = Run {
        lo: 0,
        hi: size,
        value,
    };
    match runs.push(run) {
        Ok(()) => Ok(runs),
        Err(_) => Err(AllocError),
    }
}

/// Which run has the place.
pub fn find_run<V>(runs: &[Run<V>], at: u32) -> usize
    requires runs { AreRuns (length (expanded runs.now)) runs.now }
    requires within { at < length (expanded runs.now) }
    ensures bound { result < length runs.now }
    ensures starts { end_of 0 (take result runs.now) ≤ at }
    ensures ends { at < end_of 0 (take (result + 1) runs.now) }
{
    runs.partition_point(|run| run.hi <= at)
}

/// Where runs end, 0 for none.
pub fn end_of_runs<V>(runs: &[Run<V>]) -> u32
    requires { AreRuns (length (expanded runs.now)) runs.now }
    ensures { result ≡ length (expanded runs.now) }
{
    match runs.last() {
        Some(last) => last.hi,
        None => 0,
    }
}

/// The runs of what `f` makes of some items, a place for each.
pub fn runs_of<T, V: Copy + Eq, F: Fn(&T) -> V>(
    alloc: Global,
    items: &[T],
    f: F,
) -> Result<Vec<Run<V>>, AllocError>
    requires exact { IsExact V.eq }
    requires callable { F.IsAlwaysCallable f }
    requires few { length items.now < 2 ^ 32 }
    ensures runs { IfOk result (λ runs. AreRuns (length items.now) runs.items) }
    ensures values { IfOk result (λ runs. AllZip (FnReturnsAt F.Fn f) items.now (expanded runs.items)) }
{
    let mut runs = Vec::new(alloc);
    for at in 0..items.len() {
        push_run(&mut runs, at as u32, at as u32 + 1, f(&items[at]))?;
    }
    Ok(runs)
}

/// Puts a value at the places from `lo` to before `hi` behind runs that end at `lo`, as a run of its
/// own or as a part of the last.
pub fn push_run<V: Copy + Eq>(
    out: &mut Vec<Run<V>>,
    lo: u32,
    hi: u32,
    value: V,
) -> Result<(), AllocError>
    requires exact { IsExact V.eq }
    requires order { lo ≤ hi }
    ensures adds { OnOk result (Adds lo hi value out.old.items out.new.items) }
    ensures ends { OnOk result (lo < hi → EndsIn value out.new.items) }
{
    if lo == hi {
        return Ok(());
    }
    if ends_in(out, value) {
        stretch(out, hi);
        return Ok(());
    }
    match out.push(Run { lo, hi, value }) {
        Ok(()) => Ok(()),
        Err(_) => Err(AllocError),
    }
}

/// Whether the last run has the value.
fn ends_in<V: Copy + Eq>(out: &[Run<V>], value: V) -> bool
    requires { IsExact V.eq }
    ensures same { IsTrue result → last_of None out.now ≡ Some value }
    ensures differs { result ≡ false → last_of None out.now ≢ Some value }
{
    match out.last() {
        Some(last) => last.value == value,
        None => false,
    }
}

/// Makes the last run end at `hi`.
fn stretch<V: Copy>(out: &mut Vec<Run<V>>, hi: u32)
    requires { last_of None out.old.items ≢ None }
    ensures { out.new.items ≡ stretched hi out.old.items }
{
    let last = out.len() - 1;
    out[last].hi = hi;
}
