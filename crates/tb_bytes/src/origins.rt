//! The provenances of runs of bytes.

ghost use Rattle.std.specs.Prelude.{◌≡◌, ◌≢◌, ◌≤◌, ◌↔◌, ℕ, Some, length, IfOk, OnOk, MatchOption, Contains, slice_get, [], ◌∷◌, ◌++◌};
ghost use Rattle.tb_perm.specs.declared.tag.Prov.{Prov};
ghost use Rattle.tb_ranges.specs.Runs.{expanded, AreRuns};
ghost use Rattle.tb_bytes.specs.Bytes.{IsNextRun, AreRising};
ghost use Rattle.tb_bytes.specs.Parts.{listed, first_with};

use std::alloc::{AllocError, Global};
use tb_perm::Prov;
use tb_ranges::{Run, Runs};

/// Each provenance that some place has, once, in the order of allocations and then of tags.
pub fn list_provs(alloc: Global, provs: &Runs<Option<Prov>>) -> Result<Vec<Prov>, AllocError>
    ensures members { IfOk result (λ list. (prov : Prov) → Contains list.items prov ↔ Contains provs.now (Some prov)) }
    ensures rising { IfOk result (λ list. AreRising list.items) }
{
    let mut list = collect_provs(alloc, provs.runs())?;
    list.sort_unstable_by_key(|prov| (prov.alloc.0, prov.tag.0));
    list.dedup();
    Ok(list)
}

/// The provenances of the runs that have one, in order.
fn collect_provs(alloc: Global, runs: &[Run<Option<Prov>>]) -> Result<Vec<Prov>, AllocError>
    ensures { IfOk result (λ list. list.items ≡ listed runs.now) }
{
    let mut list = Vec::new(alloc);
    for run in runs {
        if let Some(prov) = run.value {
            put(&mut list, prov)?;
        }
    }
    Ok(list)
}

fn put(list: &mut Vec<Prov>, prov: Prov) -> Result<(), AllocError>
    ensures { OnOk result (list.new.items ≡ list.old.items ++ prov ∷ []) }
{
    match list.push(prov) {
        Ok(()) => Ok(()),
        Err(_) => Err(AllocError),
    }
}

/// The first run with a provenance that has a place at or after `at`.
pub fn next_run(runs: &[Run<Option<Prov>>], at: u32) -> Option<(u32, Prov)>
    requires { AreRuns (length (expanded runs.now)) runs.now }
    ensures { MatchOption result ((k : ℕ) (prov : Prov) → at ≤ k → slice_get (expanded runs.now) k ≢ Some (Some prov)) (λ run. IsNextRun at (expanded runs.now) run.0 run.1) }
{
    let first = runs.partition_point(|run| run.hi <= at);
    first_run(&runs[first..])
}

/// The end and the provenance of the first run that has one.
fn first_run(runs: &[Run<Option<Prov>>]) -> Option<(u32, Prov)>
    ensures { result ≡ first_with runs.now }
{
    for run in runs {
        if let Some(prov) = run.value {
            return Some((run.hi, prov));
        }
    }
    None
}
