ghost use Rattle.std.specs.Prelude.{◌≡◌, ◌≤◌, ℕ, List, Option, length, map, OnOk, OnErr};
ghost use Rattle.std.specs.List.{slice_range, splice};
ghost use Rattle.tb_perm.specs.declared.perm.Kind.{Kind};
ghost use Rattle.tb_ranges.specs.Runs.{IsExact};
ghost use Rattle.tb_lazy_rows.specs.Kinds.{AreChanged, AreChangedBelow, MeetsRun};

use crate::by_kind::ByKind;
use std::alloc::AllocError;
use tb_perm::Kind;
use tb_ranges::{Run, Runs};

/// Changes the value at each byte by what the byte meets. After running out of memory the values at the bytes below
/// some place are changed, and all others are as they were. Where no value changes, it takes no memory.
pub fn change<V: Copy + Eq, B: ByKind<V>>(
    values: &mut Runs<V>,
    kinds: &Runs<Option<Kind>>,
    by: &B,
) -> Result<(), AllocError>
    requires exact { IsExact V.eq }
    requires bytes { length kinds.now ≡ length values.old }
    ensures changed { OnOk result (AreChanged (B.by by.now) kinds.now values.old values.new) }
    ensures torn { OnErr result ((end : ℕ) × AreChangedBelow (B.by by.now) kinds.now end values.old values.new) }
    ensures bytes { length values.new ≡ length values.old }
{
    let runs = kinds.runs();
    for run in runs.iter() {
        change_run(values, run, by)?;
    }
    Ok(())
}

/// Changes the values at the bytes of a run, which all meet the same.
fn change_run<V: Copy + Eq, B: ByKind<V>>(
    values: &mut Runs<V>,
    run: &Run<Option<Kind>>,
    by: &B,
) -> Result<(), AllocError>
    requires exact { IsExact V.eq }
    requires order { run.now.lo ≤ run.now.hi }
    requires within { run.now.hi ≤ length values.old }
    ensures changed { OnOk result ((kinds : List (Option Kind)) (old : List V) → MeetsRun kinds run.now → AreChangedBelow (B.by by.now) kinds run.now.lo old values.old → AreChangedBelow (B.by by.now) kinds run.now.hi old values.new) }
    ensures unchanged { OnErr result (values.new ≡ values.old) }
    ensures bytes { length values.new ≡ length values.old }
{
    let Some(kind) = run.value else {
        return Ok(());
    };
    change_between(values, run.lo, run.hi, kind, by)
}

/// Changes the values of a range of bytes by an access of one kind.
fn change_between<V: Copy + Eq, B: ByKind<V>>(
    values: &mut Runs<V>,
    lo: u32,
    hi: u32,
    kind: Kind,
    by: &B,
) -> Result<(), AllocError>
    requires exact { IsExact V.eq }
    requires order { lo ≤ hi }
    requires within { hi ≤ length values.old }
    ensures changed { OnOk result (values.new ≡ splice values.old lo hi (map (B.by by.now kind) (slice_range values.old lo hi))) }
    ensures unchanged { OnErr result (values.new ≡ values.old) }
    ensures bytes { length values.new ≡ length values.old }
{
    values.map_range(lo, hi, |value| by.after(kind, *value))
}
