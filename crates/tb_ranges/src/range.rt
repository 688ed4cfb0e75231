//! The runs of a range of places, and what is found in them.

ghost use Rattle.std.specs.Prelude.{◌≡◌, ◌≤◌, Bool, length, filter, IsTrue};
ghost use Rattle.std.specs.List.{list_all, AllByRecursion};
ghost use Rattle.std.specs.Fn.{FnReturnsAt};
ghost use Rattle.tb_ranges.specs.declared.run.Run.{Run};
ghost use Rattle.tb_ranges.specs.Runs.{expanded, AreRuns, IsExact};
ghost use Rattle.tb_ranges.specs.Ranges.{touches, first_place};

use crate::run::Run;

/// The runs that have a place from `lo` to before `hi`, by two binary searches.
pub fn runs_between<V>(runs: &[Run<V>], lo: u32, hi: u32) -> &[Run<V>]
    requires runs { AreRuns (length (expanded runs.now)) runs.now }
    requires order { lo ≤ hi }
    ensures { result.now ≡ filter (touches lo hi) runs.now }
{
    if lo == hi {
        return &runs[..0];
    }
    let start = runs.partition_point(|run| run.hi <= lo);
    let rest = &runs[start..];
    let many = rest.partition_point(|run| run.lo < hi);
    &rest[..many]
}

/// The first place from `lo` on of the first run whose value passes.
pub fn find_value<V, F: Fn(&V) -> bool>(runs: &[Run<V>], lo: u32, test: F) -> Option<u32>
    requires callable { F.IsAlwaysCallable test }
    ensures { (p : V → Bool) → ((x : V) (b : Bool) → FnReturnsAt F.Fn test x b → b ≡ p x) → result ≡ first_place p lo runs.now }
{
    for run in runs {
        if test(&run.value) {
            return Some(run.lo.max(lo));
        }
    }
    None
}

/// Whether the value of each run passes.
pub fn all_values<V, F: Fn(&V) -> bool>(runs: &[Run<V>], test: F) -> bool
    requires callable { F.IsAlwaysCallable test }
    ensures { (p : V → Bool) → ((x : V) (b : Bool) → FnReturnsAt F.Fn test x b → b ≡ p x) → result ≡ list_all (λ (run : Run V). p run.value) runs.now }
{
    for run in runs {
        if !test(&run.value) {
            return false;
        }
    }
    true
}

/// Whether `f` makes of the value of each run what it is.
pub fn all_fixed<V: Copy + Eq, F: Fn(&V) -> V>(runs: &[Run<V>], f: &F) -> bool
    requires exact { IsExact V.eq }
    requires callable { F.IsAlwaysCallable f.now }
    ensures { IsTrue result → AllByRecursion (λ (run : Run V). FnReturnsAt F.Fn f.now run.value run.value) runs.now }
{
    for run in runs {
        let same = f(&run.value) == run.value;
        if !same {
            return false;
        }
    }
    true
}
