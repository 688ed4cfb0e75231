//! Two lists of runs, gone over together.

ghost use Rattle.std.specs.Prelude.{◌≡◌, ◌<◌, Bool, length, zip};
ghost use Rattle.std.specs.List.{list_all};
ghost use Rattle.tb_ranges.specs.Runs.{expanded, AreRuns};
ghost use Rattle.tb_ranges.specs.Ranges.{rest_at};

use crate::run::Run;

/// Whether the two values at each place that both have pass a test. It goes over both lists once.
pub fn all_pairs<V: Copy, W: Copy, F: Fn(V, W) -> bool>(
    first: &[Run<V>],
    second: &[Run<W>],
    test: F,
) -> bool
    requires callable { F.IsAlwaysCallable test }
    requires first { AreRuns (length (expanded first.now)) first.now }
    requires second { AreRuns (length (expanded second.now)) second.now }
    ensures { (p : V → W → Bool) → ((x : V) (y : W) (b : Bool) → F.post test x y b → b ≡ p x y) → result ≡ list_all (λ pair. p pair.0 pair.1) (zip (expanded first.now) (expanded second.now)) }
{
    // The runs that have a place from `at` on.
    let mut left = first;
    let mut right = second;
    let mut at = 0;
    while left.len() > 0 {
        if right.len() == 0 {
            return true;
        }
        let a = left[0];
        let b = right[0];
        if !test(a.value, b.value) {
            return false;
        }
        at = a.hi.min(b.hi);
        left = after(left, at);
        right = after(right, at);
    }
    true
}

/// The runs without the first one, if that ends at the place.
fn after<V>(runs: &[Run<V>], at: u32) -> &[Run<V>]
    requires { 0 < length runs.now }
    ensures { result.now ≡ rest_at at runs.now }
{
    if runs[0].hi == at { &runs[1..] } else { runs }
}
