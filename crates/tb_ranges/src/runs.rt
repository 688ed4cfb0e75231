ghost use Rattle.std.specs.Prelude.{◌≡◌, ◌≤◌, ◌<◌, ◌-◌, ◌+◌, ◌^◌, drop, Bool, None, position, length, map, replicate, Some, IfOk, OnOk, OnErr, slice_get, zip};
ghost use Rattle.std.specs.List.{AllZip, list_all, slice_range, splice};
ghost use Rattle.std.specs.Option.{option_map};
ghost use Rattle.std.specs.Fn.{FnReturnsAt};
ghost use Rattle.tb_ranges.specs.Runs.{expanded, GoOn, AreRuns, IsExact, MapsRange};
ghost use Rattle.tb_ranges.specs.Ranges.{cut, AreRunsIn};

use crate::pairs::all_pairs;
use crate::patch::{apply, make_overwrite, make_patch};
use crate::pieces::{end_of_runs, find_run, runs_of, whole};
use crate::range::{all_fixed, all_values, find_value, runs_between};
use crate::reader::{Reader, begin_reader};
use crate::run::Run;
use std::alloc::{AllocError, Global};
use std::marker::Model;

/// A value for each place below a size, kept as runs: neighbouring runs have different values.
/// Contracts see it as the list of the values.
///
/// A change takes memory and time for the runs at its places and their two neighbours; the runs
/// behind these are moved as one block where the number of runs changes.
#[derive(Drop)]
pub struct Runs<V> {
    size: u32,
    runs: Vec<Run<V>>,
}

impl<V> Model for Runs<V> {
    ghost use Rattle.std.specs.Prelude.{List};
    ghost use Rattle.tb_ranges.specs.Runs.{expanded, AreRuns};

    ghost Value = { List V };

    ghost view = { λ r. expanded r.runs.items };

    ghost invariant = { λ r. AreRuns r.size r.runs.items };
}

impl<V: Copy + Eq> Runs<V> {
    /// The same value at each place below the size.
    pub fn new(alloc: Global, size: u32, v: V) -> Result<Runs<V>, AllocError>
        ensures { IfOk result (λ runs. runs ≡ replicate size v) }
    {
        let runs = whole(alloc, size, v)?;
        Ok(Runs { size, runs })
    }

    /// What `f` makes of some items, a place for each. `f` is called once for each item.
    pub fn from_items<T, F: Fn(&T) -> V>(
        alloc: Global,
        items: &[T],
        f: F,
    ) -> Result<Runs<V>, AllocError>
        requires exact { IsExact V.eq }
        requires callable { F.IsAlwaysCallable f }
        requires few { length items.now < 2 ^ 32 }
        ensures value { IfOk result (λ runs. AllZip (FnReturnsAt F.Fn f) items.now runs) }
        // Where `f` computes a function, that function is mapped.
        ensures function { IfOk result (λ runs. (g : T → V) → ((x : T) (y : V) → FnReturnsAt F.Fn f x y → y ≡ g x) → runs ≡ map g items.now) }
    {
        let runs = runs_of(alloc, items, f)?;
        Ok(Runs {
            size: items.len() as u32,
            runs,
        })
    }

    /// How many places there are.
    pub fn size(&self) -> u32
        ensures { result ≡ length self.now }
    {
        self.size
    }

    /// The value at a place.
    pub fn get(&self, at: u32) -> &V
        requires { at < length self.now }
        ensures { slice_get self.now at ≡ Some result.now }
    {
        &self.runs[find_run(&self.runs, at)].value
    }

    /// The runs in the order of their places. They have all places, none is empty, and neighbours
    /// have different values.
    pub fn runs(&self) -> &[Run<V>]
        ensures values { expanded result.now ≡ self.now }
        ensures runs { AreRuns (length self.now) result.now }
    {
        &self.runs
    }

    /// The runs that have a place from `lo` to before `hi`, in order and whole. Cut to the range, they are
    /// the runs of its values.
    pub fn runs_in(&self, lo: u32, hi: u32) -> &[Run<V>]
        requires order { lo ≤ hi }
        requires within { hi ≤ length self.now }
        ensures these { AreRunsIn lo hi self.now result.now }
        ensures values { expanded (map (cut lo hi) result.now) ≡ slice_range self.now lo hi }
        ensures runs { GoOn None lo hi (map (cut lo hi) result.now) }
    {
        runs_between(&self.runs, lo, hi)
    }

    /// The values from `lo` on, to be taken one after another. No run is looked at twice.
    pub fn read_from(&self, lo: u32) -> Reader<'_, V>
        requires { lo ≤ length self.now }
        ensures { result ≡ drop lo self.now }
    {
        begin_reader(&self.runs, lo)
    }

    /// The least place from `lo` to before `hi` whose value passes a test. The test is called at most once
    /// for each run.
    pub fn find<F: Fn(&V) -> bool>(&self, lo: u32, hi: u32, test: F) -> Option<u32>
        requires callable { F.IsAlwaysCallable test }
        requires order { lo ≤ hi }
        requires within { hi ≤ length self.now }
        ensures { (p : V → Bool) → ((x : V) (b : Bool) → FnReturnsAt F.Fn test x b → b ≡ p x) → result ≡ option_map (λ k. lo + k) (position p (slice_range self.now lo hi)) }
    {
        find_value(self.runs_in(lo, hi), lo, test)
    }

    /// Whether each value from `lo` to before `hi` passes a test. The test is called at most once for each
    /// run.
    pub fn all<F: Fn(&V) -> bool>(&self, lo: u32, hi: u32, test: F) -> bool
        requires callable { F.IsAlwaysCallable test }
        requires order { lo ≤ hi }
        requires within { hi ≤ length self.now }
        ensures { (p : V → Bool) → ((x : V) (b : Bool) → FnReturnsAt F.Fn test x b → b ≡ p x) → result ≡ list_all p (slice_range self.now lo hi) }
    {
        all_values(self.runs_in(lo, hi), test)
    }

    /// Whether the two values at each place that both have pass a test. It goes over both lists of runs
    /// once, and the test is called at most once for each run of either.
    pub fn all_with<W: Copy, F: Fn(V, W) -> bool>(&self, other: &Runs<W>, test: F) -> bool
        requires callable { F.IsAlwaysCallable test }
        ensures { (p : V → W → Bool) → ((x : V) (y : W) (b : Bool) → F.post test x y b → b ≡ p x y) → result ≡ list_all (λ pair. p pair.0 pair.1) (zip self.now other.now) }
    {
        all_pairs(&self.runs, &other.runs, test)
    }

    /// Gives the places from `lo` to before `hi` a value. After running out of memory nothing has changed.
    pub fn set(&mut self, lo: u32, hi: u32, v: V) -> Result<(), AllocError>
        requires exact { IsExact V.eq }
        requires order { lo ≤ hi }
        requires within { hi ≤ length self.old }
        ensures value { OnOk result (self.new ≡ splice self.old lo hi (replicate (hi - lo) v)) }
        ensures unchanged { OnErr result (self.new ≡ self.old) }
        ensures size { length self.new ≡ length self.old }
    {
        self.map_range(lo, hi, |_| v)
    }

    /// Gives the places from `lo` on the values of other runs, the first of which begins at place 0. After
    /// running out of memory nothing has changed.
    pub fn overwrite(&mut self, lo: u32, runs: &[Run<V>]) -> Result<(), AllocError>
        requires exact { IsExact V.eq }
        requires runs { AreRuns (length (expanded runs.now)) runs.now }
        requires within { lo + length (expanded runs.now) ≤ length self.old }
        ensures value { OnOk result (self.new ≡ splice self.old lo (lo + length (expanded runs.now)) (expanded runs.now)) }
        ensures unchanged { OnErr result (self.new ≡ self.old) }
        ensures size { length self.new ≡ length self.old }
    {
        let _size = self.size;
        let count = end_of_runs(runs);
        if count == 0 {
            return Ok(());
        }
        let patch = make_overwrite(*self.runs.allocator(), &self.runs, lo, lo + count, runs)?;
        apply(&mut self.runs, patch)?;
        Ok(())
    }

    /// Gives each place from `lo` to before `hi` what `f` makes of its value. `f` is called at most twice
    /// for each run. Where no value changes, it takes no memory. After running out of memory nothing has
    /// changed.
    pub fn map_range<F: Fn(&V) -> V>(&mut self, lo: u32, hi: u32, f: F) -> Result<(), AllocError>
        requires exact { IsExact V.eq }
        requires callable { F.IsAlwaysCallable f }
        requires order { lo ≤ hi }
        requires within { hi ≤ length self.old }
        ensures value { OnOk result (MapsRange (FnReturnsAt F.Fn f) lo hi self.old self.new) }
        // Where `f` computes a function, that function is mapped.
        ensures function { OnOk result ((g : V → V) → ((x y : V) → FnReturnsAt F.Fn f x y → y ≡ g x) → self.new ≡ splice self.old lo hi (map g (slice_range self.old lo hi))) }
        ensures unchanged { OnErr result (self.new ≡ self.old) }
        ensures size { length self.new ≡ length self.old }
    {
        if lo == hi {
            return Ok(());
        }
        if all_fixed(self.runs_in(lo, hi), &f) {
            return Ok(());
        }
        let patch = make_patch(*self.runs.allocator(), &self.runs, lo, hi, f)?;
        apply(&mut self.runs, patch)?;
        Ok(())
    }

    /// Gives each place what `f` makes of its value, as `map_range` does for a range.
    pub fn map_all<F: Fn(&V) -> V>(&mut self, f: F) -> Result<(), AllocError>
        requires exact { IsExact V.eq }
        requires callable { F.IsAlwaysCallable f }
        ensures value { OnOk result (AllZip (FnReturnsAt F.Fn f) self.old self.new) }
        // Where `f` computes a function, that function is mapped.
        ensures function { OnOk result ((g : V → V) → ((x y : V) → FnReturnsAt F.Fn f x y → y ≡ g x) → self.new ≡ map g self.old) }
        ensures unchanged { OnErr result (self.new ≡ self.old) }
        ensures size { length self.new ≡ length self.old }
    {
        self.map_range(0, self.size, f)
    }
}
