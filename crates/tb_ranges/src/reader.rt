ghost use Rattle.std.specs.Prelude.{◌≡◌, ◌≤◌, ◌<◌, ◌+◌, ◌∷◌, length, drop};
ghost use Rattle.tb_ranges.specs.Runs.{expanded, AreRuns};
ghost use Rattle.tb_ranges.specs.Ranges.{from_place};

use crate::run::Run;
use std::marker::Model;

/// Values of neighbouring places, to be taken one after another. Contracts see them as the list of those
/// that are left.
#[derive(Drop)]
pub struct Reader<'a, V> {
    // the first of them has the place `at`
    runs: &'a [Run<V>],
    at: u32,
}

impl<'a, V> Model for Reader<'a, V> {
    ghost use Rattle.std.specs.Prelude.{◌+◌, List, None, length};
    ghost use Rattle.tb_ranges.specs.Runs.{expanded, GoOn};
    ghost use Rattle.tb_ranges.specs.Ranges.{from_place};

    ghost Value = { List V };

    ghost view = { λ v. expanded (from_place v.at v.runs.now) };

    ghost invariant = { λ v. GoOn None v.at (v.at + length (expanded (from_place v.at v.runs.now))) (from_place v.at v.runs.now) };
}

impl<'a, V: Copy> Reader<'a, V> {
    /// The next value.
    pub fn next(&mut self) -> V
        requires { 0 < length self.old }
        ensures { self.old ≡ result ∷ self.new }
    {
        let run = self.runs[0];
        self.at = place_after(self.at, run.hi);
        if self.at == run.hi {
            self.runs = &self.runs[1..];
        }
        run.value
    }
}

/// The place after one that stands before some other.
fn place_after(at: u32, end: u32) -> u32
    requires { at < end }
    ensures { result ≡ at + 1 }
{
    at + 1
}

/// The values of runs from a place on.
pub fn begin_reader<V>(runs: &[Run<V>], lo: u32) -> Reader<'_, V>
    requires runs { AreRuns (length (expanded runs.now)) runs.now }
    requires within { lo ≤ length (expanded runs.now) }
    ensures { result ≡ drop lo (expanded runs.now) }
{
    let first = runs.partition_point(|run| run.hi <= lo);
    Reader {
        runs: &runs[first..],
        at: lo,
    }
}
