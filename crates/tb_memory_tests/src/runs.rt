ghost use Rattle.std.specs.Prelude.{◌≡◌, ◌≤◌, ◌+◌, length, IfOk};

use std::alloc::{AllocError, Global};
use tb_ranges::{Run, Runs};

/// A run of the tables below.
fn run(lo: u32, hi: u32, value: u8) -> Run<u8> {
    Run { lo, hi, value }
}

/// Six places of which the middle two have a value of their own: 1 1 2 2 1 1.
fn island(alloc: Global) -> Result<Runs<u8>, AllocError>
    ensures { IfOk result (λ runs. length runs ≡ 6) }
{
    let mut runs = Runs::new(alloc, 6, 1u8)?;
    runs.set(2, 4, 2)?;
    Ok(runs)
}

/// Whether the island has these runs after one call of `set`.
fn sets(alloc: Global, lo: u32, hi: u32, value: u8, want: &[Run<u8>]) -> bool
    requires order { lo ≤ hi }
    requires within { hi ≤ 6 }
{
    let Ok(mut runs) = island(alloc) else {
        return false;
    };
    match runs.set(lo, hi, value) {
        Ok(()) => runs.runs() == want,
        Err(_) => false,
    }
}

/// Whether the island has these runs after its values from `lo` to before `hi` were taken from 3.
fn maps(alloc: Global, lo: u32, hi: u32, want: &[Run<u8>]) -> bool
    requires order { lo ≤ hi }
    requires within { hi ≤ 6 }
{
    let Ok(mut runs) = island(alloc) else {
        return false;
    };
    match runs.map_range(lo, hi, |value| 3u8.saturating_sub(*value)) {
        Ok(()) => runs.runs() == want,
        Err(_) => false,
    }
}

#[test]
fn splits_and_joins(rt: HostRuntime) {
    let alloc = rt.alloc();
    let whole = [run(0, 2, 1), run(2, 4, 2), run(4, 6, 1)];
    // Joined with both neighbours, with the left and with the right one.
    assert!(rt; sets(alloc, 2, 4, 1, &[run(0, 6, 1)]));
    assert!(rt; sets(alloc, 4, 6, 2, &[run(0, 2, 1), run(2, 6, 2)]));
    assert!(rt; sets(alloc, 0, 2, 2, &[run(0, 4, 2), run(4, 6, 1)]));
    assert!(rt; sets(alloc, 2, 3, 1, &[run(0, 3, 1), run(3, 4, 2), run(4, 6, 1)]));
    // All places, none, and the value that was there.
    assert!(rt; sets(alloc, 0, 6, 5, &[run(0, 6, 5)]));
    assert!(rt; sets(alloc, 3, 3, 9, &whole));
    assert!(rt; sets(alloc, 6, 6, 9, &whole));
    assert!(rt; sets(alloc, 2, 3, 2, &whole));
    // A run is split at one end or at both, and two runs at once.
    assert!(rt;
        sets(
            alloc,
            0,
            1,
            7,
            &[run(0, 1, 7), run(1, 2, 1), run(2, 4, 2), run(4, 6, 1)]
        )
    );
    assert!(rt;
        sets(
            alloc,
            5,
            6,
            7,
            &[run(0, 2, 1), run(2, 4, 2), run(4, 5, 1), run(5, 6, 7)]
        )
    );
    assert!(rt;
        sets(
            alloc,
            1,
            3,
            3,
            &[run(0, 1, 1), run(1, 3, 3), run(3, 4, 2), run(4, 6, 1)]
        )
    );
    assert!(rt; sets(alloc, 1, 5, 3, &[run(0, 1, 1), run(1, 5, 3), run(5, 6, 1)]));
}

#[test]
fn maps_a_range(rt: HostRuntime) {
    let alloc = rt.alloc();
    // 2 2 1 1 1 1: the changed runs meet an unchanged one of their value.
    assert!(rt; maps(alloc, 0, 4, &[run(0, 2, 2), run(2, 6, 1)]));
    // 1 2 1 1 2 1
    assert!(rt;
        maps(
            alloc,
            1,
            5,
            &[
                run(0, 1, 1),
                run(1, 2, 2),
                run(2, 4, 1),
                run(4, 5, 2),
                run(5, 6, 1)
            ]
        )
    );
    assert!(rt; maps(alloc, 0, 6, &[run(0, 2, 2), run(2, 4, 1), run(4, 6, 2)]));
    assert!(rt; maps(alloc, 4, 4, &[run(0, 2, 1), run(2, 4, 2), run(4, 6, 1)]));
}

#[test]
fn keeps_values_of_any_type(rt: HostRuntime) -> Result<(), AllocError> {
    let mut empty = Runs::new(rt.alloc(), 0, true)?;
    empty.set(0, 0, false)?;
    assert_eq!(rt; empty.size(), 0);
    assert_eq!(rt; empty.runs().len(), 0);
    let mut places = Runs::new(rt.alloc(), 4, None::<u16>)?;
    places.set(1, 3, Some(7))?;
    places.set(2, 4, Some(7))?;
    assert_eq!(rt; *places.get(0), None);
    assert_eq!(rt; *places.get(1), Some(7));
    assert_eq!(rt; *places.get(3), Some(7));
    places.map_all(|value| value.map(|n| n / 2))?;
    assert_eq!(rt; *places.get(0), None);
    assert_eq!(rt; *places.get(3), Some(3));
    assert_eq!(rt; places.runs().len(), 2);
    Ok(())
}

/// Whether the runs of the island that have a place of the range are these.
fn lends(alloc: Global, lo: u32, hi: u32, want: &[Run<u8>]) -> bool
    requires order { lo ≤ hi }
    requires within { hi ≤ 6 }
{
    let Ok(runs) = island(alloc) else {
        return false;
    };
    runs.runs_in(lo, hi) == want
}

/// Where the island has the value first in a range.
fn first(alloc: Global, lo: u32, hi: u32, value: u8) -> Result<Option<u32>, AllocError>
    requires order { lo ≤ hi }
    requires within { hi ≤ 6 }
{
    let runs = island(alloc)?;
    Ok(runs.find(lo, hi, |v| *v == value))
}

/// Whether the island has no other value in a range.
fn only(alloc: Global, lo: u32, hi: u32, value: u8) -> Result<bool, AllocError>
    requires order { lo ≤ hi }
    requires within { hi ≤ 6 }
{
    let runs = island(alloc)?;
    Ok(runs.all(lo, hi, |v| *v == value))
}

#[test]
fn lends_the_runs_of_a_range(rt: HostRuntime) {
    let alloc = rt.alloc();
    let whole = [run(0, 2, 1), run(2, 4, 2), run(4, 6, 1)];
    assert!(rt; lends(alloc, 0, 6, &whole));
    assert!(rt; lends(alloc, 1, 5, &whole));
    assert!(rt; lends(alloc, 1, 3, &[run(0, 2, 1), run(2, 4, 2)]));
    // Neighbours that only touch the range's ends are not among them.
    assert!(rt; lends(alloc, 2, 4, &[run(2, 4, 2)]));
    assert!(rt; lends(alloc, 3, 4, &[run(2, 4, 2)]));
    assert!(rt; lends(alloc, 3, 3, &[]));
    assert!(rt; lends(alloc, 6, 6, &[]));
}

#[test]
fn finds_in_a_range(rt: HostRuntime) -> Result<(), AllocError> {
    let alloc = rt.alloc();
    assert_eq!(rt; first(alloc, 0, 6, 2)?, Some(2));
    assert_eq!(rt; first(alloc, 3, 6, 2)?, Some(3));
    assert_eq!(rt; first(alloc, 3, 6, 1)?, Some(4));
    assert_eq!(rt; first(alloc, 4, 6, 2)?, None);
    assert_eq!(rt; first(alloc, 0, 2, 2)?, None);
    assert_eq!(rt; first(alloc, 2, 2, 2)?, None);
    assert!(rt; only(alloc, 0, 2, 1)?);
    assert!(rt; only(alloc, 3, 3, 9)?);
    assert!(rt; !only(alloc, 0, 3, 1)?);
    assert!(rt; !only(alloc, 1, 6, 1)?);
    Ok(())
}

/// Whether the island has these runs after the values were written over it from `lo` on.
fn overwrites(alloc: Global, lo: u32, values: &[u8], want: &[Run<u8>]) -> bool
    requires { lo + length values.now ≤ 6 }
{
    let Ok(mut runs) = island(alloc) else {
        return false;
    };
    let Ok(piece) = Runs::from_items(alloc, values, |value| *value) else {
        return false;
    };
    match runs.overwrite(lo, piece.runs()) {
        Ok(()) => runs.runs() == want,
        Err(_) => false,
    }
}

#[test]
fn overwrites_a_range(rt: HostRuntime) {
    let alloc = rt.alloc();
    let whole = [run(0, 2, 1), run(2, 4, 2), run(4, 6, 1)];
    // Joined at both ends, at one, and at none.
    assert!(rt; overwrites(alloc, 1, &[1, 2, 2, 1], &whole));
    assert!(rt;
        overwrites(
            alloc,
            1,
            &[2, 2, 1],
            &[run(0, 1, 1), run(1, 3, 2), run(3, 6, 1)]
        )
    );
    assert!(rt;
        overwrites(
            alloc,
            2,
            &[3, 4],
            &[run(0, 2, 1), run(2, 3, 3), run(3, 4, 4), run(4, 6, 1)]
        )
    );
    assert!(rt; overwrites(alloc, 0, &[5, 5, 5, 5, 5, 5], &[run(0, 6, 5)]));
    assert!(rt; overwrites(alloc, 6, &[], &whole));
}

#[test]
fn reads_values_in_order(rt: HostRuntime) -> Result<(), AllocError> {
    let runs = island(rt.alloc())?;
    let mut reader = runs.read_from(1);
    assert_eq!(rt; reader.next(), 1);
    assert_eq!(rt; reader.next(), 2);
    assert_eq!(rt; reader.next(), 2);
    assert_eq!(rt; reader.next(), 1);
    Ok(())
}

/// Whether each of some values is at most the one at its place among others.
fn at_most(alloc: Global, low: &[u8], high: &[u16]) -> Result<bool, AllocError>
    requires low { length low.now ≤ 6 }
    requires high { length high.now ≤ 6 }
{
    let low = Runs::from_items(alloc, low, |value| *value)?;
    let high = Runs::from_items(alloc, high, |value| *value)?;
    Ok(low.all_with(&high, |v, w| v as u16 <= w))
}

#[test]
fn tests_pairs_of_values(rt: HostRuntime) -> Result<(), AllocError> {
    let alloc = rt.alloc();
    // Runs that end at the same places, at others, and inside one another.
    assert!(rt; at_most(alloc, &[1, 1, 2, 2, 1, 1], &[1, 1, 2, 2, 1, 1])?);
    assert!(rt; at_most(alloc, &[1, 1, 2, 2, 1, 1], &[1, 300, 300, 2, 2, 1])?);
    assert!(rt; at_most(alloc, &[3, 3, 3, 3, 3, 3], &[3, 3, 4, 5, 3, 3])?);
    assert!(rt; at_most(alloc, &[0, 1, 2, 3, 4, 5], &[5, 5, 5, 5, 5, 5])?);
    // One place that fails: the first, the last, and one inside a run of either.
    assert!(rt; !at_most(alloc, &[2, 1, 1], &[1, 1, 1])?);
    assert!(rt; !at_most(alloc, &[1, 1, 2], &[1, 1, 1])?);
    assert!(rt; !at_most(alloc, &[1, 1, 1, 1, 1, 1], &[1, 1, 1, 0, 1, 1])?);
    assert!(rt; !at_most(alloc, &[1, 1, 1, 2, 1, 1], &[1, 1, 1, 1, 1, 1])?);
    // The order of the two counts, and only the places that both have.
    assert!(rt; !at_most(alloc, &[3, 3, 3], &[1, 2, 3])?);
    assert!(rt; at_most(alloc, &[1, 1], &[1, 1, 0])?);
    assert!(rt; at_most(alloc, &[1, 1, 9], &[1, 1])?);
    assert!(rt; at_most(alloc, &[], &[])?);
    Ok(())
}
