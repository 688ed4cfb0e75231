ghost use Rattle.std.specs.Prelude.{◌≡◌, ◌≤◌, length, nat_lt, true, false};
ghost use Rattle.std.specs.Option.{option_copied};
ghost use Rattle.std.specs.List.{AllByRecursion, AllWithin};
ghost use Rattle.tb_lazy_rows.specs.declared.row.LazyRow.{LazyRow};
ghost use Rattle.tb_lazy_events.specs.Rows.{AreRising, IsSized, row_of};

use std::marker::Model;
use tb_lazy_rows::LazyRow;
use tb_perm::{Kind, Rel};
use tb_ranges::Runs;
use tb_walk::EventTags;

/// The rows of a tree as an event meets them: what happens at each byte. Contracts see both.
#[derive(Drop)]
pub struct Meeting<'a> {
    rows: &'a [LazyRow],
    kinds: &'a Runs<Option<Kind>>,
}

impl<'a> Model for Meeting<'a> {
    ghost use Rattle.std.specs.Prelude.{length};
    ghost use Rattle.std.specs.List.{AllByRecursion};
    ghost use Rattle.tb_lazy_events.specs.Rows.{Met, AreRising, IsSized};

    ghost Value = { Met };

    ghost view = { λ m. record { rows = m.rows.now; kinds = m.kinds.now } };

    ghost invariant = { λ m. AreRising m.rows.now × AllByRecursion (IsSized (length m.kinds.now)) m.rows.now };
}

impl<'a> Meeting<'a> {
    /// An event that meets rows, whose tags rise, with something at each of their bytes.
    pub fn new(rows: &'a [LazyRow], kinds: &'a Runs<Option<Kind>>) -> Meeting<'a>
        requires rising { AreRising rows.now }
        requires sized { AllByRecursion (IsSized (length kinds.now)) rows.now }
        ensures { result ≡ record { rows = rows.now; kinds = kinds.now } }
    {
        Meeting { rows, kinds }
    }
}

impl<'a> EventTags for Meeting<'a> {
    ghost use Rattle.tb_lazy_events.specs.Rows.{is_shut_in, refused_in};

    ghost shut = { λ met key. is_shut_in met key };

    ghost refused = { λ met rel key. refused_in met rel key };

    fn is_shut(&self, key: u64) -> bool {
        match look_up(self.rows, key) {
            Some(row) => row.is_shut(self.kinds),
            None => false,
        }
    }

    fn first_refusal(&self, rel: Rel, key: u64) -> Option<u32> {
        match look_up(self.rows, key) {
            Some(row) => row.first_refusal(rel, self.kinds),
            None => None,
        }
    }
}

/// The row of a tag, by a binary search.
fn look_up(rows: &[LazyRow], key: u64) -> Option<&LazyRow>
    requires { AreRising rows.now }
    ensures { option_copied result ≡ row_of rows.now key }
{
    let at = place(rows, key);
    if at >= rows.len() {
        return None;
    }
    if rows[at].tag.0 != key {
        return None;
    }
    Some(&rows[at])
}

/// Where the row of a tag stands, or would have to be put.
fn place(rows: &[LazyRow], key: u64) -> usize
    requires { AreRising rows.now }
    ensures bound { result ≤ length rows.now }
    ensures below { AllWithin (λ (row : LazyRow). nat_lt row.tag.0 key ≡ true) rows.now 0 result }
    ensures above { AllWithin (λ (row : LazyRow). nat_lt row.tag.0 key ≡ false) rows.now result (length rows.now) }
{
    rows.partition_point(|row| row.tag.0 < key)
}
