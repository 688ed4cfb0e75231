ghost use Rattle.std.specs.Prelude.{◌≡◌, ◌<◌};

use std::marker::Brand;
use std::sync::ledger::{Blank, Ledger};
use tb_perm::{Kind, Mark, Perm, Refusal, Rel, State, Steps, Table, implies, step, strength};

#[test]
fn steps_by_the_whole_table(rt: HostRuntime) {
    let table = Table::new();
    for row in table.rows.iter() {
        let before = State {
            perm: row.perm,
            accessed: false,
        };
        let moved = step(before, row.protected, row.rel, row.kind);
        let after = moved.map(|s| s.perm);
        assert_eq!(rt; after, row.moved);
    }
}

#[test]
fn keeps_what_a_protected_tag_has_accessed(rt: HostRuntime) {
    let active = State {
        perm: Perm::Active,
        accessed: true,
    };
    assert_eq!(rt;
        step(active, true, Rel::Foreign, Kind::Read),
        Err(Refusal::Protected)
    );
    let cell = State {
        perm: Perm::Cell,
        accessed: true,
    };
    assert_eq!(rt; step(cell, true, Rel::Foreign, Kind::Write), Ok(cell));
    assert_eq!(rt; strength(active, false), Mark::Nothing);
    assert_eq!(rt; strength(cell, true), Mark::Write);
    assert!(rt; implies(Perm::Reserved, Perm::Conflicted, true));
    assert!(rt; !implies(Perm::Active, Perm::Reserved, true));
}

fn two_ticks<L: Ledger>(blank: Blank) -> u8
    requires name { blank.name ≡ L.name }
    requires parts { blank.parts ≡ L.parts }
    requires some { 0 < L.parts }
{
    let mut steps: Steps<L> = Steps::new(blank);
    steps.tick();
    steps.tick();
    2
}

#[test]
fn ticks(rt: HostRuntime) {
    assert_eq!(rt; two_ticks::<Brand>(Blank::new(1)), 2);
}
