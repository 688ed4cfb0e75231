ghost use Rattle.std.specs.Prelude.{◌≡◌, IfOk, length};

use std::alloc::{AllocError, Global};
use std::test::Fail;
use tb_lazy_events::Meeting;
use tb_lazy_rows::LazyRow;
use tb_perm::{Guard, Kind, Mark, Perm, Rel, Span, State, Tag};
use tb_ranges::Runs;
use tb_walk::EventTags;

/// A row of four bytes with one permission, accessed, and one mark.
fn row(alloc: Global, tag: u64, perm: Perm, mark: Mark) -> Result<LazyRow, AllocError>
    ensures tag { IfOk result (λ row. row.tag.0 ≡ tag) }
    ensures states { IfOk result (λ row. length row.states ≡ 4) }
    ensures marks { IfOk result (λ row. length row.marks ≡ 4) }
{
    let state = State {
        perm,
        accessed: true,
    };
    let states = Runs::new(alloc, 4, state)?;
    let marks = Runs::new(alloc, 4, mark)?;
    Ok(LazyRow {
        tag: Tag(tag),
        guard: Guard::Free,
        made: Span { lo: 0, hi: 0 },
        noted: false,
        states,
        marks,
    })
}

#[test]
fn rows_meet_a_read(rt: HostRuntime) -> Result<(), Fail> {
    let alloc = rt.alloc();
    let kinds = Runs::new(alloc, 4, Some(Kind::Read))?;
    let rows = [
        row(alloc, 1, Perm::Active, Mark::Nothing)?,
        row(alloc, 5, Perm::Frozen, Mark::Read)?,
        row(alloc, 9, Perm::Disabled, Mark::Write)?,
    ];
    let meeting = Meeting::new(&rows, &kinds);
    assert!(rt; !meeting.is_shut(1));
    assert!(rt; meeting.is_shut(5));
    assert!(rt; meeting.is_shut(9));
    assert!(rt; !meeting.is_shut(4));
    assert_eq!(rt; meeting.first_refusal(Rel::Local, 5), None);
    assert_eq!(rt; meeting.first_refusal(Rel::Local, 9), Some(0));
    assert_eq!(rt; meeting.first_refusal(Rel::Foreign, 9), None);
    Ok(())
}
