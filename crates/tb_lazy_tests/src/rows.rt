ghost use Rattle.std.specs.Prelude.{◌≡◌, IfOk, length};

use std::alloc::{AllocError, Global};
use std::test::Fail;
use tb_lazy_rows::LazyRow;
use tb_perm::{Guard, Kind, Mark, Perm, Rel, Span, State, Tag};
use tb_ranges::Runs;

/// A row of eight bytes: Frozen and marked Read everywhere, not accessed.
fn frozen(alloc: Global) -> Result<LazyRow, AllocError>
    ensures states { IfOk result (λ row. length row.states ≡ 8) }
    ensures marks { IfOk result (λ row. length row.marks ≡ 8) }
{
    let state = State {
        perm: Perm::Frozen,
        accessed: false,
    };
    let states = Runs::new(alloc, 8, state)?;
    let marks = Runs::new(alloc, 8, Mark::Read)?;
    Ok(LazyRow {
        tag: Tag(2),
        guard: Guard::Free,
        made: Span { lo: 0, hi: 0 },
        noted: false,
        states,
        marks,
    })
}

/// A read of the first four bytes and a write of the next two.
fn event(alloc: Global) -> Result<Runs<Option<Kind>>, AllocError>
    ensures { IfOk result (λ kinds. length kinds ≡ 8) }
{
    let mut kinds = Runs::new(alloc, 8, None)?;
    kinds.set(0, 4, Some(Kind::Read))?;
    kinds.set(4, 6, Some(Kind::Write))?;
    Ok(kinds)
}

#[test]
fn an_event_on_a_row(rt: HostRuntime) -> Result<(), Fail> {
    let kinds = event(rt.alloc())?;
    let mut row = frozen(rt.alloc())?;

    // A read mark does not leave the write alone. A foreign write is not refused, a local one is, at byte 4.
    assert!(rt; !row.is_shut(&kinds));
    assert_eq!(rt; row.first_refusal(Rel::Foreign, &kinds), None);
    assert_eq!(rt; row.first_refusal(Rel::Local, &kinds), Some(4));

    // Met as foreign, the written bytes become Disabled, and the tag leaves the event alone from then on.
    row.move_states(Rel::Foreign, &kinds)?;
    row.raise_marks(&kinds)?;
    assert_eq!(rt; row.states.runs().len(), 3);
    assert_eq!(rt; row.states.get(3).perm, Perm::Frozen);
    assert_eq!(rt; row.states.get(4).perm, Perm::Disabled);
    assert_eq!(rt; row.states.get(6).perm, Perm::Frozen);
    assert_eq!(rt; *row.marks.get(3), Mark::Read);
    assert_eq!(rt; *row.marks.get(5), Mark::Write);
    assert!(rt; row.is_shut(&kinds));

    // On the way of the event the marks at the written bytes are taken back.
    row.lower_marks(&kinds)?;
    assert_eq!(rt; *row.marks.get(3), Mark::Read);
    assert_eq!(rt; *row.marks.get(5), Mark::Nothing);
    Ok(())
}
