use std::test::Fail;
use tb_diag::report;
use tb_eval::{Outcome, Panic};
use tb_heap::Stop;
use tb_perm::{Access, AllocId, Perm, Refusal, Report, Span, Tag};

const SOURCE: &[u8] = b"ab\ncde\n\nf";

#[test]
fn ends_and_places(rt: HostRuntime) -> Result<(), Fail> {
    let at = |lo, hi| Span { lo, hi };
    let rows: [(Outcome, &[u8]); 10] = [
        (Outcome::Finished, b""),
        (Outcome::StepLimit, b"stopped: step limit\n"),
        (Outcome::WriteFault, b"write fault\n"),
        (Outcome::Memory, b"out of memory\n"),
        (
            Outcome::Panic(Panic::Overflow, at(0, 1)),
            b"panic: overflow at 1:1-1:2\n",
        ),
        (
            Outcome::Panic(Panic::Overflow, at(2, 3)),
            b"panic: overflow at 1:3-2:1\n",
        ),
        (
            Outcome::Panic(Panic::Overflow, at(4, 7)),
            b"panic: overflow at 2:2-3:1\n",
        ),
        (
            Outcome::Undefined(Stop::Dangling, at(8, 9)),
            b"undefined behaviour: dangling pointer at 4:1-4:2\n",
        ),
        (
            Outcome::Undefined(Stop::Uninit, at(3, 6)),
            b"undefined behaviour: uninitialised bytes at 2:1-2:4\n",
        ),
        (
            Outcome::Undefined(Stop::Uninit, at(9, 4_294_967_295)),
            b"undefined behaviour: uninitialised bytes at 4:2-4:2\n",
        ),
    ];
    for (outcome, wanted) in rows {
        let text = report(rt.alloc(), SOURCE, &outcome)?;
        assert_eq!(rt; text.as_slice(), wanted);
    }
    Ok(())
}

/// The report of an access that tag 7 refuses.
fn refused(refusal: Refusal, access: Access, perm: Perm) -> Outcome {
    let report = Report {
        refusal,
        access,
        through: Tag(12),
        byte: 3,
        tag: Tag(7),
        perm,
        made: Span { lo: 0, hi: 2 },
    };
    Outcome::Undefined(Stop::Borrow(AllocId(5), report), Span { lo: 3, hi: 6 })
}

#[test]
fn refused_accesses(rt: HostRuntime) -> Result<(), Fail> {
    let rows: [(Refusal, Access, Perm, &[u8]); 7] = [
        (
            Refusal::ReadForbidden,
            Access::Read,
            Perm::Disabled,
            b"undefined behaviour: borrow rules at 2:1-2:4\n  read forbidden: read through tag 12 at byte 3 of allocation 5; tag 7 is Disabled, made at 1:1-1:3\n",
        ),
        (
            Refusal::WriteForbidden,
            Access::Write,
            Perm::Frozen,
            b"undefined behaviour: borrow rules at 2:1-2:4\n  write forbidden: write through tag 12 at byte 3 of allocation 5; tag 7 is Frozen, made at 1:1-1:3\n",
        ),
        (
            Refusal::Protected,
            Access::Reborrow,
            Perm::Reserved,
            b"undefined behaviour: borrow rules at 2:1-2:4\n  protected: reborrow through tag 12 at byte 3 of allocation 5; tag 7 is Reserved, made at 1:1-1:3\n",
        ),
        (
            Refusal::StrongDealloc,
            Access::Free,
            Perm::Active,
            b"undefined behaviour: borrow rules at 2:1-2:4\n  strong protector: free through tag 12 at byte 3 of allocation 5; tag 7 is Active, made at 1:1-1:3\n",
        ),
        (
            Refusal::Protected,
            Access::CallEnd,
            Perm::Conflicted,
            b"undefined behaviour: borrow rules at 2:1-2:4\n  protected: call end through tag 12 at byte 3 of allocation 5; tag 7 is Reserved conflicted, made at 1:1-1:3\n",
        ),
        (
            Refusal::WriteForbidden,
            Access::Write,
            Perm::ReservedIm,
            b"undefined behaviour: borrow rules at 2:1-2:4\n  write forbidden: write through tag 12 at byte 3 of allocation 5; tag 7 is ReservedIM, made at 1:1-1:3\n",
        ),
        (
            Refusal::Protected,
            Access::Write,
            Perm::Cell,
            b"undefined behaviour: borrow rules at 2:1-2:4\n  protected: write through tag 12 at byte 3 of allocation 5; tag 7 is Cell, made at 1:1-1:3\n",
        ),
    ];
    for (refusal, access, perm, wanted) in rows {
        let text = report(rt.alloc(), SOURCE, &refused(refusal, access, perm))?;
        assert_eq!(rt; text.as_slice(), wanted);
    }
    Ok(())
}
