ghost use Rattle.std.specs.Prelude.{◌≡◌, ◌≢◌, ◌<◌, ◌≤◌, length, IsTrue, OnOk, All, false};
ghost use Rattle.tb_perm.specs.Rows.{Row, HasTag};
ghost use Rattle.tb_perm.specs.Calls.{IsTree};
ghost use Rattle.tb_prune.specs.Guards.{GuardsAre};
ghost use Rattle.tb_prune_tests.specs.Ready.{IsReady};

use sqlite_items::Items;
use std::alloc::Global;
use std::marker::Brand;
use std::process::Abort;
use std::sync::ledger::{Blank, Ledger};
use tb_perm::{
    Access, AllocId, BorrowTree, Guard, Kind, NewTag, Perm, Prov, PruneTree, Refusal, Report, Span,
    Steps, Tag, TreeError,
};
use tb_plain::PlainTree;
use tb_protect::Protectors;
use tb_prune::Prunable;

/// One step on a tree of two bytes. A new tag has the permission at every byte, and has accessed none. A prune
/// reaches up to two tags; tag 0 stands for none.
#[derive(Clone, Copy)]
enum Step {
    Access(u64, u32, u32, Kind),
    Retag(u64, u64, Perm, Guard),
    Prune(u64, u64),
}

const ALLOC: AllocId = AllocId(1);

const MADE: Span = Span { lo: 3, hi: 5 };

/// Whether the tag has a row.
fn has_tag(tree: &PlainTree, tag: Tag) -> bool
    ensures { IsTrue result → HasTag tree.now.rows tag.0 }
{
    let mut at = tree.greatest();
    loop {
        if at.0 == tag.0 {
            return true;
        }
        match tree.below(at) {
            Some(next) => at = next,
            None => return false,
        }
    }
}

/// Carries a step out where the tree allows it; a step that makes no sense is answered Memory.
fn play<L: Ledger>(
    alloc: Global,
    tree: &mut PlainTree,
    protectors: &mut Protectors,
    step: Step,
    steps: &mut Steps<L>,
) -> Result<(), TreeError>
    requires { IsReady tree.old protectors.old }
    ensures { OnOk result (IsReady tree.new protectors.new) }
{
    match step {
        Step::Access(tag, lo, hi, kind) => {
            if !has_tag(tree, Tag(tag)) || lo > hi || hi > 2 {
                return Err(TreeError::Memory);
            }
            tree.access(Tag(tag), lo, hi, kind, steps)
        }
        Step::Retag(parent, tag, perm, guard) => {
            play_retag(
                alloc,
                tree,
                protectors,
                Tag(parent),
                Tag(tag),
                perm,
                guard,
                steps,
            )
        }
        Step::Prune(first, second) => {
            reach(tree, protectors, Tag(first));
            reach(tree, protectors, Tag(second));
            let _ = tree.prune(ALLOC, protectors);
            Ok(())
        }
    }
}

/// Notes the tag, if it is there.
fn reach(tree: &mut PlainTree, protectors: &Protectors, tag: Tag)
    requires { IsReady tree.old protectors.now }
    ensures { IsReady tree.new protectors.now }
{
    if has_tag(tree, tag) {
        tree.note_reached(tag);
    }
}

fn is_free(guard: Guard) -> bool
    ensures yes { IsTrue result → guard ≡ Guard.Free }
    ensures not { result ≡ false → guard ≢ Guard.Free }
{
    match guard {
        Guard::Free => true,
        Guard::Weak | Guard::Strong => false,
    }
}

/// Whether the tag is above all tags of the tree.
fn is_above(tree: &PlainTree, tag: Tag) -> bool
    ensures { IsTrue result → All (λ (row : Row). row.tag < tag.0) tree.now.rows }
{
    tree.greatest().0 < tag.0
}

fn play_retag<L: Ledger>(
    alloc: Global,
    tree: &mut PlainTree,
    protectors: &mut Protectors,
    parent: Tag,
    tag: Tag,
    perm: Perm,
    guard: Guard,
    steps: &mut Steps<L>,
) -> Result<(), TreeError>
    requires { IsReady tree.old protectors.old }
    ensures { OnOk result (IsReady tree.new protectors.new) }
{
    let prov = Prov { alloc: ALLOC, tag };
    if !has_tag(tree, parent) || !is_above(tree, tag) || !is_free(protectors.kind_of(prov)) {
        return Err(TreeError::Memory);
    }
    let new = NewTag {
        parent,
        tag,
        lo: 0,
        hi: 0,
        perm,
        outside: perm,
        cells: Items::from_vec(Vec::new(alloc)),
        guard,
        made: MADE,
    };
    tree.retag(new, steps)?;
    if is_free(guard) {
        return Ok(());
    }
    match protectors.protect(prov, guard) {
        Ok(()) => Ok(()),
        Err(_) => Err(TreeError::Memory),
    }
}

/// Carries steps out one after another, up to the first that is refused.
fn run<L: Ledger>(
    alloc: Global,
    tree: &mut PlainTree,
    protectors: &mut Protectors,
    list: &[Step],
    steps: &mut Steps<L>,
) -> Result<(), TreeError>
    requires { IsReady tree.old protectors.old }
{
    for step in list.iter() {
        play(alloc, tree, protectors, *step, steps)?;
    }
    Ok(())
}

/// Whether the tree has exactly these tags, which fall.
fn has_exactly(tree: &PlainTree, falling: &[u64]) -> bool {
    if tree.count() != falling.len() as u64 {
        return false;
    }
    for tag in falling.iter() {
        if !has_tag(tree, Tag(*tag)) {
            return false;
        }
    }
    true
}

/// What the steps end with on a new tree with root 1, and whether it has exactly these tags then.
fn end_of(alloc: Global, list: &[Step], falling: &[u64]) -> (Result<(), TreeError>, bool) {
    outcome::<Brand>(Blank::new(1), alloc, list, falling)
}

/// The same with a ledger for the steps.
fn outcome<L: Ledger>(
    blank: Blank,
    alloc: Global,
    list: &[Step],
    falling: &[u64],
) -> (Result<(), TreeError>, bool)
    requires name { blank.name ≡ L.name }
    requires parts { blank.parts ≡ L.parts }
    requires some { 0 < L.parts }
{
    let mut steps: Steps<L> = Steps::new(blank);
    let Ok(mut tree) = PlainTree::root(alloc, 2, Tag(1), MADE) else {
        return (Err(TreeError::Memory), false);
    };
    let Ok(mut protectors) = Protectors::new(alloc) else {
        return (Err(TreeError::Memory), false);
    };
    let Ok(()) = protectors.push_frame() else {
        return (Err(TreeError::Memory), false);
    };
    let ended = run(alloc, &mut tree, &mut protectors, list, &mut steps);
    (ended, has_exactly(&tree, falling))
}

fn unique(parent: u64, tag: u64) -> Step {
    Step::Retag(parent, tag, Perm::Reserved, Guard::Free)
}

fn perm(parent: u64, tag: u64, perm: Perm) -> Step {
    Step::Retag(parent, tag, perm, Guard::Free)
}

fn read(tag: u64) -> Step {
    Step::Access(tag, 0, 2, Kind::Read)
}

fn write(tag: u64) -> Step {
    Step::Access(tag, 0, 2, Kind::Write)
}

fn refused(
    refusal: Refusal,
    access: Access,
    through: u64,
    tag: u64,
    perm: Perm,
) -> Result<(), TreeError> {
    Err(TreeError::Borrow(Report {
        refusal,
        access,
        through: Tag(through),
        byte: 0,
        tag: Tag(tag),
        perm,
        made: MADE,
    }))
}

#[test]
fn leaves_and_folds(rt: HostRuntime) {
    let alloc = rt.alloc();
    // Nothing is reached: the root is left, though others have accessed bytes.
    let list = [unique(1, 2), write(2), unique(2, 3), Step::Prune(0, 0)];
    assert_eq!(rt; end_of(alloc, &list, &[1]), (Ok(()), true));

    // Reservations above each other fold into the lowest.
    let list = [unique(1, 2), unique(2, 3), unique(3, 4), Step::Prune(4, 0)];
    assert_eq!(rt; end_of(alloc, &list, &[4, 1]), (Ok(()), true));

    // One in conflict counts as a reservation.
    let list = [
        perm(1, 2, Perm::Conflicted),
        unique(2, 3),
        Step::Prune(3, 0),
    ];
    assert_eq!(rt; end_of(alloc, &list, &[3, 1]), (Ok(()), true));

    // A reservation with interior mutability folds into one without, and not the other way round.
    let list = [
        perm(1, 2, Perm::ReservedIm),
        unique(2, 3),
        Step::Prune(3, 0),
    ];
    assert_eq!(rt; end_of(alloc, &list, &[3, 1]), (Ok(()), true));
    let list = [
        unique(1, 2),
        perm(2, 3, Perm::ReservedIm),
        Step::Prune(3, 0),
    ];
    assert_eq!(rt; end_of(alloc, &list, &[3, 2, 1]), (Ok(()), true));

    // What allows everything folds into anything, and nothing else into it.
    let list = [perm(1, 2, Perm::Cell), unique(2, 3), Step::Prune(3, 0)];
    assert_eq!(rt; end_of(alloc, &list, &[3, 1]), (Ok(()), true));
    let list = [unique(1, 2), perm(2, 3, Perm::Cell), Step::Prune(3, 0)];
    assert_eq!(rt; end_of(alloc, &list, &[3, 2, 1]), (Ok(()), true));
}

#[test]
fn what_stays(rt: HostRuntime) {
    let alloc = rt.alloc();
    // An active tag does not fold into a reservation, at one byte of two.
    let list = [
        unique(1, 2),
        Step::Access(2, 1, 2, Kind::Write),
        unique(2, 3),
        Step::Prune(3, 0),
    ];
    assert_eq!(rt; end_of(alloc, &list, &[3, 2, 1]), (Ok(()), true));

    // Two topmost descendants hold their parent; when one of them goes, the parent goes.
    let list = [unique(1, 2), unique(2, 3), unique(2, 4), Step::Prune(3, 4)];
    assert_eq!(rt; end_of(alloc, &list, &[4, 3, 2, 1]), (Ok(()), true));
    let list = [
        unique(1, 2),
        unique(2, 3),
        unique(2, 4),
        Step::Prune(3, 4),
        Step::Prune(4, 0),
    ];
    assert_eq!(rt; end_of(alloc, &list, &[4, 1]), (Ok(()), true));

    // A guarded leaf stays, and its parent folds into it.
    let list = [
        unique(1, 2),
        Step::Retag(2, 3, Perm::Reserved, Guard::Strong),
        Step::Prune(0, 0),
    ];
    assert_eq!(rt; end_of(alloc, &list, &[3, 1]), (Ok(()), true));
}

#[test]
fn reports_after(rt: HostRuntime) {
    let alloc = rt.alloc();
    // A frozen tag is not reached, and its child is. It stays and refuses the write.
    let list = [
        unique(1, 2),
        write(2),
        read(1),
        unique(2, 3),
        Step::Prune(3, 0),
        write(3),
    ];
    assert_eq!(rt;
        end_of(alloc, &list, &[3, 2, 1]),
        (
            refused(Refusal::WriteForbidden, Access::Write, 3, 2, Perm::Frozen),
            true
        )
    );

    // An active tag goes above its disabled child, which refuses as before.
    let list = [
        unique(1, 2),
        unique(2, 3),
        write(2),
        Step::Prune(3, 0),
        read(3),
    ];
    assert_eq!(rt;
        end_of(alloc, &list, &[3, 1]),
        (
            refused(Refusal::ReadForbidden, Access::Read, 3, 3, Perm::Disabled),
            true
        )
    );
}
