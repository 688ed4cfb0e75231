ghost use Rattle.std.specs.Prelude.{◌≡◌, ◌<◌, true};
ghost use Rattle.tb_types.specs.Table.{IsType};
ghost use Rattle.tb_types.specs.Extent.{fits};

use crate::types::add;
use std::alloc::Global;
use std::marker::Brand;
use std::sync::ledger::{Blank, Ledger};
use std::test::Fail;
use tb_alloc::Ptr;
use tb_bytes::ByteVal;
use tb_memory::{Heap, Stop};
use tb_new_tag::{Place, Retag};
use tb_perm::{
    Access, AllocId, BorrowTree, CellRange, Guard, Perm, Prov, Refusal, Report, Span, Steps, Tag,
};
use tb_plain::PlainTree;
use tb_types::{IntKind, Parts, Ty, TyShape, Types};

const MADE: Span = Span { lo: 1, hi: 3 };

/// What a call stopped with.
fn stop_of<V: Drop>(done: Result<V, Stop>) -> Option<Stop> {
    match done {
        Ok(_) => None,
        Err(stop) => Some(stop),
    }
}

/// What comes of a store to a variable of four bytes while a call guards a shared reference to it, of the store once that
/// call is over, and of a retag of that reference then; and the pointer that the next retag makes.
#[tactic(auto, using(crate::proofs::Known::pass_kept))]
fn guarded<T: BorrowTree, L: Ledger>(
    alloc: Global,
    types: &Types,
    ty: Ty,
    steps: &mut Steps<L>,
) -> Option<([Option<Stop>; 3], Ptr)>
    requires ty { IsType types.now ty }
    requires layout { fits types.now ty ≡ true }
{
    let bytes = [ByteVal::Init(5, None); 4];
    let (size, _) = types.size_align(ty);
    if size != 4 {
        return None;
    }
    let Ok(mut heap) = Heap::<T>::new(alloc) else {
        return None;
    };
    let Ok(ptr) = heap.local_live(types, ty, MADE) else {
        return None;
    };
    let Ok(()) = heap.begin_call() else {
        return None;
    };
    let how = Retag {
        pointee: ty,
        length: None,
        unique: false,
        guard: Guard::Strong,
    };
    let Ok(shared) = heap.retag(types, ptr, how, MADE, steps) else {
        return None;
    };
    let early = stop_of(heap.store(types, ptr, ty, &bytes, steps));
    let Ok(()) = heap.end_call(steps) else {
        return None;
    };
    let late = stop_of(heap.store(types, ptr, ty, &bytes, steps));
    let plain = Retag {
        guard: Guard::Free,
        ..how
    };
    let again = stop_of(heap.retag(types, shared, plain, MADE, steps));
    let Ok(next) = heap.retag(types, ptr, plain, MADE, steps) else {
        return None;
    };
    Some(([early, late, again], next))
}

/// The same of the first type of a table.
fn guarded_from<L: Ledger>(
    blank: Blank,
    alloc: Global,
    types: &Types,
) -> Option<([Option<Stop>; 3], Ptr)>
    requires name { blank.name ≡ L.name }
    requires parts { blank.parts ≡ L.parts }
    requires some { 0 < L.parts }
{
    let mut steps: Steps<L> = Steps::new(blank);
    if types.count() == 0 || !types.fits(Ty(0)) {
        return None;
    }
    guarded::<PlainTree, L>(alloc, types, Ty(0), &mut steps)
}

/// A report of tag 2 at the first byte.
fn report(refusal: Refusal, access: Access, through: u64, perm: Perm) -> Option<Stop> {
    let report = Report {
        refusal,
        access,
        through: Tag(through),
        byte: 0,
        tag: Tag(2),
        perm,
        made: MADE,
    };
    Some(Stop::Borrow(AllocId(1), report))
}

#[test]
fn guards_go_with_their_call(rt: HostRuntime) {
    let mut types = Types::new(rt.alloc());
    add(&mut types, TyShape::Int(IntKind::U32)).expect(&rt, "u32");
    let (seen, next) = guarded_from::<Brand>(Blank::new(1), rt.alloc(), &types).expect(
        &rt, "memory",
    );
    let early = report(Refusal::Protected, Access::Write, 1, Perm::Frozen);
    let again = report(Refusal::ReadForbidden, Access::Reborrow, 2, Perm::Disabled);
    assert_eq!(rt; seen, [early, None, again]);
    // The refused retag drew no tag.
    let prov = Prov {
        alloc: AllocId(1),
        tag: Tag(3),
    };
    assert_eq!(rt; next.prov, Some(prov));
}

/// Whether the tag that a retag makes at byte 10 may do this at the bytes in its range and outside of it, with these cells.
fn makes(alloc: Global, types: &Types, how: Retag, perms: [Perm; 2], cells: &[CellRange]) -> bool {
    if how.pointee.0 >= types.count() || !types.fits(how.pointee) {
        return false;
    }
    if how.size(types) > 100 {
        return false;
    }
    let place = Place {
        parent: Tag(1),
        tag: Tag(2),
        offset: 10,
        made: MADE,
    };
    match how.new_tag(alloc, types, place) {
        Ok(new) => [new.perm, new.outside] == perms && new.cells.as_slice() == cells,
        Err(_) => false,
    }
}

#[test]
fn each_element_has_its_cells(rt: HostRuntime) -> Result<(), Fail> {
    let mut types = Types::new(rt.alloc());
    let byte = add(&mut types, TyShape::Int(IntKind::U8)).expect(&rt, "u8");
    let cell = add(&mut types, TyShape::Cell(byte)).expect(&rt, "Cell<u8>");
    let parts = Parts::from_vec([byte, cell].to_vec(rt.alloc())?);
    let pair = add(&mut types, TyShape::Tuple(parts)).expect(&rt, "(u8, Cell<u8>)");
    let shared = Retag {
        pointee: pair,
        length: Some(2),
        unique: false,
        guard: Guard::Strong,
    };
    let cells = [CellRange { lo: 11, hi: 12 }, CellRange { lo: 13, hi: 14 }];
    assert!(rt;
        makes(
            rt.alloc(),
            &types,
            shared,
            [Perm::Frozen, Perm::Cell],
            &cells
        )
    );
    let unique = Retag {
        unique: true,
        guard: Guard::Free,
        ..shared
    };
    let both = [Perm::ReservedIm, Perm::ReservedIm];
    assert!(rt; makes(rt.alloc(), &types, unique, both, &[]));
    let boxed = Retag {
        guard: Guard::Weak,
        ..unique
    };
    let both = [Perm::Reserved, Perm::Reserved];
    assert!(rt; makes(rt.alloc(), &types, boxed, both, &[]));
    Ok(())
}
