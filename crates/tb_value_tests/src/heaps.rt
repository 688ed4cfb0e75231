ghost use Rattle.std.specs.Prelude.{◌≡◌, ◌<◌, true};
ghost use Rattle.tb_types.specs.Table.{IsType};
ghost use Rattle.tb_types.specs.Extent.{fits};

use crate::types::add;
use std::alloc::Global;
use std::marker::Brand;
use std::sync::ledger::{Blank, Ledger};
use tb_alloc::Ptr;
use tb_bytes::ByteVal;
use tb_memory::{Heap, Stop};
use tb_perm::{BorrowTree, Span, Steps};
use tb_plain::PlainTree;
use tb_types::{IntKind, Ty, TyShape, Types};

const MADE: Span = Span { lo: 1, hi: 3 };

/// What a call stopped with.
fn stop_of<V: Drop>(done: Result<V, Stop>) -> Option<Stop> {
    match done {
        Ok(_) => None,
        Err(stop) => Some(stop),
    }
}

/// Where a variable of a type of four bytes lies, and what comes of a load before anything is stored, a store, a load of
/// it, a free of it, its end, and a load afterwards.
#[tactic(auto, using(crate::proofs::Known::pass_kept))]
fn variable<T: BorrowTree, L: Ledger>(
    alloc: Global,
    types: &Types,
    ty: Ty,
    steps: &mut Steps<L>,
) -> Option<(Ptr, [Option<Stop>; 6])>
    requires ty { IsType types.now ty }
    requires layout { fits types.now ty ≡ true }
{
    let bytes = [ByteVal::Init(5, None); 4];
    let (size, _) = types.size_align(ty);
    if size != 4 {
        return None;
    }
    let Ok(mut heap) = Heap::<T>::new(alloc) else {
        return None;
    };
    let Ok(ptr) = heap.local_live(types, ty, MADE) else {
        return None;
    };
    let before = stop_of(heap.load(types, ptr, ty, steps));
    let stored = stop_of(heap.store(types, ptr, ty, &bytes, steps));
    let after = stop_of(heap.load(types, ptr, ty, steps));
    let freed = stop_of(heap.free(types, ptr, ty, steps));
    let ended = stop_of(heap.local_dead(ptr, steps));
    let dead = stop_of(heap.load(types, ptr, ty, steps));
    Some((ptr, [before, stored, after, freed, ended, dead]))
}

/// The same of a block of the heap: a free with the size and alignment of its content, one with another size before it, and
/// one after it.
#[tactic(auto, using(crate::proofs::Known::pass_kept))]
fn block<T: BorrowTree, L: Ledger>(
    alloc: Global,
    types: &Types,
    ty: Ty,
    steps: &mut Steps<L>,
) -> Option<(Ptr, [Option<Stop>; 3])>
    requires ty { IsType types.now ty }
    requires layout { fits types.now ty ≡ true }
{
    let Ok(mut heap) = Heap::<T>::new(alloc) else {
        return None;
    };
    let Ok(ptr) = heap.new_box(types, ty, MADE) else {
        return None;
    };
    let wrong = stop_of(heap.raw_free(ptr, 5, 4, steps));
    let freed = stop_of(heap.free(types, ptr, ty, steps));
    let twice = stop_of(heap.free(types, ptr, ty, steps));
    Some((ptr, [wrong, freed, twice]))
}

/// What comes of both, of the first type of a table.
fn both_from<L: Ledger>(
    blank: Blank,
    alloc: Global,
    types: &Types,
) -> Option<([u64; 2], [Option<Stop>; 6], [Option<Stop>; 3])>
    requires name { blank.name ≡ L.name }
    requires parts { blank.parts ≡ L.parts }
    requires some { 0 < L.parts }
{
    let mut steps: Steps<L> = Steps::new(blank);
    if types.count() == 0 || !types.fits(Ty(0)) {
        return None;
    }
    let (local, first) = variable::<PlainTree, L>(alloc, types, Ty(0), &mut steps)?;
    let (boxed, second) = block::<PlainTree, L>(alloc, types, Ty(0), &mut steps)?;
    Some(([local.addr, boxed.addr], first, second))
}

/// The pointer to a block of a size of its own.
fn raw_block<T: BorrowTree>(alloc: Global, size: u64) -> Option<Result<Ptr, Stop>> {
    match Heap::<T>::new(alloc) {
        Ok(mut heap) => Some(heap.raw_new(size, 8, MADE)),
        Err(_) => None,
    }
}

#[test]
fn checks_stand_in_order(rt: HostRuntime) {
    let mut types = Types::new(rt.alloc());
    add(&mut types, TyShape::Int(IntKind::U32)).expect(&rt, "u32");
    let seen = both_from::<Brand>(Blank::new(1), rt.alloc(), &types).expect(&rt, "memory");
    assert_eq!(rt; seen.0, [65_536, 65_536]);
    let local = [
        Some(Stop::Uninit),
        None,
        None,
        Some(Stop::BadFree),
        None,
        Some(Stop::Dangling),
    ];
    assert_eq!(rt; seen.1, local);
    let block = [Some(Stop::BadFree), None, Some(Stop::Dangling)];
    assert_eq!(rt; seen.2, block);
}

#[test]
fn blocks_have_a_limit(rt: HostRuntime) {
    let most = raw_block::<PlainTree>(rt.alloc(), 16_777_216).expect(&rt, "memory");
    assert!(rt; most.is_ok());
    let more = raw_block::<PlainTree>(rt.alloc(), 16_777_217).expect(&rt, "memory");
    assert_eq!(rt; more, Err(Stop::LiveLimit));
}
