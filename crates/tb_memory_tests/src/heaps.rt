ghost use Rattle.std.specs.Prelude.{◌≡◌, ◌<◌};

use std::alloc::Global;
use std::marker::Brand;
use std::sync::ledger::{Blank, Ledger};
use tb_heap::{Heap, Stop, Value};
use tb_perm::{AllocId, BorrowTree, Prov, Span, Steps, Tag};
use tb_plain::PlainTree;

const MADE: Span = Span { lo: 1, hi: 3 };

/// The pointer to a new allocation.
fn root(alloc: u64, tag: u64) -> Result<Prov, Stop> {
    Ok(Prov {
        alloc: AllocId(alloc),
        tag: Tag(tag),
    })
}

/// Three births, in a memory of any kind of tree.
fn births<T: BorrowTree>(alloc: Global) -> [Result<Prov, Stop>; 3] {
    let mut heap: Heap<T> = Heap::new(alloc);
    [
        heap.local_live(4, MADE),
        heap.local_live(0, MADE),
        heap.local_live(8, MADE),
    ]
}

#[test]
fn numbers(rt: HostRuntime) {
    let found = births::<PlainTree>(rt.alloc());
    assert_eq!(rt; found, [root(1, 1), root(2, 2), root(3, 3)]);
}

/// What comes of a load, a store and a deallocation through a pointer to nothing.
fn through_nothing<T: BorrowTree, L: Ledger>(
    alloc: Global,
    steps: &mut Steps<L>,
) -> (Result<Value, Stop>, Result<(), Stop>, Result<(), Stop>) {
    let mut heap: Heap<T> = Heap::new(alloc);
    (
        heap.load(None, steps),
        heap.store(None, Value::Int(1), steps),
        heap.local_dead(None, steps),
    )
}

fn through_nothing_from<L: Ledger>(
    blank: Blank,
    alloc: Global,
) -> (Result<Value, Stop>, Result<(), Stop>, Result<(), Stop>)
    requires name { blank.name ≡ L.name }
    requires parts { blank.parts ≡ L.parts }
    requires some { 0 < L.parts }
{
    let mut steps: Steps<L> = Steps::new(blank);
    through_nothing::<PlainTree, L>(alloc, &mut steps)
}

#[test]
fn pointers_to_nothing(rt: HostRuntime) {
    let (loaded, stored, freed) = through_nothing_from::<Brand>(Blank::new(1), rt.alloc());
    assert_eq!(rt; loaded, Err(Stop::Dangling));
    assert_eq!(rt; stored, Err(Stop::Dangling));
    assert_eq!(rt; freed, Err(Stop::Dangling));
}
