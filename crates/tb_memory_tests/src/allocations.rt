use std::test::Fail;
use tb_alloc::{AccessFault, AllocError, AllocKind, Allocs, FreeFault, OffsetFault, Ptr};
use tb_perm::{AllocId, Prov, Span, Tag};

fn place(lo: u32) -> Span {
    Span { lo, hi: lo }
}

fn of(number: u64) -> Option<Prov> {
    Some(Prov {
        alloc: AllocId(number),
        tag: Tag(1),
    })
}

#[test]
fn places_by_size_and_alignment(rt: HostRuntime) -> Result<(), Fail> {
    let mut table = Allocs::new(rt.alloc());
    // 65,540 + 16; 65,556 + 16, and up to 8 times 8,197; the least multiple of 2^31; 2^31 + 16, and
    // up to 7 times 306,783,381.
    let wanted = [
        (4, 4, 65_536),
        (0, 1, 65_556),
        (1, 8, 65_576),
        (0, 2_147_483_648, 2_147_483_648),
        (16, 7, 2_147_483_667),
    ];
    for (size, align, base) in wanted {
        assert!(rt; align > 0);
        let id = table.allocate(size, align, AllocKind::Stack, place(1))?;
        let found = table.get(id).map(|entry| (entry.base, entry.size));
        assert_eq!(rt; found, Some((base, size)));
    }
    assert_eq!(rt; table.count(), 5);
    assert_eq!(rt; table.live_bytes(), 21);
    assert_eq!(rt; table.least_heap(), None);
    Ok(())
}

#[test]
fn stops_at_the_limit(rt: HostRuntime) -> Result<(), Fail> {
    let mut table = Allocs::new(rt.alloc());
    // Each with what is live after it: up to the last byte below the limit, and one more.
    let wanted = [
        (4, true, 4),
        (16_777_211, true, 16_777_215),
        (2, false, 16_777_215),
        (1, true, 16_777_216),
        (1, false, 16_777_216),
        (0, true, 16_777_216),
    ];
    for (size, fits, live) in wanted {
        let answer = table.allocate(size, 1, AllocKind::Heap, place(size));
        assert_eq!(rt; answer == Err(AllocError::LiveLimit), !fits);
        assert_eq!(rt; table.live_bytes(), live);
    }
    assert_eq!(rt; table.least_heap(), Some(place(4)));
    table.kill(AllocId(1));
    table.kill(AllocId(1));
    table.kill(AllocId(9));
    assert_eq!(rt; table.live_bytes(), 16_777_212);
    assert_eq!(rt; table.least_heap(), Some(place(16_777_211)));
    // 65,540 + 16 and 16,777,211 bytes; 16 and 1 byte; 16 and none; 16.
    let id = table.allocate(4, 1, AllocKind::Stack, place(0))?;
    assert_eq!(rt; id, AllocId(5));
    let base = table.get(id).map(|entry| entry.base);
    assert_eq!(rt; base, Some(16_842_816));
    Ok(())
}

#[test]
fn checks_in_order(rt: HostRuntime) -> Result<(), Fail> {
    let mut table = Allocs::new(rt.alloc());
    // Bytes 65,536 to 65,543, none at 65,560, and 65,576 to 65,579.
    for (size, align) in [(8, 8), (0, 1), (4, 4)] {
        assert!(rt; align > 0);
        table.allocate(size, align, AllocKind::Stack, place(0))?;
    }
    table.kill(AllocId(3));
    let cases = [
        (65_536, of(1), 8, 8, Ok(0)),
        (65_543, of(1), 1, 1, Ok(7)),
        (65_544, of(1), 1, 1, Err(AccessFault::OutOfBounds)),
        (65_544, of(1), 0, 8, Ok(0)),
        (65_535, of(1), 1, 1, Err(AccessFault::OutOfBounds)),
        (65_536, of(1), 9, 1, Err(AccessFault::OutOfBounds)),
        (65_536, of(1), u128::MAX, 1, Err(AccessFault::OutOfBounds)),
        (65_540, of(1), 4, 8, Err(AccessFault::Misaligned)),
        (65_540, of(1), 8, 8, Err(AccessFault::OutOfBounds)),
        (65_560, of(2), 1, 1, Err(AccessFault::OutOfBounds)),
        (65_576, of(3), 4, 4, Err(AccessFault::Dangling)),
        (65_536, of(4), 1, 1, Err(AccessFault::Dangling)),
        (65_536, of(0), 1, 1, Err(AccessFault::Dangling)),
        (65_537, None, 1, 2, Err(AccessFault::Dangling)),
        (65_537, None, 0, 2, Err(AccessFault::Misaligned)),
        (12, None, 0, 4, Ok(0)),
    ];
    for (addr, prov, size, align, wanted) in cases {
        assert!(rt; align > 0);
        let answer = table.check(Ptr { addr, prov }, size, align);
        assert_eq!(rt; answer, wanted, "at {addr} for {size}");
    }
    assert!(rt; table.live_of(of(1)).is_some());
    assert!(rt; table.live_of(of(3)).is_none());
    Ok(())
}

#[test]
fn moves_pointers_in_order(rt: HostRuntime) -> Result<(), Fail> {
    let mut table = Allocs::new(rt.alloc());
    // Bytes 65,536 to 65,543, and 65,560 to 65,563, which are dead.
    for (size, align) in [(8, 8), (4, 1)] {
        assert!(rt; align > 0);
        table.allocate(size, align, AllocKind::Stack, place(0))?;
    }
    table.kill(AllocId(2));
    let cases = [
        (65_536, of(1), 8, Ok(65_544)),
        (65_536, of(1), 9, Err(OffsetFault::OutOfBounds)),
        (65_544, of(1), -8, Ok(65_536)),
        (65_544, of(1), -9, Err(OffsetFault::OutOfBounds)),
        (65_540, of(1), -1, Ok(65_539)),
        (65_540, of(1), i128::MAX, Err(OffsetFault::OutOfBounds)),
        (65_540, of(1), i128::MIN, Err(OffsetFault::OutOfBounds)),
        (65_545, of(1), -1, Err(OffsetFault::OutOfBounds)),
        (65_535, of(1), 1, Err(OffsetFault::OutOfBounds)),
        (65_545, of(1), 0, Ok(65_545)),
        (65_560, of(2), 1, Err(OffsetFault::Dangling)),
        (65_560, of(2), 0, Ok(65_560)),
        (65_536, of(3), 1, Err(OffsetFault::Dangling)),
        (65_536, None, 1, Err(OffsetFault::Dangling)),
        (12, None, 0, Ok(12)),
    ];
    for (addr, prov, distance, wanted) in cases {
        let answer = table.offset(Ptr { addr, prov }, distance);
        assert_eq!(rt;
            answer.map(|ptr| ptr.addr),
            wanted,
            "at {addr} by {distance}"
        );
    }
    Ok(())
}

#[test]
fn frees_in_order(rt: HostRuntime) -> Result<(), Fail> {
    let mut table = Allocs::new(rt.alloc());
    // The heap's bytes 65,536 to 65,543, a variable's 65,560 to 65,563, and a dead block.
    table.allocate(8, 8, AllocKind::Heap, place(0))?;
    table.allocate(4, 4, AllocKind::Stack, place(0))?;
    table.allocate(4, 4, AllocKind::Heap, place(0))?;
    table.kill(AllocId(3));
    let cases = [
        (65_536, of(1), 8, 8, Ok(())),
        (65_537, of(1), 8, 8, Err(FreeFault::BadFree)),
        (65_536, of(1), 7, 8, Err(FreeFault::BadFree)),
        (65_536, of(1), 8, 4, Err(FreeFault::BadFree)),
        (65_536, of(1), 8, 4_294_967_304, Err(FreeFault::BadFree)),
        (65_560, of(2), 4, 4, Err(FreeFault::BadFree)),
        (65_580, of(3), 4, 4, Err(FreeFault::Dangling)),
        (65_537, of(3), 9, 1, Err(FreeFault::Dangling)),
        (65_536, of(0), 8, 8, Err(FreeFault::Dangling)),
        (65_536, None, 8, 8, Err(FreeFault::Dangling)),
    ];
    for (addr, prov, size, align, wanted) in cases {
        let answer = table.check_free(Ptr { addr, prov }, size, align);
        assert_eq!(rt; answer, wanted, "at {addr} for {size}");
    }
    Ok(())
}

#[test]
fn lists_the_live_ones(rt: HostRuntime) -> Result<(), Fail> {
    let mut table = Allocs::new(rt.alloc());
    assert!(rt; table.live_ids().is_empty());
    for size in 0..4 {
        table.allocate(size, 1, AllocKind::Heap, place(size))?;
    }
    // Killed twice, and never made.
    for number in [2, 2, 9, 0] {
        table.kill(AllocId(number));
    }
    assert!(rt; table.live_ids() == [AllocId(1), AllocId(3), AllocId(4)].as_slice());
    table.kill(AllocId(1));
    table.kill(AllocId(4));
    assert!(rt; table.live_ids() == [AllocId(3)].as_slice());
    assert_eq!(rt; table.least_heap(), Some(place(2)));
    table.allocate(1, 1, AllocKind::Heap, place(5))?;
    assert!(rt; table.live_ids() == [AllocId(3), AllocId(5)].as_slice());
    Ok(())
}
