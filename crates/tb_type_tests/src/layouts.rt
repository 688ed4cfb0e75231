ghost use Rattle.std.specs.Prelude.{◌≡◌, ◌<◌, ◌≤◌, ◌+◌, length};
ghost use Rattle.tb_types.specs.Table.{IsDeclared, IsType};

use crate::types::{add, field};
use std::alloc::Global;
use tb_layout::{Leaf, LeafShape, cells, layout, leaves, retag_leaves};
use tb_perm::CellRange;
use tb_types::{IntKind, Parts, Ty, TyShape, Types};

/// The type of a tuple of types that are there.
fn add_tuple(alloc: Global, types: &mut Types, parts: &[Ty]) -> Option<Ty> {
    match Vec::from_slice(alloc, parts) {
        Ok(parts) => add(types, TyShape::Tuple(Parts::from_vec(parts))),
        Err(_) => None,
    }
}

/// The size and alignment of a type that is there and is not too large, by its layout and by look-up.
fn measured(alloc: Global, types: &Types, ty: Ty) -> Option<(u32, u32)> {
    if ty.0 >= types.count() {
        return None;
    }
    let Ok(layout) = layout(alloc, types, ty) else {
        return None;
    };
    let found = looked_up(types, ty);
    if found == Some((layout.size, layout.align)) {
        found
    } else {
        None
    }
}

/// The size and alignment of a type that is not too large, by look-up.
fn looked_up(types: &Types, ty: Ty) -> Option<(u32, u32)>
    requires { IsType types.now ty }
{
    if types.fits(ty) {
        Some(types.size_align(ty))
    } else {
        None
    }
}

/// Whether the offsets in a type are these.
fn has_offsets(alloc: Global, types: &Types, ty: Ty, wanted: &[u32]) -> bool {
    if ty.0 >= types.count() {
        return false;
    }
    match layout(alloc, types, ty) {
        Ok(layout) => layout.fields.as_slice() == wanted,
        Err(_) => false,
    }
}

#[test]
fn types_have_layouts(rt: HostRuntime) {
    let mut types = Types::new(rt.alloc());
    let rows = [
        (TyShape::Int(IntKind::U8), Some((1, 1))),
        (TyShape::Int(IntKind::U16), Some((2, 2))),
        (TyShape::Int(IntKind::I32), Some((4, 4))),
        (TyShape::Int(IntKind::U64), Some((8, 8))),
        (TyShape::Int(IntKind::Isize), Some((8, 8))),
        (TyShape::Bool, Some((1, 1))),
        (TyShape::Char, Some((4, 4))),
        (TyShape::Unit, Some((0, 1))),
        (TyShape::Ref(false, Ty(0)), Some((8, 8))),
        (TyShape::Slice(Ty(0)), Some((0, 1))),
        (TyShape::Ref(true, Ty(9)), Some((16, 8))),
        (TyShape::Raw(true, Ty(9)), Some((16, 8))),
        (TyShape::Boxed(Ty(0)), Some((8, 8))),
        (TyShape::Cell(Ty(1)), Some((2, 2))),
        (TyShape::UnsafeCell(Ty(0)), Some((1, 1))),
        (TyShape::Array(Ty(1), 3), Some((6, 2))),
        (TyShape::Array(Ty(3), 0), Some((0, 8))),
        // The limits at their edge and one over: bytes, then parts.
        (TyShape::Array(Ty(0), 1_048_576), Some((1_048_576, 1))),
        (TyShape::Array(Ty(0), 1_048_577), None),
        (TyShape::Array(Ty(7), 4_194_303), Some((0, 1))),
        (TyShape::Array(Ty(7), 4_194_304), None),
        (TyShape::Array(Ty(18), 0), Some((0, 1))),
        (TyShape::Array(Ty(3), 2_305_843_009_213_693_952), None),
        (TyShape::Array(Ty(7), 18_446_744_073_709_551_615), None),
    ];
    let mut next = 0;
    for (shape, wanted) in rows {
        assert_eq!(rt; add(&mut types, shape), Some(Ty(next)));
        assert_eq!(rt; measured(rt.alloc(), &types, Ty(next)), wanted);
        next = next.wrapping_add(1);
    }
}

#[test]
fn tuples_have_layouts(rt: HostRuntime) {
    let mut types = Types::new(rt.alloc());
    let shapes = [
        TyShape::Int(IntKind::U8),
        TyShape::Int(IntKind::U16),
        TyShape::Int(IntKind::I32),
        TyShape::Unit,
        TyShape::Int(IntKind::U64),
        TyShape::Array(Ty(4), 0),
    ];
    for shape in shapes {
        let _ = add(&mut types, shape);
    }
    // Padding between parts and at the end, parts of no bytes, an alignment from no bytes.
    let rows: [(&[Ty], (u32, u32), &[u32]); 6] = [
        (&[Ty(0), Ty(2)], (8, 4), &[0, 4]),
        (&[Ty(2), Ty(0)], (8, 4), &[0, 4]),
        (&[Ty(0), Ty(1), Ty(0)], (6, 2), &[0, 2, 4]),
        (&[Ty(3), Ty(0)], (1, 1), &[0, 0]),
        (&[Ty(0), Ty(5)], (8, 8), &[0, 8]),
        (&[Ty(6), Ty(0)], (12, 4), &[0, 8]),
    ];
    let mut next = 6;
    for (parts, wanted, offsets) in rows {
        assert_eq!(rt; add_tuple(rt.alloc(), &mut types, parts), Some(Ty(next)));
        assert_eq!(rt; measured(rt.alloc(), &types, Ty(next)), Some(wanted));
        assert!(rt; has_offsets(rt.alloc(), &types, Ty(next), offsets));
        next = next.wrapping_add(1);
    }
}

#[test]
fn deep_types_end(rt: HostRuntime) {
    // 1,023 cells around a byte have 1,024 levels.
    let mut types = Types::new(rt.alloc());
    let _ = add(&mut types, TyShape::Int(IntKind::U8));
    for at in 0..1024 {
        let _ = add(&mut types, TyShape::Cell(Ty(at)));
    }
    assert_eq!(rt; measured(rt.alloc(), &types, Ty(1023)), Some((1, 1)));
    assert_eq!(rt; measured(rt.alloc(), &types, Ty(1024)), None);
    // Twenty pairs of pairs have 1,048,576 bytes, and their parts are below the limit; forty end at once.
    for at in 0..40 {
        let last = if at == 0 { 0 } else { 1024 + at };
        let _ = add_tuple(rt.alloc(), &mut types, &[Ty(last), Ty(last)]);
    }
    assert_eq!(rt;
        measured(rt.alloc(), &types, Ty(1044)),
        Some((1_048_576, 1))
    );
    assert_eq!(rt; measured(rt.alloc(), &types, Ty(1045)), None);
    assert_eq!(rt; measured(rt.alloc(), &types, Ty(1064)), None);
}

/// Whether the cell bytes of a type are these, from one byte up to before another.
fn has_cells(alloc: Global, types: &Types, ty: Ty, wanted: &[CellRange]) -> bool {
    if ty.0 >= types.count() || !types.fits(ty) {
        return false;
    }
    match cells(alloc, types, ty) {
        Ok(cells) => cells.as_slice() == wanted,
        Err(_) => false,
    }
}

fn range(lo: u32, hi: u32) -> CellRange {
    CellRange { lo, hi }
}

#[test]
fn cells_have_bytes(rt: HostRuntime) {
    let mut types = Types::new(rt.alloc());
    let shapes = [
        TyShape::Int(IntKind::U8),
        TyShape::Int(IntKind::I32),
        TyShape::Cell(Ty(0)),
        TyShape::Ref(false, Ty(2)),
        TyShape::Boxed(Ty(2)),
        TyShape::Array(Ty(2), 3),
    ];
    for shape in shapes {
        let _ = add(&mut types, shape);
    }
    // A cell around padding, an array of pairs, and then a tuple of cells with others.
    let _ = add_tuple(rt.alloc(), &mut types, &[Ty(0), Ty(1)]);
    let _ = add_tuple(rt.alloc(), &mut types, &[Ty(2), Ty(0)]);
    let _ = add_tuple(rt.alloc(), &mut types, &[Ty(2), Ty(2), Ty(3)]);
    let _ = add(&mut types, TyShape::UnsafeCell(Ty(6)));
    let _ = add(&mut types, TyShape::Array(Ty(7), 2));
    let _ = add_tuple(rt.alloc(), &mut types, &[Ty(0), Ty(9), Ty(2)]);
    // Long arrays: of cells, of cells of no bytes, and of pairs without cells.
    let _ = add(&mut types, TyShape::Array(Ty(2), 65_536));
    let _ = add(&mut types, TyShape::Unit);
    let _ = add(&mut types, TyShape::Cell(Ty(13)));
    let _ = add(&mut types, TyShape::Array(Ty(14), 2_000_000));
    let _ = add(&mut types, TyShape::Array(Ty(6), 100_000));
    let rows: [(u32, &[CellRange]); 13] = [
        (1, &[]),
        (2, &[range(0, 1)]),
        (3, &[]),
        (4, &[]),
        (5, &[range(0, 3)]),
        (7, &[range(0, 1)]),
        (8, &[range(0, 2)]),
        (9, &[range(0, 8)]),
        (10, &[range(0, 1), range(2, 3)]),
        (11, &[range(4, 13)]),
        (12, &[range(0, 65_536)]),
        (15, &[]),
        (16, &[]),
    ];
    for (ty, wanted) in rows {
        assert!(rt; has_cells(rt.alloc(), &types, Ty(ty), wanted), "{ty}");
    }
}

/// Whether the leaves of a type are these, and those at which a retag stands these others.
fn has_leaves(alloc: Global, types: &Types, ty: Ty, wanted: &[Leaf], retagged: &[Leaf]) -> bool {
    if ty.0 >= types.count() || !types.fits(ty) {
        return false;
    }
    match (leaves(alloc, types, ty), retag_leaves(alloc, types, ty)) {
        (Ok(leaves), Ok(retags)) => leaves.as_slice() == wanted && retags.as_slice() == retagged,
        _ => false,
    }
}

const BYTE: LeafShape = LeafShape::Int(IntKind::U8);

const SHARED: LeafShape = LeafShape::Ref(false, Ty(0));

const BOXED: LeafShape = LeafShape::Boxed(Ty(1));

/// Types, their leaves, and those of them at which a retag stands.
const LEAVES: [(u32, &[Leaf], &[Leaf]); 5] = [
    (
        2,
        &[Leaf {
            at: 0,
            shape: SHARED,
        }],
        &[Leaf {
            at: 0,
            shape: SHARED,
        }],
    ),
    (
        5,
        &[
            Leaf {
                at: 0,
                shape: SHARED,
            },
            Leaf {
                at: 8,
                shape: SHARED,
            },
        ],
        &[],
    ),
    (6, &[], &[]),
    (
        7,
        &[
            Leaf { at: 0, shape: BYTE },
            Leaf {
                at: 8,
                shape: SHARED,
            },
            Leaf {
                at: 16,
                shape: BOXED,
            },
        ],
        &[
            Leaf {
                at: 8,
                shape: SHARED,
            },
            Leaf {
                at: 16,
                shape: BOXED,
            },
        ],
    ),
    (
        8,
        &[
            Leaf {
                at: 0,
                shape: SHARED,
            },
            Leaf {
                at: 8,
                shape: SHARED,
            },
            Leaf {
                at: 16,
                shape: SHARED,
            },
            Leaf {
                at: 24,
                shape: BYTE,
            },
            Leaf {
                at: 32,
                shape: SHARED,
            },
            Leaf {
                at: 40,
                shape: BOXED,
            },
        ],
        &[
            Leaf {
                at: 32,
                shape: SHARED,
            },
            Leaf {
                at: 40,
                shape: BOXED,
            },
        ],
    ),
];

#[test]
fn types_have_leaves(rt: HostRuntime) {
    let mut types = Types::new(rt.alloc());
    let shapes = [
        TyShape::Int(IntKind::U8),
        TyShape::Int(IntKind::I32),
        TyShape::Ref(false, Ty(0)),
        TyShape::Boxed(Ty(1)),
        TyShape::Cell(Ty(2)),
        TyShape::Array(Ty(2), 2),
        TyShape::Unit,
    ];
    for shape in shapes {
        let _ = add(&mut types, shape);
    }
    let _ = add_tuple(rt.alloc(), &mut types, &[Ty(0), Ty(2), Ty(3)]);
    let _ = add_tuple(rt.alloc(), &mut types, &[Ty(5), Ty(4), Ty(7), Ty(6)]);
    for (ty, wanted, retagged) in LEAVES {
        assert!(rt;
            has_leaves(rt.alloc(), &types, Ty(ty), wanted, retagged),
            "{ty}"
        );
    }
    // Elements of no size, as many as there may be.
    assert_eq!(rt;
        add(&mut types, TyShape::Array(Ty(6), 4_194_303)),
        Some(Ty(9))
    );
    assert!(rt; has_leaves(rt.alloc(), &types, Ty(9), &[], &[]));
}

/// Gives a struct two fields of these types, where they may have them.
fn define(alloc: Global, types: &mut Types, item: u32, first: Ty, second: Ty) -> bool
    requires { IsDeclared types.old item }
    ensures items { length types.new.items ≡ length types.old.items }
    ensures shapes { types.new.shapes ≡ types.old.shapes }
{
    let (Some(first), Some(second)) = (field(alloc, types, first), field(alloc, types, second))
    else {
        return false;
    };
    let mut fields = Vec::new(alloc);
    if types.defined(item) || fields.push(first).is_err() || fields.push(second).is_err() {
        return false;
    }
    types.define(item, fields).is_ok()
}

/// The type of a new struct of two fields.
fn add_struct(alloc: Global, types: &mut Types, first: Ty, second: Ty) -> Option<Ty>
    requires { length types.old.items < 99 }
    ensures { length types.new.items ≤ length types.old.items + 1 }
{
    if types.count() > 9999 {
        return None;
    }
    let Ok(item) = types.declare("S", false) else {
        return None;
    };
    if !define(alloc, types, item, first, second) {
        return None;
    }
    match types.intern(TyShape::Struct(item)) {
        Ok(ty) => Some(ty),
        Err(_) => None,
    }
}

#[test]
fn structs_have_layouts(rt: HostRuntime) {
    let mut types = Types::new(rt.alloc());
    let _ = add(&mut types, TyShape::Int(IntKind::U8));
    let _ = add(&mut types, TyShape::Int(IntKind::I32));
    let alloc = rt.alloc();
    // A byte, three bytes of padding, and an integer; a struct of that and a byte; a cell of the first.
    assert_eq!(rt; add_struct(alloc, &mut types, Ty(0), Ty(1)), Some(Ty(2)));
    assert_eq!(rt; measured(alloc, &types, Ty(2)), Some((8, 4)));
    assert!(rt; has_offsets(alloc, &types, Ty(2), &[0, 4]));
    assert_eq!(rt; add_struct(alloc, &mut types, Ty(2), Ty(0)), Some(Ty(3)));
    assert_eq!(rt; measured(alloc, &types, Ty(3)), Some((12, 4)));
    assert!(rt; has_offsets(alloc, &types, Ty(3), &[0, 8]));
    assert_eq!(rt; add(&mut types, TyShape::Cell(Ty(2))), Some(Ty(4)));
    assert!(rt; has_cells(alloc, &types, Ty(4), &[range(0, 8)]));
    assert_eq!(rt; add_struct(alloc, &mut types, Ty(0), Ty(4)), Some(Ty(5)));
    assert!(rt; has_cells(alloc, &types, Ty(5), &[range(4, 12)]));
}

#[test]
fn chains_of_structs_end(rt: HostRuntime) {
    // Each holds the one before twice. Twenty have 1,048,576 bytes, and forty end at once.
    let mut types = Types::new(rt.alloc());
    let mut last = add(&mut types, TyShape::Int(IntKind::U8));
    for at in 0..40u32 {
        let Some(part) = last else {
            assert!(rt; false);
            return;
        };
        last = add_struct(rt.alloc(), &mut types, part, part);
        if at == 19 {
            assert_eq!(rt; measured(rt.alloc(), &types, Ty(20)), Some((1_048_576, 1)));
        }
    }
    assert_eq!(rt; last, Some(Ty(40)));
    assert_eq!(rt; measured(rt.alloc(), &types, Ty(21)), None);
    assert_eq!(rt; measured(rt.alloc(), &types, Ty(40)), None);
}
