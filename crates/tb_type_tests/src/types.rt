ghost use Rattle.std.specs.Prelude.{◌≡◌, ◌<◌, ◌≤◌, ◌+◌, length, None, IsTrue, OnOk, IfOk, IfSome};
ghost use Rattle.std.specs.List.{AllByRecursion};
ghost use Rattle.tb_types.specs.Table.{IsDeclared, named_in, item_named};
ghost use Rattle.tb_types.specs.Sound.{IsField};
ghost use Rattle.tb_types.specs.declared.shape.Ty.{Ty};

use std::alloc::Global;
use tb_types::{Builtin, Field, IntKind, Name, Parts, Ty, TyShape, Types};

/// Whether the types are below a number.
fn are_below(parts: &[Ty], count: u32) -> bool
    ensures { IsTrue result → AllByRecursion (λ (ty : Ty). ty.0 < count) parts.now }
{
    let Some((first, rest)) = parts.split_first() else {
        return true;
    };
    first.0 < count && are_below(rest, count)
}

/// Whether a shape names types below a number alone, and no struct.
fn is_known(shape: &TyShape, count: u32) -> bool
    ensures named { IsTrue result → AllByRecursion (λ (ty : Ty). ty.0 < count) (named_in shape.now) }
    ensures item { IsTrue result → item_named shape.now ≡ None }
{
    match shape {
        TyShape::Tuple(parts) => are_below(parts.as_slice(), count),
        TyShape::Array(part, _)
        | TyShape::Ref(_, part)
        | TyShape::Raw(_, part)
        | TyShape::Boxed(part)
        | TyShape::Cell(part)
        | TyShape::UnsafeCell(part)
        | TyShape::Slice(part) => part.0 < count,
        TyShape::Struct(_) => false,
        _ => true,
    }
}

/// The type of a shape, where it names types that are there and no struct.
pub fn add(types: &mut Types, shape: TyShape) -> Option<Ty>
    ensures { types.new.items ≡ types.old.items }
{
    if types.count() > 9999 || !is_known(&shape, types.count()) {
        return None;
    }
    match types.intern(shape) {
        Ok(ty) => Some(ty),
        Err(_) => None,
    }
}

/// A field of a type, where it may have it.
pub fn field(alloc: Global, types: &Types, ty: Ty) -> Option<Field>
    ensures { IfSome result (IsField types.now) }
{
    if ty.0 >= types.count() || !types.is_complete(ty) {
        return None;
    }
    match Name::new(alloc, "x") {
        Ok(name) => Some(Field { name, ty }),
        Err(_) => None,
    }
}

/// Fields of these types, where they may have them.
#[tactic(auto, using(tb_types::proofs::Within::all_snoc))]
fn fields(alloc: Global, types: &Types, of: &[Ty]) -> Option<Vec<Field>>
    ensures { IfSome result (λ fields. AllByRecursion (IsField types.now) fields.items) }
{
    let mut fields = Vec::new(alloc);
    for ty in of {
        let next = field(alloc, types, *ty)?;
        if fields.push(next).is_err() {
            return None;
        }
    }
    Some(fields)
}

/// A new struct without fields yet, and its type.
fn declare(types: &mut Types, name: &str, copy: bool) -> Option<(u32, Ty)>
    requires { length types.old.items < 99 }
    ensures one_more { length types.new.items ≤ length types.old.items + 1 }
    ensures declared { IfSome result (λ made. IsDeclared types.new made.0) }
{
    if types.count() > 99 {
        return None;
    }
    let Ok(item) = types.declare(name, copy) else {
        return None;
    };
    match types.intern(TyShape::Struct(item)) {
        Ok(ty) => Some((item, ty)),
        Err(_) => None,
    }
}

/// Gives a struct fields of these types, where they may have them.
fn define(alloc: Global, types: &mut Types, item: u32, of: &[Ty]) -> bool
    requires { IsDeclared types.old item }
    ensures { length types.new.items ≡ length types.old.items }
{
    if types.defined(item) {
        return false;
    }
    match fields(alloc, types, of) {
        Some(fields) => types.define(item, fields).is_ok(),
        None => false,
    }
}

/// What the four tests say of a type: Copy, free of cells, something to retag, a box.
fn facts(types: &Types, ty: Ty) -> Option<[bool; 4]> {
    if ty.0 >= types.count() {
        return None;
    }
    Some([
        types.is_copy(ty),
        types.is_freeze(ty),
        types.holds_retag(ty),
        types.owns_box(ty),
    ])
}

/// The type of a pair of types that are there.
fn add_pair(alloc: Global, types: &mut Types, first: Ty, second: Ty) -> Option<Ty>
    ensures { types.new.items ≡ types.old.items }
{
    match Vec::from_slice(alloc, &[first, second]) {
        Ok(parts) => add(types, TyShape::Tuple(Parts::from_vec(parts))),
        Err(_) => None,
    }
}

#[test]
fn types_have_numbers_and_facts(rt: HostRuntime) {
    let mut types = Types::new(rt.alloc());
    let rows = [
        (TyShape::Int(IntKind::I32), [true, true, false, false]),
        (TyShape::Unit, [true, true, false, false]),
        (TyShape::Ref(false, Ty(0)), [true, true, true, false]),
        (TyShape::Ref(true, Ty(0)), [false, true, true, false]),
        (TyShape::Raw(true, Ty(0)), [true, true, false, false]),
        (TyShape::Boxed(Ty(0)), [false, true, true, true]),
        (TyShape::Cell(Ty(0)), [false, false, false, false]),
        (TyShape::UnsafeCell(Ty(2)), [false, false, false, false]),
        (TyShape::Array(Ty(2), 3), [true, true, false, false]),
        (TyShape::Array(Ty(6), 0), [false, false, false, false]),
        (TyShape::Ref(false, Ty(6)), [true, true, true, false]),
        (TyShape::Boxed(Ty(6)), [false, true, true, true]),
        (TyShape::Slice(Ty(6)), [false, false, false, false]),
        (TyShape::Slice(Ty(0)), [false, true, false, false]),
    ];
    let mut next = 0;
    for (shape, wanted) in rows {
        assert_eq!(rt; add(&mut types, shape), Some(Ty(next)));
        assert_eq!(rt; facts(&types, Ty(next)), Some(wanted));
        next = next.wrapping_add(1);
    }
    let pairs = [
        (0, 2, 14, [true, true, true, false]),
        (5, 6, 15, [false, false, true, true]),
        (0, 1, 16, [true, true, false, false]),
        (5, 6, 15, [false, false, true, true]),
        (6, 5, 17, [false, false, true, true]),
    ];
    for (first, second, number, wanted) in pairs {
        assert_eq!(rt;
            add_pair(rt.alloc(), &mut types, Ty(first), Ty(second)),
            Some(Ty(number))
        );
        assert_eq!(rt; facts(&types, Ty(number)), Some(wanted));
    }
}

/// Whether a copy has the types, and keeps its own number for a new one.
fn copies_well(alloc: Global, types: &Types) -> bool {
    let Ok(mut copy) = types.copy() else {
        return false;
    };
    add_pair(alloc, &mut copy, Ty(0), Ty(0)) == Some(Ty(types.count()))
}

#[test]
fn structs_are_declared_and_defined(rt: HostRuntime) {
    let mut types = Types::new(rt.alloc());
    // Struct 0 is type 0, and names itself behind a pointer, type 1. Struct 1 is type 2.
    let Some((list, list_ty)) = declare(&mut types, "List", true) else {
        assert!(rt; false);
        return;
    };
    let next = add(&mut types, TyShape::Raw(true, list_ty));
    let Some((whole, whole_ty)) = declare(&mut types, "Whole", false) else {
        assert!(rt; false);
        return;
    };
    let cell = add(&mut types, TyShape::Cell(list_ty));
    assert_eq!(rt; (next, cell), (Some(Ty(1)), Some(Ty(3))));
    assert!(rt; !types.defined(list) && !types.defined(7));
    // A struct waits for those that lie in it, itself included.
    assert!(rt; !define(rt.alloc(), &mut types, whole, &[list_ty]));
    assert!(rt; !define(rt.alloc(), &mut types, list, &[list_ty]));
    assert!(rt; define(rt.alloc(), &mut types, list, &[Ty(1)]));
    assert!(rt; types.defined(list));
    assert_eq!(rt; facts(&types, list_ty), Some([true, true, false, false]));
    assert_eq!(rt; facts(&types, Ty(3)), Some([false, false, false, false]));
    assert!(rt; define(rt.alloc(), &mut types, whole, &[list_ty, Ty(3)]));
    assert_eq!(rt; facts(&types, whole_ty), Some([false, false, false, false]));
    assert_eq!(rt; pieces(&types, whole_ty), Some((true, None, Some(Ty(3)))));
    assert!(rt; copies_well(rt.alloc(), &types));
}

/// Whether a type is sized, what it is made around, and its second part or field.
fn pieces(types: &Types, ty: Ty) -> Option<(bool, Option<Ty>, Option<Ty>)> {
    if ty.0 >= types.count() {
        return None;
    }
    Some((types.is_sized(ty), types.content(ty), types.part(ty, 1)))
}

#[test]
fn types_have_sizes_and_pieces(rt: HostRuntime) {
    let mut types = Types::new(rt.alloc());
    let rows = [
        (TyShape::Int(IntKind::I32), true, None),
        (TyShape::Slice(Ty(0)), false, Some(Ty(0))),
        (TyShape::Ref(false, Ty(1)), true, Some(Ty(1))),
        (TyShape::Raw(true, Ty(1)), true, Some(Ty(1))),
        (TyShape::Boxed(Ty(1)), false, Some(Ty(1))),
        (TyShape::Slice(Ty(1)), false, Some(Ty(1))),
        (TyShape::Ref(true, Ty(5)), false, Some(Ty(5))),
        (TyShape::Array(Ty(1), 3), false, Some(Ty(1))),
        (TyShape::Array(Ty(2), 3), true, Some(Ty(2))),
        (TyShape::Raw(false, Ty(7)), false, Some(Ty(7))),
        (TyShape::Cell(Ty(6)), false, Some(Ty(6))),
        (TyShape::Slice(Ty(2)), false, Some(Ty(2))),
        (TyShape::Ref(false, Ty(11)), true, Some(Ty(11))),
        (TyShape::UnsafeCell(Ty(12)), true, Some(Ty(12))),
    ];
    let mut next = 0;
    for (shape, sized, content) in rows {
        assert_eq!(rt; types.find(&shape), None);
        assert_eq!(rt; add(&mut types, shape), Some(Ty(next)));
        assert_eq!(rt; pieces(&types, Ty(next)), Some((sized, content, None)));
        next = next.wrapping_add(1);
    }
    assert_eq!(rt; types.find(&TyShape::Boxed(Ty(1))), Some(Ty(4)));
    let pair = add_pair(rt.alloc(), &mut types, Ty(0), Ty(2));
    assert_eq!(rt; pair, Some(Ty(14)));
    assert_eq!(rt; pieces(&types, Ty(14)), Some((true, None, Some(Ty(2)))));
    assert_eq!(rt; types.part_count(Ty(14)), 2);
    assert_eq!(rt; types.part_count(Ty(4)), 0);
    let pair = add_pair(rt.alloc(), &mut types, Ty(0), Ty(1));
    assert_eq!(rt; pair, Some(Ty(15)));
    assert_eq!(rt; pieces(&types, Ty(15)), Some((false, None, Some(Ty(1)))));
}

/// Whether these are the types of a row, by their numbers.
fn is_row(
    types: &Types,
    b: Builtin,
    first: Option<u32>,
    second: Option<u32>,
    ty: u32,
    answer: u32,
) -> bool {
    match (first, second) {
        (Some(first), Some(second)) => types.has_head(
            b,
            &[Ty(first), Ty(second)],
            Ty(ty),
            Ty(answer),
        ),
        (Some(first), None) => types.has_head(b, &[Ty(first)], Ty(ty), Ty(answer)),
        (None, _) => types.has_head(b, &[], Ty(ty), Ty(answer)),
    }
}

/// The struct of layouts is type 0, and T is `i32`, type 3.
fn types_of_rows(alloc: Global) -> Option<Types> {
    let mut types = Types::new(alloc);
    let (layout, _) = declare(&mut types, "Layout", true)?;
    let _ = add(&mut types, TyShape::Int(IntKind::Usize));
    if !define(alloc, &mut types, layout, &[Ty(1), Ty(1)]) {
        return None;
    }
    let shapes = [
        TyShape::Int(IntKind::Isize),
        TyShape::Int(IntKind::I32),
        TyShape::Int(IntKind::U8),
        TyShape::Bool,
        TyShape::Unit,
        TyShape::Boxed(Ty(3)),
        TyShape::Raw(false, Ty(3)),
        TyShape::Raw(true, Ty(3)),
        TyShape::Ref(false, Ty(3)),
        TyShape::Ref(true, Ty(3)),
        TyShape::Cell(Ty(3)),
        TyShape::Ref(false, Ty(12)),
        TyShape::UnsafeCell(Ty(3)),
        TyShape::Ref(false, Ty(14)),
        TyShape::Slice(Ty(3)),
        TyShape::Ref(false, Ty(16)),
        TyShape::Ref(true, Ty(16)),
        TyShape::Array(Ty(3), 4),
        TyShape::Ref(false, Ty(19)),
        TyShape::Ref(true, Ty(19)),
        TyShape::Raw(true, Ty(4)),
        TyShape::Raw(false, Ty(4)),
        TyShape::Raw(true, Ty(16)),
        TyShape::Ref(true, Ty(12)),
    ];
    for shape in shapes {
        let _ = add(&mut types, shape);
    }
    Some(types)
}

#[test]
fn built_in_calls_have_heads(rt: HostRuntime) {
    let Some(types) = types_of_rows(rt.alloc()) else {
        assert!(rt; false);
        return;
    };
    assert_eq!(rt; types.count(), 26);
    let right = [
        (Builtin::BoxNew, Some(3), None, 3, 7),
        (Builtin::BoxIntoRaw, Some(7), None, 3, 9),
        (Builtin::BoxLeak, Some(7), None, 3, 11),
        (Builtin::BoxFromRaw, Some(9), None, 3, 7),
        (Builtin::CellNew, Some(3), None, 3, 12),
        (Builtin::UnsafeCellNew, Some(3), None, 3, 14),
        (Builtin::CellGet, Some(13), None, 3, 3),
        (Builtin::CellSet, Some(13), Some(3), 3, 6),
        (Builtin::CellAsPtr, Some(13), None, 3, 9),
        (Builtin::UnsafeCellGet, Some(15), None, 3, 9),
        (Builtin::Null, None, None, 3, 8),
        (Builtin::NullMut, None, None, 3, 9),
        (Builtin::FromRawParts, Some(8), Some(1), 3, 17),
        (Builtin::FromRawPartsMut, Some(9), Some(1), 3, 18),
        (Builtin::SizeOf, None, None, 3, 1),
        (Builtin::AlignOf, None, None, 7, 1),
        (Builtin::Add, Some(8), Some(1), 3, 8),
        (Builtin::Sub, Some(9), Some(1), 3, 9),
        (Builtin::Offset, Some(9), Some(2), 3, 9),
        (Builtin::Read, Some(8), None, 3, 3),
        (Builtin::Write, Some(9), Some(3), 3, 6),
        (Builtin::Cast, Some(8), None, 4, 23),
        (Builtin::IsNull, Some(9), None, 3, 5),
        (Builtin::Addr, Some(8), None, 3, 1),
        (Builtin::SliceAsPtr, Some(20), None, 3, 8),
        (Builtin::SliceAsMutPtr, Some(18), None, 3, 9),
        (Builtin::Getchar, None, None, 6, 3),
        (Builtin::LayoutNew, None, None, 3, 0),
        (
            Builtin::LayoutFromSizeAlignUnchecked,
            Some(1),
            Some(1),
            6,
            0,
        ),
        (Builtin::LayoutSize, Some(0), None, 6, 1),
        (Builtin::LayoutAlign, Some(0), None, 6, 1),
        (Builtin::Alloc, Some(0), None, 6, 22),
        (Builtin::Dealloc, Some(22), Some(0), 4, 6),
    ];
    for (b, first, second, ty, answer) in right {
        assert!(rt; is_row(&types, b, first, second, ty, answer), "{b:?}");
    }
    let wrong = [
        (Builtin::BoxNew, Some(3), None, 4, 7),
        (Builtin::BoxIntoRaw, Some(7), None, 3, 8),
        (Builtin::BoxLeak, Some(7), None, 3, 10),
        (Builtin::BoxFromRaw, Some(8), None, 3, 7),
        (Builtin::CellNew, Some(3), None, 3, 14),
        (Builtin::UnsafeCellNew, Some(3), None, 3, 12),
        (Builtin::CellGet, Some(12), None, 3, 3),
        (Builtin::CellSet, Some(25), Some(3), 3, 6),
        (Builtin::CellAsPtr, Some(13), None, 3, 8),
        (Builtin::UnsafeCellGet, Some(13), None, 3, 9),
        (Builtin::Null, None, None, 3, 9),
        (Builtin::NullMut, Some(3), None, 3, 9),
        (Builtin::FromRawParts, Some(9), Some(1), 3, 17),
        (Builtin::FromRawPartsMut, Some(9), Some(2), 3, 18),
        (Builtin::SizeOf, None, None, 3, 2),
        (Builtin::AlignOf, Some(3), None, 3, 1),
        (Builtin::Add, Some(8), Some(1), 3, 9),
        (Builtin::Sub, Some(9), Some(2), 3, 9),
        (Builtin::Offset, Some(9), Some(1), 3, 9),
        (Builtin::Read, Some(9), None, 4, 4),
        (Builtin::Write, Some(8), Some(3), 3, 6),
        (Builtin::Cast, Some(24), None, 4, 22),
        (Builtin::IsNull, Some(9), None, 3, 6),
        (Builtin::Addr, Some(10), None, 3, 1),
        (Builtin::SliceAsPtr, Some(18), None, 3, 9),
        (Builtin::SliceAsMutPtr, Some(20), None, 3, 9),
        (Builtin::Getchar, None, None, 3, 3),
        (Builtin::LayoutNew, None, None, 3, 1),
        (Builtin::LayoutFromSizeAlignUnchecked, Some(1), None, 6, 0),
        (Builtin::LayoutSize, Some(1), None, 6, 1),
        (Builtin::LayoutAlign, Some(0), None, 3, 1),
        (Builtin::Alloc, Some(0), None, 6, 23),
        (Builtin::Dealloc, Some(22), Some(0), 6, 6),
        // T is no type, or a slice.
        (Builtin::SizeOf, None, None, 26, 1),
        (Builtin::LayoutNew, None, None, 99, 0),
        (Builtin::AlignOf, None, None, 16, 1),
        (Builtin::IsNull, Some(24), None, 16, 5),
    ];
    for (b, first, second, ty, answer) in wrong {
        assert!(rt; !is_row(&types, b, first, second, ty, answer), "{b:?}");
    }
}
