use crate::types::add;
use std::alloc::Global;
use std::test::Fail;
use tb_alloc::Ptr;
use tb_bytes::ByteVal;
use tb_perm::{AllocId, Prov, Tag};
use tb_types::{IntKind, Parts, Ty, TyShape, Types};
use tb_value::{Scalar, ScalarKind, ValueFault, copy, decode};

/// A provenance of the first allocation.
fn prov(tag: u64) -> Option<Prov> {
    Some(Prov {
        alloc: AllocId(1),
        tag: Tag(tag),
    })
}

/// A byte without a provenance.
fn plain(value: u8) -> ByteVal {
    ByteVal::Init(value, None)
}

/// The value of a scalar type that bytes are; none where their number is wrong.
fn decoded(types: &Types, ty: Ty, bytes: &[ByteVal]) -> Option<Result<Scalar, ValueFault>> {
    let kind = ScalarKind::of_type(types, ty)?;
    if bytes.len() != kind.width() as usize {
        return None;
    }
    Some(decode(types, ty, bytes))
}

/// Whether the copy of bytes of a type is these bytes.
fn copies(alloc: Global, types: &Types, ty: Ty, bytes: &[ByteVal], wanted: &[ByteVal]) -> bool {
    if ty.0 >= types.count() || !types.fits(ty) {
        return false;
    }
    let (size, _) = types.size_align(ty);
    if bytes.len() != size as usize {
        return false;
    }
    match copy(alloc, types, ty, bytes) {
        Ok(copied) => copied.as_slice() == wanted,
        Err(_) => false,
    }
}

/// The fault of bytes that are no value of a type.
fn fault(alloc: Global, types: &Types, ty: Ty, bytes: &[ByteVal]) -> Option<ValueFault> {
    if ty.0 >= types.count() || !types.fits(ty) {
        return None;
    }
    let (size, _) = types.size_align(ty);
    if bytes.len() != size as usize {
        return None;
    }
    match copy(alloc, types, ty, bytes) {
        Ok(_) => None,
        Err(fault) => Some(fault),
    }
}

#[test]
fn scalars_are_read(rt: HostRuntime) {
    let mut types = Types::new(rt.alloc());
    let int = add(&mut types, TyShape::Int(IntKind::I16)).expect(&rt, "i16");
    let truth = add(&mut types, TyShape::Bool).expect(&rt, "bool");
    let character = add(&mut types, TyShape::Char).expect(&rt, "char");
    let gap = ByteVal::Uninit;
    let cases = [
        (int, [plain(0xfe), plain(0xff)], Ok(Scalar::Int(-2))),
        (int, [plain(0xff), plain(0x7f)], Ok(Scalar::Int(32_767))),
        (
            int,
            [plain(0), ByteVal::Init(128, prov(1))],
            Ok(Scalar::Int(-32_768)),
        ),
        (int, [plain(0), gap], Err(ValueFault::Uninit(1))),
    ];
    for (ty, bytes, wanted) in cases {
        assert_eq!(rt; decoded(&types, ty, &bytes), Some(wanted));
    }
    assert_eq!(rt;
        decoded(&types, truth, &[plain(1)]),
        Some(Ok(Scalar::Bool(true)))
    );
    assert_eq!(rt;
        decoded(&types, truth, &[plain(2)]),
        Some(Err(ValueFault::Invalid(0)))
    );
    let letter = [plain(0xe9), plain(0), plain(0), plain(0)];
    assert_eq!(rt;
        decoded(&types, character, &letter),
        Some(Ok(Scalar::Char('\u{e9}')))
    );
    let surrogate = [plain(0), plain(0xd8), plain(0), plain(0)];
    assert_eq!(rt;
        decoded(&types, character, &surrogate),
        Some(Err(ValueFault::Invalid(0)))
    );
}

#[test]
fn pointers_are_read(rt: HostRuntime) {
    let mut types = Types::new(rt.alloc());
    let int = add(&mut types, TyShape::Int(IntKind::U8)).expect(&rt, "u8");
    let shared = add(&mut types, TyShape::Ref(false, int)).expect(&rt, "&u8");
    let raw = add(&mut types, TyShape::Raw(true, int)).expect(&rt, "*mut u8");
    let mut bytes = [ByteVal::Init(0, prov(3)); 8];
    let null = Ptr {
        addr: 0,
        prov: prov(3),
    };
    assert_eq!(rt; decoded(&types, raw, &bytes), Some(Ok(Scalar::Thin(null))));
    assert_eq!(rt;
        decoded(&types, shared, &bytes),
        Some(Err(ValueFault::Invalid(0)))
    );
    bytes[1] = ByteVal::Init(1, prov(4));
    let torn = Ptr {
        addr: 256,
        prov: None,
    };
    assert_eq!(rt;
        decoded(&types, shared, &bytes),
        Some(Ok(Scalar::Thin(torn)))
    );
    let kept = [ByteVal::Init(1, prov(3)); 8];
    assert!(rt; copies(rt.alloc(), &types, raw, &kept, &kept));
}

#[test]
fn copies_leave_padding(rt: HostRuntime) -> Result<(), Fail> {
    let mut types = Types::new(rt.alloc());
    let truth = add(&mut types, TyShape::Bool).expect(&rt, "bool");
    let int = add(&mut types, TyShape::Int(IntKind::U16)).expect(&rt, "u16");
    let parts = Parts::from_vec([truth, int].to_vec(rt.alloc())?);
    let pair = add(&mut types, TyShape::Tuple(parts)).expect(&rt, "(bool, u16)");
    let full = [plain(1), plain(9), plain(2), ByteVal::Init(3, prov(1))];
    let left = [plain(1), ByteVal::Uninit, plain(2), plain(3)];
    assert!(rt; copies(rt.alloc(), &types, pair, &full, &left));
    // The last byte is uninitialised, and the first is no truth value: the former is found first.
    let wrong = [plain(7), plain(9), plain(2), ByteVal::Uninit];
    assert_eq!(rt;
        fault(rt.alloc(), &types, pair, &wrong),
        Some(ValueFault::Uninit(3))
    );
    let invalid = [plain(7), ByteVal::Uninit, plain(2), plain(3)];
    assert_eq!(rt;
        fault(rt.alloc(), &types, pair, &invalid),
        Some(ValueFault::Invalid(0))
    );
    Ok(())
}
