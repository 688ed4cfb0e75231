use std::test::Fail;
use tb_eval::{EvalError, Panic, PrintError, Slot, operand, place, print_text, rvalue};
use tb_heap::{Stop, Value};
use tb_mir::{Base, BinOp, Constant, Operand, Place, RefKind, Rvalue};
use tb_perm::{AllocId, Prov, Tag};

const AT: Prov = Prov {
    alloc: AllocId(1),
    tag: Tag(2),
};

/// A dead variable, a temporary without a value, two with integers, `()`, the least integer, a live
/// variable, a pointer, and a pointer to nothing.
const LOCALS: [Slot; 9] = [
    Slot::Dead,
    Slot::Empty,
    Slot::Holds(Value::Int(2_147_483_646)),
    Slot::Holds(Value::Int(-7)),
    Slot::Holds(Value::Unit),
    Slot::Holds(Value::Int(-2_147_483_648)),
    Slot::Live(AT),
    Slot::Holds(Value::Pointer(Some(AT))),
    Slot::Holds(Value::Pointer(None)),
];

const ONE: Operand = Operand::Const(Constant::Int(1));

const UNIT: Operand = Operand::Const(Constant::Unit);

#[test]
fn operands_and_places(rt: HostRuntime) {
    let none = Err(Stop::Uninit);
    let nowhere = Err(Stop::Uninit);
    let rows = [
        (0, none, None, nowhere),
        (1, none, None, nowhere),
        (3, Ok(Value::Int(-7)), None, nowhere),
        (4, Ok(Value::Unit), None, nowhere),
        (6, none, Some(AT), nowhere),
        (7, Ok(Value::Pointer(Some(AT))), None, Ok(Some(AT))),
        (8, Ok(Value::Pointer(None)), None, Ok(None)),
        (9, none, None, nowhere),
    ];
    for (local, temp, variable, pointee) in rows {
        let base = Base::Variable(local);
        assert_eq!(rt; operand(&LOCALS, Operand::Temp(local)), temp);
        assert_eq!(rt; place(&LOCALS, Place { base }), Ok(variable));
        let base = Base::Deref(local);
        assert_eq!(rt; place(&LOCALS, Place { base }), pointee);
    }
    assert_eq!(rt; operand(&LOCALS, ONE), Ok(Value::Int(1)));
    assert_eq!(rt; operand(&LOCALS, UNIT), Ok(Value::Unit));
}

#[test]
fn borrows(rt: HostRuntime) {
    let at = Ok(Value::Pointer(Some(AT)));
    let rows = [
        (Base::Variable(6), at),
        (Base::Variable(0), Ok(Value::Pointer(None))),
        (Base::Deref(7), at),
        (Base::Deref(1), Err(EvalError::Stop(Stop::Uninit))),
    ];
    for (base, wanted) in rows {
        assert_eq!(rt;
            rvalue(&LOCALS, Rvalue::Ref(RefKind::Mut, Place { base })),
            wanted
        );
    }
}

#[test]
fn sums(rt: HostRuntime) {
    let rows = [
        (ONE, ONE, Ok(Value::Int(2))),
        (Operand::Temp(2), ONE, Ok(Value::Int(2_147_483_647))),
        (
            Operand::Temp(2),
            Operand::Temp(2),
            Err(EvalError::Panic(Panic::Overflow)),
        ),
        (Operand::Temp(3), Operand::Temp(3), Ok(Value::Int(-14))),
        (Operand::Temp(5), ONE, Ok(Value::Int(-2_147_483_647))),
        (
            Operand::Temp(3),
            Operand::Temp(5),
            Err(EvalError::Panic(Panic::Overflow)),
        ),
        (Operand::Temp(1), ONE, Err(EvalError::Stop(Stop::Uninit))),
        (ONE, UNIT, Err(EvalError::Stop(Stop::Uninit))),
    ];
    for (left, right, wanted) in rows {
        let found = rvalue(&LOCALS, Rvalue::Binary(BinOp::Add, left, right));
        assert_eq!(rt; found, wanted);
    }
    assert_eq!(rt; rvalue(&LOCALS, Rvalue::Use(UNIT)), Ok(Value::Unit));
}

#[test]
fn prints(rt: HostRuntime) -> Result<(), Fail> {
    let two = [Operand::Temp(3), Operand::Temp(5)];
    let rows: [(bool, &[u8], &[Operand], &[u8]); 7] = [
        (false, b"", &[], b""),
        (true, b"", &[], b"\n"),
        (false, b"a\\nb", &[], b"a\nb"),
        (false, b"{}", &[ONE], b"1"),
        (false, b"{} and {}.", &two, b"-7 and -2147483648."),
        (true, b"{}{}\\n", &two, b"-7-2147483648\n\n"),
        (false, b"\\", &[], b"\\"),
    ];
    for (newline, text, operands, wanted) in rows {
        let found = print_text(rt.alloc(), &LOCALS, newline, text, operands)?;
        assert_eq!(rt; found.as_slice(), wanted);
    }
    let empty = print_text(rt.alloc(), &LOCALS, false, b"{}", &[ONE, Operand::Temp(1)]);
    assert!(rt; matches!(empty, Err(PrintError::Stop(Stop::Uninit))));
    Ok(())
}
