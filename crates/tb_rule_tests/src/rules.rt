use std::alloc::Global;
use tb_operators::{binary, cast_to, integer, logic, unary};
use tb_perm::{Code, Span};
use tb_places::{assign, borrow_of, deref_of};
use tb_rules::{Scalars, TypeError, Want, fit, intern};
use tb_thir::{BinaryOperator, BorrowKind, LogicOperator, Node, UnaryOperator};
use tb_types::{Ty, TyShape, Types};

pub const SPAN: Span = Span { lo: 1, hi: 3 };

/// The type of a node, or the code with which it is refused; none out of memory.
pub fn outcome(made: Result<Node, TypeError>) -> Option<Result<Ty, Code>> {
    match made {
        Ok(node) => Some(Ok(node.head().ty)),
        Err(TypeError::Refused(code, _)) => Some(Err(code)),
        Err(TypeError::Memory) => None,
    }
}

pub fn number(types: &Types, scalars: &Scalars, value: u64) -> Result<Node, TypeError> {
    integer(types, scalars, Want::Free, false, value, None, SPAN)
}

/// `-1`, `1 + 1`, `1 && 1` and `1 as u8`.
fn operators(
    alloc: Global,
    types: &Types,
    scalars: &Scalars,
) -> Result<[Option<Result<Ty, Code>>; 4], TypeError> {
    let negated = unary(
        alloc,
        types,
        UnaryOperator::Neg,
        number(types, scalars, 1)?,
        SPAN,
    );
    let one = number(types, scalars, 1)?;
    let other = number(types, scalars, 1)?;
    let sum = binary(alloc, types, scalars, BinaryOperator::Add, one, other, SPAN);
    let one = number(types, scalars, 1)?;
    let other = number(types, scalars, 1)?;
    let both = logic(alloc, types, scalars, LogicOperator::And, one, other, SPAN);
    let byte = cast_to(alloc, types, scalars.u8, number(types, scalars, 1)?, SPAN);
    Ok([outcome(negated), outcome(sum), outcome(both), outcome(byte)])
}

#[test]
fn operators_have_types(rt: HostRuntime) {
    let mut types = Types::new(rt.alloc());
    let scalars = Scalars::of(&mut types).expect(&rt, "memory");
    let found = operators(rt.alloc(), &types, &scalars)
        .ok()
        .expect(&rt, "memory");
    let wanted = [
        Some(Ok(scalars.i32)),
        Some(Ok(scalars.i32)),
        Some(Err(Code::OperatorNotForType)),
        Some(Ok(scalars.u8)),
    ];
    assert_eq!(rt; found, wanted);
}

/// `&mut 1`, `*&mut 1`, the same where a `*const i32` is expected, `*&mut 1 = 1` and `1 = 1`.
fn places(
    alloc: Global,
    types: &mut Types,
    scalars: &Scalars,
    pointer: Ty,
) -> Result<[Option<Result<Ty, Code>>; 5], TypeError> {
    let one = number(types, scalars, 1)?;
    let borrowed = borrow_of(alloc, types, BorrowKind::Mut, one, SPAN);
    let one = number(types, scalars, 1)?;
    let reference = borrow_of(alloc, types, BorrowKind::Mut, one, SPAN)?;
    let followed = deref_of(alloc, types, false, reference, SPAN);
    let one = number(types, scalars, 1)?;
    let reference = borrow_of(alloc, types, BorrowKind::Mut, one, SPAN)?;
    let coerced = fit(alloc, types, Want::Into(pointer), reference);
    let one = number(types, scalars, 1)?;
    let reference = borrow_of(alloc, types, BorrowKind::Mut, one, SPAN)?;
    let place = deref_of(alloc, types, false, reference, SPAN)?;
    let assigned = assign(
        alloc,
        types,
        scalars,
        place,
        number(types, scalars, 1)?,
        SPAN,
    );
    let one = number(types, scalars, 1)?;
    let value = assign(alloc, types, scalars, one, number(types, scalars, 1)?, SPAN);
    Ok([
        outcome(borrowed),
        outcome(followed),
        outcome(coerced),
        outcome(assigned),
        outcome(value),
    ])
}

#[test]
fn places_have_types(rt: HostRuntime) {
    let mut types = Types::new(rt.alloc());
    let scalars = Scalars::of(&mut types).expect(&rt, "memory");
    let reference = intern(&mut types, TyShape::Ref(true, scalars.i32)).expect(&rt, "memory");
    let pointer = intern(&mut types, TyShape::Raw(false, scalars.i32)).expect(&rt, "memory");
    let found = places(rt.alloc(), &mut types, &scalars, pointer)
        .ok()
        .expect(&rt, "memory");
    let wanted = [
        Some(Ok(reference)),
        Some(Ok(scalars.i32)),
        Some(Ok(pointer)),
        Some(Ok(scalars.unit)),
        Some(Err(Code::NotAPlace)),
    ];
    assert_eq!(rt; found, wanted);
}
