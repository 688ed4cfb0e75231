use crate::rules::{number, outcome};
use sqlite_items::Items;
use std::alloc::Global;
use tb_aggregates::{array, literal, repeat, tuple};
use tb_compose::{ListOfParts, NoParts, OnePart, Setting, TwoParts, leaf, list, one, two};
use tb_control::{assert_of, block, endless, if_then, let_of, return_of, statement, while_of};
use tb_perm::{Code, Span};
use tb_rules::{Scalars, TypeError, Want, intern};
use tb_thir::{BinaryOperator, BorrowKind, Node};
use tb_types::{Parts, TyShape, Types};

const SPAN: Span = Span { lo: 1, hi: 3 };

/// A list of one number.
fn numbers(alloc: Global, types: &Types, scalars: &Scalars) -> Result<Items<Node>, TypeError> {
    let mut list = Items::new(alloc);
    list.push(number(types, scalars, 1)?)?;
    Ok(list)
}

/// `(1,)` as a tuple of one part.
fn tuple_node(alloc: Global, types: &mut Types, scalars: &Scalars) -> Result<Node, TypeError> {
    let parts = numbers(alloc, types, scalars)?;
    tuple(alloc, types, Want::Free, parts, SPAN)
}

/// `[1]`
fn array_node(alloc: Global, types: &mut Types, scalars: &Scalars) -> Result<Node, TypeError> {
    let parts = numbers(alloc, types, scalars)?;
    array(alloc, types, Want::Free, parts, SPAN)
}

/// `[1; 1]`
fn repeat_node(alloc: Global, types: &mut Types, scalars: &Scalars) -> Result<Node, TypeError> {
    let part = number(types, scalars, 1)?;
    repeat(alloc, types, Want::Free, part, 1, SPAN)
}

#[test]
fn aggregates_have_types(rt: HostRuntime) {
    let mut types = Types::new(rt.alloc());
    let scalars = Scalars::of(&mut types).expect(&rt, "memory");
    let parts = Vec::from_slice(rt.alloc(), &[scalars.i32])
        .ok()
        .expect(&rt, "memory");
    let single = intern(&mut types, TyShape::Tuple(Parts::from_vec(parts))).expect(&rt, "memory");
    let one = intern(&mut types, TyShape::Array(scalars.i32, 1)).expect(&rt, "memory");
    let found = [
        outcome(tuple_node(rt.alloc(), &mut types, &scalars)),
        outcome(array_node(rt.alloc(), &mut types, &scalars)),
        outcome(repeat_node(rt.alloc(), &mut types, &scalars)),
        outcome(array(
            rt.alloc(),
            &mut types,
            Want::Free,
            Items::new(rt.alloc()),
            SPAN,
        )),
        outcome(literal(
            rt.alloc(),
            &mut types,
            0,
            &[None],
            Items::new(rt.alloc()),
            SPAN,
        )),
    ];
    let wanted = [
        Some(Ok(single)),
        Some(Ok(one)),
        Some(Ok(one)),
        Some(Err(Code::TypeNotKnown)),
        Some(Err(Code::NoSuchFieldOrCall)),
    ];
    assert_eq!(rt; found, wanted);
}

/// `return 1`, as a statement of a block of which a `char` is expected.
fn block_node(alloc: Global, types: &Types, scalars: &Scalars) -> Result<Node, TypeError> {
    let value = Some(number(types, scalars, 1)?);
    let back = return_of(alloc, scalars, scalars.i32, Want::Free, value, SPAN)?;
    let mut statements = Items::new(alloc);
    statements.push(statement(alloc, scalars, back, SPAN)?)?;
    let want = Want::Into(scalars.character);
    Ok(block(alloc, scalars, want, statements, None, true, SPAN)?)
}

/// `if` around a number.
fn if_node(alloc: Global, types: &Types, scalars: &Scalars) -> Result<Node, TypeError> {
    let condition = number(types, scalars, 1)?;
    let body = number(types, scalars, 1)?;
    Ok(if_then(alloc, scalars, condition, body, SPAN)?)
}

/// `while` around a number.
fn while_node(alloc: Global, types: &Types, scalars: &Scalars) -> Result<Node, TypeError> {
    let condition = number(types, scalars, 1)?;
    let body = number(types, scalars, 1)?;
    Ok(while_of(alloc, scalars, condition, body, SPAN)?)
}

/// `loop` around a number, without a `break`.
fn loop_node(alloc: Global, types: &Types, scalars: &Scalars) -> Result<Node, TypeError> {
    let body = number(types, scalars, 1)?;
    let want = Want::Just(scalars.i32);
    Ok(endless(alloc, scalars, want, body, false, SPAN)?)
}

/// `let` of a number.
fn let_node(alloc: Global, types: &Types, scalars: &Scalars) -> Result<Node, TypeError> {
    let value = Some(number(types, scalars, 1)?);
    Ok(let_of(alloc, scalars, 0, value, SPAN)?)
}

/// `assert!` of a number.
fn assert_node(alloc: Global, types: &Types, scalars: &Scalars) -> Result<Node, TypeError> {
    let condition = number(types, scalars, 1)?;
    Ok(assert_of(alloc, scalars, condition, SPAN)?)
}

#[test]
fn control_flow_has_types(rt: HostRuntime) {
    let mut types = Types::new(rt.alloc());
    let scalars = Scalars::of(&mut types).expect(&rt, "memory");
    let found = [
        outcome(block_node(rt.alloc(), &types, &scalars)),
        outcome(if_node(rt.alloc(), &types, &scalars)),
        outcome(while_node(rt.alloc(), &types, &scalars)),
        outcome(loop_node(rt.alloc(), &types, &scalars)),
        outcome(let_node(rt.alloc(), &types, &scalars)),
        outcome(assert_node(rt.alloc(), &types, &scalars)),
    ];
    let wanted = [
        Some(Ok(scalars.character)),
        Some(Ok(scalars.unit)),
        Some(Ok(scalars.unit)),
        Some(Ok(scalars.i32)),
        Some(Ok(scalars.unit)),
        Some(Ok(scalars.unit)),
    ];
    assert_eq!(rt; found, wanted);
}

/// `&1` where a reference is expected.
fn borrow_node(alloc: Global, types: &mut Types, setting: &Setting) -> Result<Node, TypeError> {
    let part = number(types, &setting.scalars, 1)?;
    let form = OnePart::Borrow(BorrowKind::Shared);
    one(alloc, types, setting, form, Want::Free, part, SPAN)
}

/// `1 == 1`
fn equal_node(alloc: Global, types: &mut Types, setting: &Setting) -> Result<Node, TypeError> {
    let first = number(types, &setting.scalars, 1)?;
    let second = number(types, &setting.scalars, 1)?;
    let form = TwoParts::Binary(BinaryOperator::Eq);
    two(alloc, types, setting, form, Want::Free, first, second, SPAN)
}

/// `println!("")` with an argument.
fn print_node(alloc: Global, types: &mut Types, setting: &Setting) -> Result<Node, TypeError> {
    let parts = numbers(alloc, types, &setting.scalars)?;
    let form = ListOfParts::Print(true, b"", &[]);
    list(alloc, types, setting, form, Want::Free, parts, SPAN)
}

#[test]
fn wholes_have_types(rt: HostRuntime) {
    let mut types = Types::new(rt.alloc());
    let scalars = Scalars::of(&mut types).expect(&rt, "memory");
    let reference = intern(&mut types, TyShape::Ref(false, scalars.i32)).expect(&rt, "memory");
    let setting = Setting {
        scalars,
        output: scalars.unit,
        is_unsafe: false,
        in_loop: false,
    };
    let byte = Want::Into(scalars.u8);
    let large = NoParts::Int(false, 300, None);
    let found = [
        outcome(leaf(rt.alloc(), &mut types, &setting, large, byte, SPAN)),
        outcome(borrow_node(rt.alloc(), &mut types, &setting)),
        outcome(equal_node(rt.alloc(), &mut types, &setting)),
        outcome(print_node(rt.alloc(), &mut types, &setting)),
    ];
    let wanted = [
        Some(Err(Code::LiteralOutOfRange)),
        Some(Ok(reference)),
        Some(Ok(scalars.boolean)),
        Some(Err(Code::BadFormatText)),
    ];
    assert_eq!(rt; found, wanted);
}
