use crate::rules::{SPAN, number, outcome};
use sqlite_items::Items;
use std::alloc::{AllocError, Global};
use tb_calls::{Callee, call_function, drop_call, method_call, path_call, path_want};
use tb_perm::Code;
use tb_rules::{Scalars, TypeError, Want, intern};
use tb_thir::Node;
use tb_types::{Builtin, TyShape, Types};

/// One argument.
fn one(alloc: Global, argument: Node) -> Result<Items<Node>, AllocError> {
    let mut arguments = Items::new(alloc);
    arguments.push(argument)?;
    Ok(arguments)
}

/// The call of a path of one argument and no type argument, in `unsafe`.
fn call(
    alloc: Global,
    types: &mut Types,
    scalars: &Scalars,
    builtin: Builtin,
    argument: Node,
) -> Result<Node, TypeError> {
    let arguments = one(alloc, argument)?;
    path_call(
        types,
        scalars,
        true,
        builtin,
        &[],
        arguments,
        Want::Free,
        SPAN,
    )
}

/// The call of a method without arguments, in `unsafe`.
fn method(
    alloc: Global,
    types: &mut Types,
    scalars: &Scalars,
    receiver: Node,
    name: &[u8],
) -> Result<Node, TypeError> {
    let arguments = Items::new(alloc);
    method_call(
        alloc,
        types,
        scalars,
        true,
        receiver,
        name,
        &[],
        arguments,
        Want::Free,
        SPAN,
    )
}

/// The call of a path with a number.
fn with_number(
    alloc: Global,
    types: &mut Types,
    scalars: &Scalars,
    builtin: Builtin,
) -> Result<Node, TypeError> {
    let value = number(types, scalars, 1)?;
    call(alloc, types, scalars, builtin, value)
}

/// `Box::into_raw(Box::new(1))`
fn raw_node(alloc: Global, types: &mut Types, scalars: &Scalars) -> Result<Node, TypeError> {
    let content = with_number(alloc, types, scalars, Builtin::BoxNew)?;
    call(alloc, types, scalars, Builtin::BoxIntoRaw, content)
}

/// `ptr::null()`
fn null_node(alloc: Global, types: &mut Types, scalars: &Scalars) -> Result<Node, TypeError> {
    let nothing = Items::new(alloc);
    path_call(
        types,
        scalars,
        false,
        Builtin::Null,
        &[],
        nothing,
        Want::Free,
        SPAN,
    )
}

/// `drop(1)`
fn drop_node(alloc: Global, types: &mut Types, scalars: &Scalars) -> Result<Node, TypeError> {
    let value = number(types, scalars, 1)?;
    let arguments = one(alloc, value)?;
    drop_call(alloc, types, scalars, 0, arguments, SPAN)
}

#[test]
fn paths_have_types(rt: HostRuntime) {
    let mut types = Types::new(rt.alloc());
    let scalars = Scalars::of(&mut types).expect(&rt, "memory");
    let boxed = intern(&mut types, TyShape::Boxed(scalars.i32)).expect(&rt, "memory");
    let raw = intern(&mut types, TyShape::Raw(true, scalars.i32)).expect(&rt, "memory");
    let found = [
        outcome(with_number(rt.alloc(), &mut types, &scalars, Builtin::BoxNew)),
        outcome(raw_node(rt.alloc(), &mut types, &scalars)),
        outcome(with_number(rt.alloc(), &mut types, &scalars, Builtin::BoxLeak)),
        outcome(null_node(rt.alloc(), &mut types, &scalars)),
        outcome(drop_node(rt.alloc(), &mut types, &scalars)),
    ];
    let wanted = [
        Some(Ok(boxed)),
        Some(Ok(raw)),
        Some(Err(Code::WrongType)),
        Some(Err(Code::TypeNotKnown)),
        Some(Ok(scalars.unit)),
    ];
    assert_eq!(rt; found, wanted);
}

/// `Cell::new(1).as_ptr()`
fn pointer_node(alloc: Global, types: &mut Types, scalars: &Scalars) -> Result<Node, TypeError> {
    let cell = with_number(alloc, types, scalars, Builtin::CellNew)?;
    method(alloc, types, scalars, cell, b"as_ptr")
}

/// `Cell::new(1).as_ptr().read()`
fn read_node(alloc: Global, types: &mut Types, scalars: &Scalars) -> Result<Node, TypeError> {
    let raw = pointer_node(alloc, types, scalars)?;
    method(alloc, types, scalars, raw, b"read")
}

/// `1.len()`
fn length_node(alloc: Global, types: &mut Types, scalars: &Scalars) -> Result<Node, TypeError> {
    let value = number(types, scalars, 1)?;
    method(alloc, types, scalars, value, b"len")
}

/// The call of an `unsafe fn` outside `unsafe`.
fn called_node(alloc: Global, scalars: &Scalars) -> Result<Node, TypeError> {
    let callee = Callee {
        function: 0,
        needs_unsafe: true,
        result: scalars.unit,
    };
    call_function(&callee, &[], false, Items::new(alloc), SPAN)
}

#[test]
fn methods_have_types(rt: HostRuntime) {
    let mut types = Types::new(rt.alloc());
    let scalars = Scalars::of(&mut types).expect(&rt, "memory");
    let raw = intern(&mut types, TyShape::Raw(true, scalars.i32)).expect(&rt, "memory");
    let found = [
        outcome(pointer_node(rt.alloc(), &mut types, &scalars)),
        outcome(read_node(rt.alloc(), &mut types, &scalars)),
        outcome(length_node(rt.alloc(), &mut types, &scalars)),
        outcome(called_node(rt.alloc(), &scalars)),
    ];
    let wanted = [
        Some(Ok(raw)),
        Some(Ok(scalars.i32)),
        Some(Err(Code::NoSuchFieldOrCall)),
        Some(Err(Code::NeedsUnsafe)),
    ];
    assert_eq!(rt; found, wanted);
}

#[test]
fn layouts_are_expected(rt: HostRuntime) {
    let mut types = Types::new(rt.alloc());
    let item = types.declare("Layout", true).expect(&rt, "memory");
    types
        .define(item, Vec::new(rt.alloc()))
        .expect(&rt, "memory");
    let scalars = Scalars::of(&mut types).expect(&rt, "memory");
    let layout = intern(&mut types, TyShape::Struct(0)).expect(&rt, "memory");
    let found = path_want(&mut types, &scalars, Builtin::Alloc, Want::Free, 0).expect(
        &rt, "memory",
    );
    assert_eq!(rt; found, Want::Into(layout));
}
