//! Which methods a receiver has.

ghost use Rattle.std.specs.Prelude.{◌≡◌, false};
ghost use Rattle.tb_calls.specs.Names.{cell_method, unsafe_cell_method, moving_method, looking_method, access_method, or_method, pointer_method, elements_method, layout_method, step_by, method_step};

use tb_rules::{Scalars, TypeKind, is_slice};
use tb_types::{Builtin, Ty, Types};

/// What the call of a method is.
#[derive(Clone, Copy)]
pub enum Method {
    /// The length of an array or a slice.
    Length,
    /// A built-in call.
    Call(Builtin),
}

/// A method of a receiver.
#[derive(Clone, Copy)]
pub struct Step {
    pub method: Method,
    /// What the receiver holds or leads to; `()` for `Layout`.
    pub content: Ty,
    /// Whether the receiver is a `*mut`.
    pub mutable: bool,
}

fn cell_method(name: &[u8]) -> Option<Method>
    ensures { result ≡ cell_method name.now }
{
    if name == b"get".as_slice() {
        Some(Method::Call(Builtin::CellGet))
    } else if name == b"set".as_slice() {
        Some(Method::Call(Builtin::CellSet))
    } else if name == b"as_ptr".as_slice() {
        Some(Method::Call(Builtin::CellAsPtr))
    } else {
        None
    }
}

fn unsafe_cell_method(name: &[u8]) -> Option<Method>
    ensures { result ≡ unsafe_cell_method name.now }
{
    if name == b"get".as_slice() {
        Some(Method::Call(Builtin::UnsafeCellGet))
    } else {
        None
    }
}

/// A method that moves a raw pointer.
fn moving_method(name: &[u8]) -> Option<Method>
    ensures { result ≡ moving_method name.now }
{
    if name == b"add".as_slice() {
        Some(Method::Call(Builtin::Add))
    } else if name == b"sub".as_slice() {
        Some(Method::Call(Builtin::Sub))
    } else if name == b"offset".as_slice() {
        Some(Method::Call(Builtin::Offset))
    } else {
        None
    }
}

/// A method that looks at a raw pointer alone.
fn looking_method(name: &[u8]) -> Option<Method>
    ensures { result ≡ looking_method name.now }
{
    if name == b"cast".as_slice() {
        Some(Method::Call(Builtin::Cast))
    } else if name == b"is_null".as_slice() {
        Some(Method::Call(Builtin::IsNull))
    } else if name == b"addr".as_slice() {
        Some(Method::Call(Builtin::Addr))
    } else {
        None
    }
}

/// A method that goes through a raw pointer.
fn access_method(mutable: bool, name: &[u8]) -> Option<Method>
    ensures { result ≡ access_method mutable name.now }
{
    if name == b"read".as_slice() {
        Some(Method::Call(Builtin::Read))
    } else if name == b"write".as_slice() {
        if mutable {
            Some(Method::Call(Builtin::Write))
        } else {
            None
        }
    } else {
        None
    }
}

fn or_method(first: Option<Method>, second: Option<Method>) -> Option<Method>
    ensures { result ≡ or_method first second }
{
    match first {
        Some(method) => Some(method),
        None => second,
    }
}

fn pointer_method(mutable: bool, name: &[u8]) -> Option<Method>
    ensures { result ≡ pointer_method mutable name.now }
{
    let through = or_method(access_method(mutable, name), looking_method(name));
    or_method(moving_method(name), through)
}

fn elements_method(name: &[u8]) -> Option<Method>
    ensures { result ≡ elements_method name.now }
{
    if name == b"len".as_slice() {
        Some(Method::Length)
    } else if name == b"as_ptr".as_slice() {
        Some(Method::Call(Builtin::SliceAsPtr))
    } else if name == b"as_mut_ptr".as_slice() {
        Some(Method::Call(Builtin::SliceAsMutPtr))
    } else {
        None
    }
}

fn layout_method(name: &[u8]) -> Option<Method>
    ensures { result ≡ layout_method name.now }
{
    if name == b"size".as_slice() {
        Some(Method::Call(Builtin::LayoutSize))
    } else if name == b"align".as_slice() {
        Some(Method::Call(Builtin::LayoutAlign))
    } else {
        None
    }
}

fn step_by(method: Option<Method>, content: Ty, mutable: bool) -> Option<Step>
    ensures { result ≡ step_by method content mutable }
{
    match method {
        Some(method) => Some(Step {
            method,
            content,
            mutable,
        }),
        None => None,
    }
}

/// The method of this name that a receiver of this kind has, with references and Boxes left out before it. Cells, arrays, slices and
/// `Layout` have methods, and raw pointers that do not lead to slices.
pub fn method_step(types: &Types, scalars: &Scalars, kind: TypeKind, name: &[u8]) -> Option<Step>
    ensures step { result ≡ method_step types.now scalars.now kind name.now }
{
    match kind {
        TypeKind::Cell(part) => step_by(cell_method(name), part, false),
        TypeKind::UnsafeCell(part) => step_by(unsafe_cell_method(name), part, false),
        TypeKind::Raw(mutable, to) => if is_slice(tb_rules::kind(types, to)) {
            None
        } else {
            step_by(pointer_method(mutable, name), to, mutable)
        },
        TypeKind::Array(part, _) | TypeKind::Slice(part) => {
            step_by(elements_method(name), part, false)
        }
        TypeKind::Struct(item) => if item == 0 {
            step_by(layout_method(name), scalars.unit, false)
        } else {
            None
        },
        _ => None,
    }
}
