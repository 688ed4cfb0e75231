//! Calls of methods.

ghost use Rattle.std.specs.Prelude.{◌≡◌, IfOk};
ghost use Rattle.tb_rules.specs.Answers.{Gives};
ghost use Rattle.tb_calls.specs.Methods.{row_by, method_operand, step_want, method_want, asks_mutable, blocked, or_blocked, method_fault, method_about, received, passing_of, with_receiver, length_of, method_built, called_by, method_called, method_call};

use crate::answers::built;
use crate::names::{Method, Step, method_step};
use crate::paths::{pointee, sized};
use crate::receivers::{before, passing_of, received};
use crate::rows::{About, Answer, Operand, Operands, Row, call_fault, operand_at, row_of, safe};
use sqlite_items::{Boxed, Items};
use std::alloc::{AllocError, Global};
use tb_perm::{Code, Span};
use tb_places::{behind, deref_all};
use tb_rules::{Scalars, TypeError, Want, kind};
use tb_thir::{Head, Node};
use tb_types::{Builtin, IntKind, Ty, Types};

/// A method that may be called.
#[derive(Clone, Copy)]
struct Called {
    method: Method,
    /// What the call gives.
    answer: Answer,
    /// What it is about.
    about: Ty,
}

fn row_by(method: Method, mutable: bool) -> Row
    ensures { result ≡ row_by method mutable }
{
    match method {
        Method::Length => safe(Operands::Zero, About::Receiver, Answer::Int(IntKind::Usize)),
        Method::Call(builtin) => row_of(builtin, mutable),
    }
}

fn method_operand(scalars: &Scalars, content: Ty, operand: Option<Operand>) -> Want
    ensures { result ≡ method_operand scalars.now content operand }
{
    match operand {
        Some(Operand::About) => Want::Into(content),
        Some(Operand::Int(kind)) => Want::Into(scalars.integer(kind)),
        _ => Want::Free,
    }
}

fn step_want(scalars: &Scalars, step: Option<Step>, at: usize) -> Want
    ensures { result ≡ step_want scalars.now step at }
{
    match step {
        None => Want::Free,
        Some(step) => {
            let row = row_by(step.method, step.mutable);
            method_operand(scalars, step.content, operand_at(row.operands, at))
        }
    }
}

/// What is expected of the argument at a place of a method, after a receiver of this type: a `usize` for `add` and `sub`, an `isize` for
/// `offset`, what the receiver holds or leads to for `set` and `write`, with coercions. Nothing where there is no such
/// method or argument.
pub fn method_want(types: &Types, scalars: &Scalars, receiver: Ty, name: &[u8], at: usize) -> Want
    ensures want { result ≡ method_want types.now scalars.now receiver name.now at }
{
    let ty = behind(types, receiver.0, receiver);
    step_want(
        scalars,
        method_step(types, scalars, kind(types, ty), name),
        at,
    )
}

fn asks_mutable(method: Method) -> bool
    ensures { result ≡ asks_mutable method }
{
    match method {
        Method::Call(Builtin::SliceAsMutPtr) => true,
        _ => false,
    }
}

fn blocked(method: Method, place: &Node) -> Option<Code>
    ensures { result ≡ blocked method place.now }
{
    if asks_mutable(method) && !place.is_mutable() {
        Some(Code::NotMutable)
    } else {
        None
    }
}

fn or_blocked(first: Option<Code>, second: Option<Code>) -> Option<Code>
    ensures { result ≡ or_blocked first second }
{
    match first {
        Some(code) => Some(code),
        None => second,
    }
}

/// What forbids the call of a method.
fn method_fault(
    row: Row,
    method: Method,
    is_unsafe: bool,
    place: &Node,
    written: usize,
    arguments: usize,
) -> Option<Code>
    ensures { result ≡ method_fault row method is_unsafe place.now written arguments }
{
    let fault = call_fault(row, is_unsafe, written, arguments);
    or_blocked(fault, blocked(method, place))
}

fn method_about(
    types: &Types,
    about: About,
    content: Ty,
    written: Option<Ty>,
    want: Want,
    span: Span,
) -> Result<Ty, TypeError>
    ensures { Gives result (λ ty. ty) (method_about types.now about content written want span) }
{
    match about {
        About::Pointee => sized(types, pointee(types, written, want), span),
        _ => Ok(content),
    }
}

fn with_receiver(
    alloc: Global,
    types: &mut Types,
    scalars: &Scalars,
    answer: Answer,
    builtin: Builtin,
    about: Ty,
    place: Node,
    arguments: Items<Node>,
    span: Span,
) -> Result<Node, TypeError>
    ensures { Gives result (λ node. (node, types.new)) (with_receiver (received types.old (passing_of builtin) place) scalars.now answer builtin about arguments span) }
{
    let receiver = received(alloc, types, passing_of(builtin), place)?;
    let arguments = before(alloc, receiver, arguments)?;
    built(types, scalars, answer, builtin, about, arguments, span)
}

fn length_of(alloc: Global, scalars: &Scalars, place: Node, span: Span) -> Result<Node, AllocError>
    ensures { IfOk result (λ node. node ≡ length_of scalars.now place span) }
{
    let operand = Boxed::new(alloc, place)?;
    Ok(Node::Length {
        head: Head {
            ty: scalars.usize,
            span,
        },
        operand,
    })
}

fn method_built(
    alloc: Global,
    types: &mut Types,
    scalars: &Scalars,
    found: Called,
    place: Node,
    arguments: Items<Node>,
    span: Span,
) -> Result<Node, TypeError>
    ensures { Gives result (λ node. (node, types.new)) (method_built types.old scalars.now found.answer found.method found.about place arguments span) }
{
    match found.method {
        Method::Length => Ok(length_of(alloc, scalars, place, span)?),
        Method::Call(builtin) => with_receiver(
            alloc,
            types,
            scalars,
            found.answer,
            builtin,
            found.about,
            place,
            arguments,
            span,
        ),
    }
}

fn called_by(
    types: &Types,
    is_unsafe: bool,
    step: Step,
    place: &Node,
    written: &[Ty],
    count: usize,
    want: Want,
    span: Span,
) -> Result<Called, TypeError>
    ensures { Gives result (λ found. found) (called_by types.now is_unsafe (row_by step.method step.mutable) step place.now written.now count want span) }
{
    let row = row_by(step.method, step.mutable);
    if let Some(code) = method_fault(row, step.method, is_unsafe, place, written.len(), count) {
        return Err(TypeError::Refused(code, span));
    }
    let argument = written.get(0).copied();
    let about = method_about(types, row.about, step.content, argument, want, span)?;
    Ok(Called {
        method: step.method,
        answer: row.answer,
        about,
    })
}

/// The method of a place, with so many arguments, or what forbids its call.
fn method_called(
    types: &Types,
    scalars: &Scalars,
    is_unsafe: bool,
    place: &Node,
    name: &[u8],
    written: &[Ty],
    count: usize,
    want: Want,
    span: Span,
) -> Result<Called, TypeError>
    ensures { Gives result (λ found. found) (method_called types.now scalars.now is_unsafe place.now name.now written.now count want span) }
{
    match method_step(types, scalars, kind(types, place.head().ty), name) {
        None => Err(TypeError::Refused(Code::NoSuchFieldOrCall, span)),
        Some(step) => called_by(types, is_unsafe, step, place, written, count, want, span),
    }
}

/// `e.name(..)`, a method of what lies behind the references and Boxes of `e`, with these type arguments. It is refused with
/// `NoSuchFieldOrCall` where there is none of this name, with `WrongNumber` for another number of arguments or type arguments, with `NeedsUnsafe`, with
/// `NotMutable` for `as_mut_ptr` of what is not mutable, with `TypeNotKnown` where no type follows for `cast`, and with `TypeNotAllowedHere`
/// where that is a slice, in this order.
pub fn method_call(
    alloc: Global,
    types: &mut Types,
    scalars: &Scalars,
    is_unsafe: bool,
    receiver: Node,
    name: &[u8],
    written: &[Ty],
    arguments: Items<Node>,
    want: Want,
    span: Span,
) -> Result<Node, TypeError>
    ensures call { Gives result (λ node. (node, types.new)) (method_call types.old scalars.now is_unsafe receiver name.now written.now arguments want span) }
{
    let place = deref_all(alloc, types, receiver)?;
    let count = arguments.len();
    let found = method_called(
        types, scalars, is_unsafe, &place, name, written, count, want, span,
    )?;
    method_built(alloc, types, scalars, found, place, arguments, span)
}
