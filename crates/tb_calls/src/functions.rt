//! Calls of functions of the program.

ghost use Rattle.std.specs.Prelude.{◌≡◌, length, slice_get};
ghost use Rattle.tb_rules.specs.Answers.{Gives};
ghost use Rattle.tb_calls.specs.Functions.{argument_want, function_fault, call_function};

use sqlite_items::Items;
use tb_perm::{Code, Span};
use tb_rules::{TypeError, Want, into_or_free};
use tb_thir::{Head, Node};
use tb_types::Ty;

/// A function of the program that is called.
#[derive(Clone, Copy)]
pub struct Callee {
    /// Its number.
    pub function: u32,
    /// Whether it is an `unsafe fn`.
    pub needs_unsafe: bool,
    /// The type of its result.
    pub result: Ty,
}

/// What is expected of the argument at a place: the type of the parameter, with coercions.
pub fn argument_want(parameters: &[Ty], at: usize) -> Want
    ensures want { result ≡ argument_want parameters.now at }
{
    into_or_free(parameters.get(at).copied())
}

/// What forbids a call with so many arguments: another number of them is due, or it needs `unsafe`.
fn function_fault(
    callee: &Callee,
    parameters: usize,
    is_unsafe: bool,
    arguments: usize,
) -> Option<Code>
    ensures { result ≡ function_fault callee.now parameters is_unsafe arguments }
{
    if arguments != parameters {
        Some(Code::WrongNumber)
    } else if callee.needs_unsafe && !is_unsafe {
        Some(Code::NeedsUnsafe)
    } else {
        None
    }
}

/// `f(e, ..)`, of the type of the result of `f`; refused with `WrongNumber` for another number of arguments than there are
/// parameters, else with `NeedsUnsafe` for an `unsafe fn` outside `unsafe`.
pub fn call_function(
    callee: &Callee,
    parameters: &[Ty],
    is_unsafe: bool,
    arguments: Items<Node>,
    span: Span,
) -> Result<Node, TypeError>
    ensures call { Gives result (λ node. node) (call_function callee.now parameters.now is_unsafe arguments span) }
{
    match function_fault(callee, parameters.len(), is_unsafe, arguments.len()) {
        Some(code) => Err(TypeError::Refused(code, span)),
        None => Ok(Node::Call {
            head: Head {
                ty: callee.result,
                span,
            },
            function: callee.function,
            arguments,
        }),
    }
}
