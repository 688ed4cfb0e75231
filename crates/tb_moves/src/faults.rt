//! The first fault of a program.

ghost use Rattle.std.specs.Prelude.{◌≡◌, IsOk, IfErr};
ghost use Rattle.tb_flow.specs.Summaries.{yes_in};
ghost use Rattle.tb_moves.specs.Trees.{body_of};
ghost use Rattle.tb_moves.specs.Moves.{starts_yes, NoFault, IsFirstFault};
ghost use Rattle.tb_moves.specs.Firsts.{part_fault, variable_fault, function_fault};

use crate::error::{MoveError, earliest};
use crate::scan::{Scan, summed};
use tb_flow::{Mark, Marks, Question};
use tb_perm::Span;
use tb_thir::{Function, Thir};
use tb_types::Types;

/// Whether in the program each variable has a value, on every way, wherever it is used, and nothing is moved
/// out of a part.
///
/// A read of a variable whose type is not `Copy` moves its value out; so a variable has a value behind a
/// `let` with a value or an assignment of the whole of it, until it is moved. A use of a variable is each
/// mention of it in an expression other than as the whole target of `=`. The ways are those that the
/// forms of expressions leave open, whatever the values of conditions are.
///
/// The error is the first fault, by the place where it begins: `UsedAfterMove` where on some way the last
/// event of the variable is a move; else `NotInitialised` where on some way it has no value;
/// `MoveOutOfAPart` at a read of a field, an element or what a pointer leads to whose type is not `Copy`,
/// whether a way leads there or not (Rust Reference, "Moved and copied types").
pub fn moves(thir: &Thir) -> Result<(), MoveError>
    ensures none { IsOk result → NoFault thir.now }
    ensures first { IfErr result (IsFirstFault thir.now) }
{
    let mut first = None;
    for function in thir.functions.as_slice() {
        first = earliest(first, function_fault(&thir.types, function));
    }
    match first {
        None => Ok(()),
        Some(fault) => Err(fault),
    }
}

/// The first fault of a function.
fn function_fault(types: &Types, function: &Function) -> Option<MoveError>
    ensures { result ≡ function_fault types.now function.now }
{
    let mut first = part_fault(types, function);
    for variable in 0..function.variables.as_slice().len() {
        first = earliest(first, variable_fault(types, function, variable));
    }
    first
}

/// The first move out of a part.
fn part_fault(types: &Types, function: &Function) -> Option<MoveError>
    ensures { result ≡ part_fault types.now function.now }
{
    let scan = Scan {
        types,
        question: Question::NoValue,
        variable: 0,
    };
    match summed(&scan, &function.body).part {
        Some(span) => Some(MoveError::MoveOutOfAPart(span)),
        None => None,
    }
}

/// The first fault of the uses of a variable. Where none lacks a value none was moved, since behind a move
/// there is no value.
fn variable_fault(types: &Types, function: &Function, variable: usize) -> Option<MoveError>
    ensures { result ≡ variable_fault types.now function.now variable }
{
    let Some(missing) = yes_at(types, function, Question::NoValue, variable) else {
        return None;
    };
    let moved = match yes_at(types, function, Question::AfterMove, variable) {
        Some(span) => Some(MoveError::UsedAfterMove(span)),
        None => None,
    };
    earliest(Some(MoveError::NotInitialised(missing)), moved)
}

/// The first use of a variable at which the answer is yes on some way.
fn yes_at(types: &Types, function: &Function, question: Question, variable: usize) -> Option<Span>
    ensures { result ≡ yes_in question variable (starts_yes question function.now variable) (body_of types.now function.now) }
{
    let scan = Scan {
        types,
        question,
        variable,
    };
    let start = if starts_yes(function, question, variable) {
        Mark::Yes
    } else {
        Mark::No
    };
    summed(&scan, &function.body)
        .after(Marks::only(start))
        .yes_use
}

/// The answer where the function begins. Its parameters have values.
fn starts_yes(function: &Function, question: Question, variable: usize) -> bool
    ensures { result ≡ starts_yes question function.now variable }
{
    match question {
        Question::NoValue => variable >= function.parameters.as_slice().len(),
        Question::AfterMove => false,
    }
}
