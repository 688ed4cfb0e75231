//! How many locals a function has.

ghost use Rattle.std.specs.Prelude.{◌≡◌, ◌≤◌, ◌+◌, sum_by};
ghost use Rattle.tb_small.specs.Grammar.{atom_locals, sum_locals, spot_locals, value_locals, right_locals, assign_locals, print_locals, inner_locals, statement_locals};
ghost use Rattle.tb_small.specs.Reading.{Gives, within};

use crate::error::SmallError;
use crate::tree::{Assign, Atom, Inner, Print, Right, Spot, Statement, Sum, Value};

/// How many locals a function may have.
const MAX_LOCALS: usize = 4096;

fn atom_locals(atom: &Atom) -> usize
    ensures count { result ≡ atom_locals atom.now }
    ensures few { result ≤ 2 }
{
    match atom {
        Atom::Int(_) => 0,
        Atom::Variable(_) => 1,
        Atom::Deref(_) => 2,
    }
}

fn spot_locals(spot: &Spot) -> usize
    ensures count { result ≡ spot_locals spot.now }
    ensures few { result ≤ 1 }
{
    match spot {
        Spot::Variable(_) => 0,
        Spot::Deref(_) => 1,
    }
}

/// So many locals and some more, if a function may have as many.
fn plus(locals: usize, more: usize) -> Result<usize, SmallError>
    requires locals { locals ≤ 4096 }
    requires more { more ≤ 3 }
    ensures { Gives (λ total. total) result (within (locals + more)) }
{
    if locals + more > MAX_LOCALS {
        return Err(SmallError::NotBuilt);
    }
    Ok(locals + more)
}

/// The locals with those of a sum.
fn plus_sum(locals: usize, sum: &Sum) -> Result<usize, SmallError>
    requires { locals ≤ 4096 }
    ensures { Gives (λ total. total) result (within (locals + sum_locals sum.now)) }
{
    let mut total = plus(locals, atom_locals(&sum.first))?;
    for atom in sum.rest.as_slice() {
        total = plus(total, atom_locals(atom) + 1)?;
    }
    Ok(total)
}

/// The locals with those of a value.
fn plus_value(locals: usize, value: &Value) -> Result<usize, SmallError>
    requires { locals ≤ 4096 }
    ensures { Gives (λ total. total) result (within (locals + value_locals value.now)) }
{
    match value {
        Value::Sum(sum) => plus_sum(locals, sum),
        Value::Borrow(borrow) => plus(locals, spot_locals(&borrow.operand) + 1),
        Value::Pointer(_) => plus(locals, 1),
    }
}

/// The locals with those of a right side.
fn plus_right(locals: usize, right: &Right) -> Result<usize, SmallError>
    requires { locals ≤ 4096 }
    ensures { Gives (λ total. total) result (within (locals + right_locals right.now)) }
{
    match right {
        Right::Plain(value) => plus_value(locals, value),
        Right::Unsafe(block) => plus_value(locals, &block.value),
    }
}

/// The locals with those of an assignment.
fn plus_assign(locals: usize, assign: &Assign) -> Result<usize, SmallError>
    requires { locals ≤ 4096 }
    ensures { Gives (λ total. total) result (within (locals + assign_locals assign.now)) }
{
    plus_right(plus(locals, spot_locals(&assign.target))?, &assign.value)
}

/// The locals with those of a print.
fn plus_print(locals: usize, print: &Print) -> Result<usize, SmallError>
    requires { locals ≤ 4096 }
    ensures { Gives (λ total. total) result (within (locals + print_locals print.now)) }
{
    plus_sums(locals, print.arguments.as_slice())
}

/// The locals with those of these sums.
fn plus_sums(locals: usize, sums: &[Sum]) -> Result<usize, SmallError>
    requires { locals ≤ 4096 }
    ensures { Gives (λ total. total) result (within (locals + sum_by sum_locals sums.now)) }
{
    let mut total = locals;
    for sum in sums {
        total = plus_sum(total, sum)?;
    }
    Ok(total)
}

/// The locals with those of a statement of an `unsafe` block.
fn plus_inner(locals: usize, inner: &Inner) -> Result<usize, SmallError>
    requires { locals ≤ 4096 }
    ensures { Gives (λ total. total) result (within (locals + inner_locals inner.now)) }
{
    match inner {
        Inner::Assign(assign) => plus_assign(locals, assign),
        Inner::Print(print) => plus_print(locals, print),
    }
}

/// The locals with those of the statements of an `unsafe` block.
fn plus_inners(locals: usize, inners: &[Inner]) -> Result<usize, SmallError>
    requires { locals ≤ 4096 }
    ensures { Gives (λ total. total) result (within (locals + sum_by inner_locals inners.now)) }
{
    let mut total = locals;
    for inner in inners {
        total = plus_inner(total, inner)?;
    }
    Ok(total)
}

/// The locals with those of a statement.
pub fn plus_statement(locals: usize, statement: &Statement) -> Result<usize, SmallError>
    requires { locals ≤ 4096 }
    ensures { Gives (λ total. total) result (within (locals + statement_locals statement.now)) }
{
    match statement {
        Statement::Let(binding) => plus_right(plus(locals, 1)?, &binding.value),
        Statement::Assign(assign) => plus_assign(locals, assign),
        Statement::Print(print) => plus_print(locals, print),
        Statement::Unsafe(block) => plus_inners(locals, block.statements.as_slice()),
    }
}
