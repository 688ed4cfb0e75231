//! Where the parts of a source stand.
ghost use Rattle.std.specs.Prelude.{◌≡◌};
ghost use Rattle.tb_small.specs.Grammar.{spot_span};
ghost use Rattle.tb_lower.specs.Lowering.{atom_span, last_atom, from_to, sum_span, value_span, right_span, assign_span};

use tb_perm::Span;
use tb_small::{Assign, Atom, Right, Spot, Sum, Value};

/// Where a place stands.
pub fn span_of_spot(spot: Spot) -> Span
    ensures { result ≡ spot_span spot }
{
    match spot {
        Spot::Variable(variable) => variable.span,
        Spot::Deref(deref) => deref.span,
    }
}

/// Where an atom stands.
fn span_of_atom(atom: Atom) -> Span
    ensures { result ≡ atom_span atom }
{
    match atom {
        Atom::Int(int) => int.span,
        Atom::Variable(variable) => variable.span,
        Atom::Deref(deref) => deref.span,
    }
}

/// From the first byte of one atom to the last of another.
pub fn span_from_to(first: Atom, last: Atom) -> Span
    ensures { result ≡ from_to first last }
{
    Span {
        lo: span_of_atom(first).lo,
        hi: span_of_atom(last).hi,
    }
}

/// The last atom of a sum.
fn last(sum: &Sum) -> Atom
    ensures { result ≡ last_atom sum.now.first sum.now.rest }
{
    let mut last = sum.first;
    for atom in sum.rest.as_slice() {
        last = *atom;
    }
    last
}

/// Where a value stands.
fn span_of_value(value: &Value) -> Span
    ensures { result ≡ value_span value.now }
{
    match value {
        Value::Sum(sum) => span_from_to(sum.first, last(sum)),
        Value::Borrow(borrow) => borrow.span,
        Value::Pointer(variable) => variable.span,
    }
}

/// Where a right side stands.
fn span_of_right(right: &Right) -> Span
    ensures { result ≡ right_span right.now }
{
    match right {
        Right::Plain(value) => span_of_value(value),
        Right::Unsafe(block) => block.span,
    }
}

/// An assignment without its semicolon.
pub fn span_of_assign(assign: &Assign) -> Span
    ensures { result ≡ assign_span assign.now }
{
    Span {
        lo: span_of_spot(assign.target).lo,
        hi: span_of_right(&assign.value).hi,
    }
}
