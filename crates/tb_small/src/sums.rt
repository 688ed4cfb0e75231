//! Atoms, sums and arguments.

ghost use Rattle.std.specs.Prelude.{◌≡◌, ◌≤◌, length};
ghost use Rattle.tb_small.specs.Reading.{Gives, int_at, literal_value, atom_at, next_atom_at, ends_sum, atoms_at, sum_at, next_argument_at, ends_arguments, arguments_at};

use crate::error::SmallError;
use crate::places::{deref_at, int_variable_at};
use crate::scope::Known;
use crate::tree::{Atom, Int, Sum};
use crate::words::{eat, has_byte, is_name, is_number, next_word, span_of};
use sqlite_items::Items;
use std::alloc::Global;

/// The greatest value of a literal.
const MAX_VALUE: u64 = 2_147_483_647;

/// How many atoms a sum may have behind its first.
const MAX_MORE_ATOMS: usize = 63;

/// What a word of digits stands for, if that is in range.
#[tactic(auto, unfolding(crate::specs::Reading::literal_value))]
fn literal_value(word: &[u8]) -> Result<u32, SmallError>
    ensures { Gives (λ value. value) result (literal_value word.now) }
{
    if !is_number(word) {
        return Err(SmallError::NotBuilt);
    }
    let mut value: u64 = 0;
    let mut rest = word;
    while let [digit, after @ ..] = rest {
        value = value * 10 + u64::from(*digit - b'0');
        if value > MAX_VALUE {
            return Err(SmallError::NotBuilt);
        }
        rest = after;
    }
    Ok(value as u32)
}

/// The literal that comes next, and what follows it.
#[tactic(auto, unfolding(crate::specs::Reading::int_at))]
fn int_at(size: usize, text: &[u8]) -> Result<(Int, &[u8]), SmallError>
    requires { size ≤ 1048576 }
    ensures { Gives (λ x. (x.0, x.1.now)) result (int_at size text.now) }
{
    let (word, rest) = next_word(text);
    let value = literal_value(word)?;
    let span = span_of(size, text, rest);
    Ok((Int { span, value }, rest))
}

/// The literal or `i32` place that comes next, and what follows it.
#[tactic(auto, unfolding(crate::specs::Reading::atom_at))]
fn atom_at<'a>(
    scope: &[Known],
    inside: bool,
    size: usize,
    text: &'a [u8],
) -> Result<(Atom, &'a [u8]), SmallError>
    requires size { size ≤ 1048576 }
    requires room { length scope.now ≤ 4096 }
    ensures { Gives (λ x. (x.0, x.1.now)) result (atom_at scope.now inside size text.now) }
{
    if has_byte(b'*', text) {
        let (deref, rest) = deref_at(scope, inside, size, text)?;
        return Ok((Atom::Deref(deref), rest));
    }
    let (word, _) = next_word(text);
    if is_name(word) {
        let (variable, rest) = int_variable_at(scope, size, text)?;
        Ok((Atom::Variable(variable), rest))
    } else {
        let (int, rest) = int_at(size, text)?;
        Ok((Atom::Int(int), rest))
    }
}

/// The atom behind the `+` that comes next, and what follows it.
#[tactic(auto, unfolding(crate::specs::Reading::next_atom_at))]
fn next_atom_at<'a>(
    scope: &[Known],
    inside: bool,
    size: usize,
    text: &'a [u8],
) -> Result<(Atom, &'a [u8]), SmallError>
    requires size { size ≤ 1048576 }
    requires room { length scope.now ≤ 4096 }
    ensures { Gives (λ x. (x.0, x.1.now)) result (next_atom_at scope.now inside size text.now) }
{
    let rest = eat(b"+", text)?;
    atom_at(scope, inside, size, rest)
}

fn ends_sum(text: &[u8]) -> bool
    ensures { result ≡ ends_sum text.now }
{
    !has_byte(b'+', text)
}

/// The atoms of a sum behind its first, and what follows them.
#[tactic(auto, using(crate::proofs::Many::loops), unfolding(crate::specs::Reading::atoms_at))]
fn atoms_at<'a>(
    alloc: Global,
    scope: &[Known],
    inside: bool,
    size: usize,
    text: &'a [u8],
) -> Result<(Items<Atom>, &'a [u8]), SmallError>
    requires size { size ≤ 1048576 }
    requires room { length scope.now ≤ 4096 }
    ensures { Gives (λ x. (x.0, x.1.now)) result (atoms_at scope.now inside size text.now) }
{
    let mut atoms = Items::new(alloc);
    let mut rest = text;
    for _ in 0..MAX_MORE_ATOMS {
        if ends_sum(rest) {
            return Ok((atoms, rest));
        }
        let (atom, after) = next_atom_at(scope, inside, size, rest)?;
        atoms.push(atom).map_err(|_| SmallError::Memory)?;
        rest = after;
    }
    if ends_sum(rest) {
        Ok((atoms, rest))
    } else {
        Err(SmallError::NotBuilt)
    }
}

/// The sum that comes next, and what follows it.
#[tactic(auto, unfolding(crate::specs::Reading::sum_at))]
pub fn sum_at<'a>(
    alloc: Global,
    scope: &[Known],
    inside: bool,
    size: usize,
    text: &'a [u8],
) -> Result<(Sum, &'a [u8]), SmallError>
    requires size { size ≤ 1048576 }
    requires room { length scope.now ≤ 4096 }
    ensures { Gives (λ x. (x.0, x.1.now)) result (sum_at scope.now inside size text.now) }
{
    let (first, rest) = atom_at(scope, inside, size, text)?;
    let (more, rest) = atoms_at(alloc, scope, inside, size, rest)?;
    Ok((Sum { first, rest: more }, rest))
}

/// The sum behind the comma that comes next, and what follows it.
#[tactic(auto, unfolding(crate::specs::Reading::next_argument_at))]
fn next_argument_at<'a>(
    alloc: Global,
    scope: &[Known],
    inside: bool,
    size: usize,
    text: &'a [u8],
) -> Result<(Sum, &'a [u8]), SmallError>
    requires size { size ≤ 1048576 }
    requires room { length scope.now ≤ 4096 }
    ensures { Gives (λ x. (x.0, x.1.now)) result (next_argument_at scope.now inside size text.now) }
{
    let rest = eat(b",", text)?;
    sum_at(alloc, scope, inside, size, rest)
}

fn ends_arguments(text: &[u8]) -> bool
    ensures { result ≡ ends_arguments text.now }
{
    !has_byte(b',', text)
}

/// The arguments that come next, each behind a comma, and what follows them.
#[tactic(auto, using(crate::proofs::Many::loops), unfolding(crate::specs::Reading::arguments_at))]
pub fn arguments_at<'a>(
    alloc: Global,
    scope: &[Known],
    inside: bool,
    size: usize,
    text: &'a [u8],
) -> Result<(Items<Sum>, &'a [u8]), SmallError>
    requires size { size ≤ 1048576 }
    requires room { length scope.now ≤ 4096 }
    ensures { Gives (λ x. (x.0, x.1.now)) result (arguments_at scope.now inside size text.now) }
{
    let mut arguments = Items::new(alloc);
    let mut rest = text;
    for _ in 0..text.len() {
        if ends_arguments(rest) {
            return Ok((arguments, rest));
        }
        let (argument, after) = next_argument_at(alloc, scope, inside, size, rest)?;
        arguments.push(argument).map_err(|_| SmallError::Memory)?;
        rest = after;
    }
    if ends_arguments(rest) {
        Ok((arguments, rest))
    } else {
        Err(SmallError::NotBuilt)
    }
}
