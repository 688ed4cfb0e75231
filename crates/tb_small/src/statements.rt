//! Statements.

ghost use Rattle.std.specs.Prelude.{◌≡◌, ◌≤◌, length};
ghost use Rattle.tb_small.specs.Reading.{Gives, mut_at, let_at, assign_at, macro_at, print_at, is_call, inner_at, closes, inners_at, unsafe_at, statement_at, statements_at};

use crate::error::SmallError;
use crate::limits::plus_statement;
use crate::places::{same_type, spot_type, target_at};
use crate::scope::{Known, bind};
use crate::sums::arguments_at;
use crate::texts::text_at;
use crate::tree::{Assign, Inner, Let, Name, Print, Statement, UnsafeBlock};
use crate::values::{right_at, right_type};
use crate::words::{eat, has_byte, has_word, name_at, next_word, span_of};
use sqlite_items::Items;
use std::alloc::Global;

/// Whether `mut` comes next, and what follows it.
#[tactic(auto, unfolding(crate::specs::Reading::mut_at))]
fn mut_at(text: &[u8]) -> Result<(bool, &[u8]), SmallError>
    ensures { Gives (λ x. (x.0, x.1.now)) result (mut_at text.now) }
{
    if has_word(b"mut", text) {
        let rest = eat(b"mut", text)?;
        Ok((true, rest))
    } else {
        Ok((false, text))
    }
}

/// The `let` that comes next, and what follows its semicolon.
#[tactic(auto, unfolding(crate::specs::Reading::let_at))]
fn let_at<'a>(
    alloc: Global,
    scope: &[Known],
    size: usize,
    text: &'a [u8],
) -> Result<(Let, &'a [u8]), SmallError>
    requires size { size ≤ 1048576 }
    requires room { length scope.now ≤ 4096 }
    ensures { Gives (λ x. (x.0, x.1.now)) result (let_at scope.now size text.now) }
{
    let keyword = eat(b"let", text)?;
    let (mutable, front) = mut_at(keyword)?;
    let (word, after) = name_at(front)?;
    let equals = eat(b"=", after)?;
    let (value, semicolon) = right_at(alloc, scope, false, size, equals)?;
    let rest = eat(b";", semicolon)?;
    let bytes = Items::from_slice(alloc, word).map_err(|_| SmallError::Memory)?;
    let name = Name {
        span: span_of(size, front, after),
        bytes,
    };
    let span = span_of(size, text, rest);
    let ty = right_type(scope, &value);
    Ok((
        Let {
            span,
            mutable,
            name,
            ty,
            value,
        },
        rest,
    ))
}

/// The assignment that comes next, and what follows its semicolon.
#[tactic(auto, unfolding(crate::specs::Reading::assign_at))]
fn assign_at<'a>(
    alloc: Global,
    scope: &[Known],
    inside: bool,
    size: usize,
    text: &'a [u8],
) -> Result<(Assign, &'a [u8]), SmallError>
    requires size { size ≤ 1048576 }
    requires room { length scope.now ≤ 4096 }
    ensures { Gives (λ x. (x.0, x.1.now)) result (assign_at scope.now inside size text.now) }
{
    let (target, after) = target_at(scope, inside, size, text)?;
    let equals = eat(b"=", after)?;
    let (value, semicolon) = right_at(alloc, scope, inside, size, equals)?;
    let rest = eat(b";", semicolon)?;
    if !same_type(right_type(scope, &value), spot_type(scope, target)) {
        return Err(SmallError::NotBuilt);
    }
    let span = span_of(size, text, rest);
    Ok((
        Assign {
            span,
            target,
            value,
        },
        rest,
    ))
}

/// Whether the macro that comes next is `println`, and what follows its name.
#[tactic(auto, unfolding(crate::specs::Reading::macro_at))]
fn macro_at(text: &[u8]) -> Result<(bool, &[u8]), SmallError>
    ensures { Gives (λ x. (x.0, x.1.now)) result (macro_at text.now) }
{
    if has_word(b"println", text) {
        let rest = eat(b"println", text)?;
        Ok((true, rest))
    } else {
        let rest = eat(b"print", text)?;
        Ok((false, rest))
    }
}

/// The call of `print!` or `println!` that comes next, and what follows its semicolon.
#[tactic(auto, unfolding(crate::specs::Reading::print_at))]
fn print_at<'a>(
    alloc: Global,
    scope: &[Known],
    inside: bool,
    size: usize,
    text: &'a [u8],
) -> Result<(Print, &'a [u8]), SmallError>
    requires size { size ≤ 1048576 }
    requires room { length scope.now ≤ 4096 }
    ensures { Gives (λ x. (x.0, x.1.now)) result (print_at scope.now inside size text.now) }
{
    let (newline, name) = macro_at(text)?;
    let bang = eat(b"!", name)?;
    let paren = eat(b"(", bang)?;
    let (literal, holes, after) = text_at(alloc, size, paren)?;
    let (arguments, close) = arguments_at(alloc, scope, inside, size, after)?;
    let semicolon = eat(b")", close)?;
    let rest = eat(b";", semicolon)?;
    if arguments.len() != holes {
        return Err(SmallError::NotBuilt);
    }
    let call = span_of(size, text, semicolon);
    let span = span_of(size, text, rest);
    Ok((
        Print {
            span,
            call,
            newline,
            text: literal,
            arguments,
        },
        rest,
    ))
}

/// Whether a word with `!` behind it comes next.
fn is_call(text: &[u8]) -> bool
    ensures { result ≡ is_call text.now }
{
    let (_, rest) = next_word(text);
    has_byte(b'!', rest)
}

/// The statement of an `unsafe` block that comes next, and what follows it.
#[tactic(auto, unfolding(crate::specs::Reading::inner_at))]
fn inner_at<'a>(
    alloc: Global,
    scope: &[Known],
    size: usize,
    text: &'a [u8],
) -> Result<(Inner, &'a [u8]), SmallError>
    requires size { size ≤ 1048576 }
    requires room { length scope.now ≤ 4096 }
    ensures { Gives (λ x. (x.0, x.1.now)) result (inner_at scope.now size text.now) }
{
    if is_call(text) {
        let (print, rest) = print_at(alloc, scope, true, size, text)?;
        Ok((Inner::Print(print), rest))
    } else {
        let (assign, rest) = assign_at(alloc, scope, true, size, text)?;
        Ok((Inner::Assign(assign), rest))
    }
}

fn closes(text: &[u8]) -> bool
    ensures { result ≡ closes text.now }
{
    has_byte(b'}', text)
}

/// The statements of an `unsafe` block up to the brace that closes it, and the text from there on.
#[tactic(auto, using(crate::proofs::Many::loops), unfolding(crate::specs::Reading::inners_at))]
fn inners_at<'a>(
    alloc: Global,
    scope: &[Known],
    size: usize,
    text: &'a [u8],
) -> Result<(Items<Inner>, &'a [u8]), SmallError>
    requires size { size ≤ 1048576 }
    requires room { length scope.now ≤ 4096 }
    ensures { Gives (λ x. (x.0, x.1.now)) result (inners_at scope.now size text.now) }
{
    let mut statements = Items::new(alloc);
    let mut rest = text;
    for _ in 0..text.len() {
        if closes(rest) {
            return Ok((statements, rest));
        }
        let (statement, after) = inner_at(alloc, scope, size, rest)?;
        statements.push(statement).map_err(|_| SmallError::Memory)?;
        rest = after;
    }
    if closes(rest) {
        Ok((statements, rest))
    } else {
        Err(SmallError::NotBuilt)
    }
}

/// The `unsafe` block that comes next, and what follows its brace.
#[tactic(auto, unfolding(crate::specs::Reading::unsafe_at))]
fn unsafe_at<'a>(
    alloc: Global,
    scope: &[Known],
    size: usize,
    text: &'a [u8],
) -> Result<(UnsafeBlock, &'a [u8]), SmallError>
    requires size { size ≤ 1048576 }
    requires room { length scope.now ≤ 4096 }
    ensures { Gives (λ x. (x.0, x.1.now)) result (unsafe_at scope.now size text.now) }
{
    let keyword = eat(b"unsafe", text)?;
    let brace = eat(b"{", keyword)?;
    let (statements, close) = inners_at(alloc, scope, size, brace)?;
    let rest = eat(b"}", close)?;
    let span = span_of(size, text, rest);
    Ok((UnsafeBlock { span, statements }, rest))
}

/// The statement that comes next, and what follows it.
#[tactic(auto, unfolding(crate::specs::Reading::statement_at))]
fn statement_at<'a>(
    alloc: Global,
    scope: &[Known],
    size: usize,
    text: &'a [u8],
) -> Result<(Statement, &'a [u8]), SmallError>
    requires size { size ≤ 1048576 }
    requires room { length scope.now ≤ 4096 }
    ensures { Gives (λ x. (x.0, x.1.now)) result (statement_at scope.now size text.now) }
{
    if has_word(b"let", text) {
        let (binding, rest) = let_at(alloc, scope, size, text)?;
        return Ok((Statement::Let(binding), rest));
    }
    if has_word(b"unsafe", text) {
        let (block, rest) = unsafe_at(alloc, scope, size, text)?;
        return Ok((Statement::Unsafe(block), rest));
    }
    if is_call(text) {
        let (print, rest) = print_at(alloc, scope, false, size, text)?;
        return Ok((Statement::Print(print), rest));
    }
    let (assign, rest) = assign_at(alloc, scope, false, size, text)?;
    Ok((Statement::Assign(assign), rest))
}

/// The statements up to the brace that closes them, and the text from there on.
#[tactic(auto, using(crate::proofs::Many::loops), unfolding(crate::specs::Reading::statements_at))]
pub fn statements_at(
    alloc: Global,
    size: usize,
    text: &[u8],
) -> Result<(Items<Statement>, &[u8]), SmallError>
    requires { size ≤ 1048576 }
    ensures { Gives (λ x. (x.0, x.1.now)) result (statements_at size text.now) }
{
    let mut statements = Items::new(alloc);
    let mut scope = Vec::new(alloc);
    let mut locals = 1;
    let mut rest = text;
    for _ in 0..text.len() {
        if closes(rest) {
            return Ok((statements, rest));
        }
        let (statement, after) = statement_at(alloc, scope.as_slice(), size, rest)?;
        locals = plus_statement(locals, &statement)?;
        bind(alloc, &mut scope, &statement)?;
        statements.push(statement).map_err(|_| SmallError::Memory)?;
        rest = after;
    }
    if closes(rest) {
        Ok((statements, rest))
    } else {
        Err(SmallError::NotBuilt)
    }
}
