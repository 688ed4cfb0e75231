//! Whole sources.

ghost use Rattle.std.specs.Prelude.{◌≡◌, ◌≤◌, length, IfOk, IsErrOf};
ghost use Rattle.tb_small.specs.Grammar.{IsSmall};
ghost use Rattle.tb_small.specs.Reading.{Gives, small_at};

use crate::error::SmallError;
use crate::statements::statements_at;
use crate::tree::{Block, SmallTree};
use crate::words::{after_space, eat, span_of};
use std::alloc::Global;

#[tactic(auto, unfolding(crate::specs::Reading::small_at))]
fn file_at(alloc: Global, text: &[u8]) -> Result<SmallTree, SmallError>
    requires { length text.now ≤ 1048576 }
    ensures { Gives (λ tree. tree) result (small_at text.now) }
{
    let size = text.len();
    let name = eat(b"fn", text)?;
    let paren = eat(b"main", name)?;
    let close = eat(b"(", paren)?;
    let block = eat(b")", close)?;
    let inner = eat(b"{", block)?;
    let (statements, brace) = statements_at(alloc, size, inner)?;
    let rest = eat(b"}", brace)?;
    if !after_space(rest).is_empty() {
        return Err(SmallError::NotBuilt);
    }
    let function = span_of(size, text, rest);
    let span = span_of(size, block, rest);
    Ok(SmallTree {
        function,
        body: Block { span, statements },
    })
}

/// Reads a source: a function `main` with variables, sums, pointers, `unsafe` and prints.
///
/// Tokens stand apart by spaces and line feeds alone, and each is the longest that stands at its place;
/// comments are not read yet. Between the quotes of a text stand printable ASCII bytes other than `"`,
/// `\`, `{` and `}`, the escape `\n`, and one `{}` for each argument.
///
/// A variable is the newest `let` of its name, and has the type of its first value: `i32`, or a
/// reference or a raw pointer to an `i32`. What is borrowed by `&`, `&mut`, `&raw const` or `&raw mut` is
/// an `i32` variable, or `*p` for a pointer variable `p`. An assigned value has the type of its place.
/// Variables that are `i32`s or raw pointers may be assigned, and borrowed by `&mut` and `&raw mut`, where
/// their `let` has `mut`, and `*p` may be where `p` was made by `&mut` or `&raw mut`. Atoms are `i32`s,
/// a raw pointer is copied by its name alone, and a reference stands only under `*`. A raw pointer does so
/// only inside `unsafe`, which is a block of assignments and prints, or stands around a right side (Rust
/// Reference, Unsafety).
///
/// Literals are decimal `i32`s, a sum has up to 64 atoms, and the function up to 4,096 locals: one for
/// its result, one for each `let`, and temporaries. Of these a sum has one for each variable, two for each
/// `*p` and one for each `+`, a borrow and a copied pointer have one, and so has each `*p` that is borrowed
/// or assigned.
///
/// # Errors
///
/// `NotBuilt` where no tree has this text, and `Memory` where memory runs out.
pub fn small(alloc: Global, text: &[u8]) -> Result<SmallTree, SmallError>
    requires { length text.now ≤ 1048576 }
    ensures tree { IfOk result (λ tree. IsSmall text.now tree) }
    ensures only { IfOk result (λ tree. (other : _) → IsSmall text.now other → other ≡ tree) }
    ensures not_built { IsErrOf result SmallError.NotBuilt → (tree : _) → IsSmall text.now tree → ⊥ }
{
    file_at(alloc, text)
}
