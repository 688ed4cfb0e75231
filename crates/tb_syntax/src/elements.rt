//! Lists of what holds no list of its own kind.

ghost use Rattle.std.specs.Prelude.{◌≡◌, ℕ, Bool, Option};
ghost use Rattle.tb_syntax.specs.Repeats.{repeated_at};
ghost use Rattle.tb_syntax.specs.Reading.{Gives};
ghost use Rattle.tb_syntax.specs.State.{State};
ghost use Rattle.tb_syntax.specs.Lists.{listed_at};
ghost use Rattle.tb_syntax.specs.Leaves.{name_at, lifetime_at};

use crate::cursor::Cursor;
use crate::error::ReadError;
use sqlite_items::Items;
use std::alloc::Global;
use tb_ast::{Ident, Lifetime};
use tb_lex::Punctuation;
use tb_perm::Span;

/// What stands in lists with commas, with types of at most some depth in it.
pub trait Element: Sized + Drop {
    ghost one: { ℕ → State → Option (Self × State) };

    fn read(alloc: Global, depth: u32, cursor: Cursor<'_>) -> Result<(Self, Cursor<'_>), ReadError>
        ensures { Gives (λ x. x) result (one depth cursor.entry) };
}

impl Element for Ident {
    ghost one = { λ depth. name_at };

    fn read(
        alloc: Global,
        depth: u32,
        cursor: Cursor<'_>,
    ) -> Result<(Ident, Cursor<'_>), ReadError> {
        cursor.name(alloc)
    }
}

impl Element for Lifetime {
    ghost one = { λ depth. lifetime_at };

    fn read(
        alloc: Global,
        depth: u32,
        cursor: Cursor<'_>,
    ) -> Result<(Lifetime, Cursor<'_>), ReadError> {
        cursor.lifetime(alloc)
    }
}

/// Values with commas between them up to a mark that closes, which comes next then.
#[tactic(auto, using(crate::proofs::Loops::loops), unfolding(crate::specs::Lists::listed_at))]
pub fn list<'a, T: Element>(
    alloc: Global,
    depth: u32,
    close: Punctuation,
    cursor: Cursor<'a>,
) -> Result<(Items<T>, Items<Span>, Cursor<'a>), ReadError>
    ensures { Gives (λ x. ((x.0, x.1), x.2)) result (listed_at (T.one depth) close cursor.entry) }
{
    let mut values = Items::new(alloc);
    let mut commas = Items::new(alloc);
    let mut rest = cursor;
    for _ in 0..rest.len() {
        if rest.has_mark(close) {
            return Ok((values, commas, rest));
        }
        let (value, after) = T::read(alloc, depth, rest)?;
        values.push(value)?;
        if !after.has_mark(Punctuation::Comma) {
            return Ok((values, commas, after));
        }
        let (comma, after) = after.punct(Punctuation::Comma)?;
        commas.push(comma)?;
        rest = after;
    }
    Err(ReadError::Unexpected)
}

/// What stands one behind another, and shows by its first tokens that it comes next.
pub trait Repeated: Element {
    ghost begins: { State → Bool };

    fn begins(cursor: &Cursor<'_>) -> bool
        ensures { result ≡ begins cursor.now };
}

/// As many as begin one behind another, and what follows them.
#[tactic(auto, using(crate::proofs::Rounds::loops), unfolding(crate::specs::Repeats::repeated_at))]
pub fn many<'a, T: Repeated>(
    alloc: Global,
    depth: u32,
    cursor: Cursor<'a>,
) -> Result<(Items<T>, Cursor<'a>), ReadError>
    ensures { Gives (λ x. x) result (repeated_at T.begins (T.one depth) cursor.entry) }
{
    let mut values = Items::new(alloc);
    let mut rest = cursor;
    for _ in 0..rest.len() {
        if !T::begins(&rest) {
            return Ok((values, rest));
        }
        let (value, after) = T::read(alloc, depth, rest)?;
        values.push(value)?;
        rest = after;
    }
    if T::begins(&rest) {
        return Err(ReadError::Unexpected);
    }
    Ok((values, rest))
}
