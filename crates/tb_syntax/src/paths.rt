//! Names with a mark between them.

ghost use Rattle.std.specs.Prelude.{◌≡◌};
ghost use Rattle.tb_syntax.specs.Reading.{Gives};
ghost use Rattle.tb_syntax.specs.Paths.{goes_on, names_at, last_of, names_span, path_at};

use crate::cursor::Cursor;
use crate::error::ReadError;
use sqlite_items::Items;
use std::alloc::Global;
use tb_ast::{Ident, Path};
use tb_lex::Punctuation;
use tb_perm::Span;

/// The last of these places.
fn last_of(span: Span, names: &[Ident]) -> Span
    ensures { result ≡ last_of span names.now }
{
    let mut last = span;
    for name in names {
        last = name.span;
    }
    last
}

/// From the first of these names to the last.
fn names_span(names: &[Ident]) -> Span
    ensures { result ≡ names_span names.now }
{
    match names {
        [first, others @ ..] => Span {
            lo: first.span.lo,
            hi: last_of(first.span, others).hi,
        },
        [] => Span { lo: 0, hi: 0 },
    }
}

impl<'a> Cursor<'a> {
    /// Whether this mark comes next, and then a name.
    #[tactic(auto, unfolding(crate::specs::Paths::goes_on))]
    pub fn goes_on(&self, mark: Punctuation) -> bool
        ensures { result ≡ goes_on mark self.now }
    {
        match self.next_mark(mark) {
            Some((found, rest)) => !found.glued && rest.has_name(),
            None => false,
        }
    }

    /// One name or more with this mark between them, as many as there are, and what follows them.
    #[tactic(auto, using(crate::proofs::Loops::loops), unfolding(crate::specs::Paths::names_at))]
    pub fn names(
        self,
        alloc: Global,
        mark: Punctuation,
    ) -> Result<(Items<Ident>, Items<Span>, Cursor<'a>), ReadError>
        ensures { Gives (λ x. ((x.0, x.1), x.2)) result (names_at mark self.entry) }
    {
        let mut names = Items::new(alloc);
        let mut marks = Items::new(alloc);
        let mut rest = self;
        for _ in 0..rest.len() {
            let (name, after) = rest.name(alloc)?;
            names.push(name)?;
            if !after.goes_on(mark) {
                return Ok((names, marks, after));
            }
            let (span, after) = after.punct(mark)?;
            marks.push(span)?;
            rest = after;
        }
        Err(ReadError::Unexpected)
    }

    /// A path, and what follows it.
    #[tactic(auto, unfolding(crate::specs::Paths::path_at))]
    pub fn path(self, alloc: Global) -> Result<(Path, Cursor<'a>), ReadError>
        ensures { Gives (λ x. x) result (path_at self.entry) }
    {
        let (segments, separators, rest) = self.names(alloc, Punctuation::PathSep)?;
        let span = names_span(segments.as_slice());
        Ok((
            Path {
                span,
                segments,
                separators,
            },
            rest,
        ))
    }
}
