//! `use` items and structs.

ghost use Rattle.std.specs.Prelude.{◌≡◌};
ghost use Rattle.tb_syntax.specs.Reading.{Gives};
ghost use Rattle.tb_syntax.specs.Items.{group_at, use_span, use_at, lifetimes_at, field_at, struct_at};

use crate::cursor::Cursor;
use crate::elements::{Element, list};
use crate::error::ReadError;
use crate::types::from_to;
use std::alloc::Global;
use tb_ast::{Field, Lifetimes, Path, Struct, Use, UseGroup};
use tb_lex::{Keyword, Punctuation};
use tb_perm::Span;

/// The place of a `use` item without its first word and its semicolon.
fn use_span(path: &Path, group: &Option<UseGroup>) -> Span
    ensures { result ≡ use_span path.now group.now }
{
    match group {
        Some(group) => from_to(path.span, group.closing),
        None => path.span,
    }
}

impl<'a> Cursor<'a> {
    /// `::{name, ..}`, if it comes next, and what follows it.
    #[tactic(auto, unfolding(crate::specs::Items::group_at))]
    fn use_group(self, alloc: Global) -> Result<(Option<UseGroup>, Cursor<'a>), ReadError>
        ensures { Gives (λ x. x) result (group_at self.entry) }
    {
        if !self.has_mark(Punctuation::PathSep) {
            return Ok((None, self));
        }
        let (separator, rest) = self.punct(Punctuation::PathSep)?;
        let (opening, rest) = rest.punct(Punctuation::OpenBrace)?;
        let (names, commas, rest) = list(alloc, 0, Punctuation::CloseBrace, rest)?;
        let (closing, rest) = rest.punct(Punctuation::CloseBrace)?;
        let group = UseGroup {
            separator,
            opening,
            names,
            commas,
            closing,
        };
        Ok((Some(group), rest))
    }

    /// A `use` item, and what follows it.
    #[tactic(auto, unfolding(crate::specs::Items::use_at))]
    pub fn use_item(self, alloc: Global) -> Result<(Use, Cursor<'a>), ReadError>
        ensures { Gives (λ x. x) result (use_at self.entry) }
    {
        let (use_keyword, rest) = self.keyword(Keyword::Use)?;
        let (path, rest) = rest.path(alloc)?;
        let (group, rest) = rest.use_group(alloc)?;
        let (semicolon, rest) = rest.punct(Punctuation::Semicolon)?;
        let span = use_span(&path, &group);
        let item = Use {
            use_keyword,
            span,
            path,
            group,
            semicolon,
        };
        Ok((item, rest))
    }

    /// `<'a, ..>`, if it comes next, and what follows it.
    #[tactic(auto, unfolding(crate::specs::Items::lifetimes_at))]
    fn lifetimes(self, alloc: Global) -> Result<(Option<Lifetimes>, Cursor<'a>), ReadError>
        ensures { Gives (λ x. x) result (lifetimes_at self.entry) }
    {
        if !self.has_mark(Punctuation::Lt) {
            return Ok((None, self));
        }
        let (opening, rest) = self.punct(Punctuation::Lt)?;
        let (lifetimes, commas, rest) = list(alloc, 0, Punctuation::Gt, rest)?;
        let (closing, rest) = rest.punct(Punctuation::Gt)?;
        let lifetimes = Lifetimes {
            opening,
            lifetimes,
            commas,
            closing,
        };
        Ok((Some(lifetimes), rest))
    }

    /// A field of a struct, and what follows it.
    #[tactic(auto, unfolding(crate::specs::Items::field_at))]
    fn field(self, alloc: Global, depth: u32) -> Result<(Field, Cursor<'a>), ReadError>
        ensures { Gives (λ x. x) result (field_at depth self.entry) }
    {
        let (name, rest) = self.name(alloc)?;
        let (colon, rest) = rest.punct(Punctuation::Colon)?;
        let (ty, rest) = rest.ty(alloc, depth)?;
        Ok((Field { name, colon, ty }, rest))
    }

    /// A struct, and what follows it.
    #[tactic(auto, unfolding(crate::specs::Items::struct_at))]
    pub fn struct_item(self, alloc: Global, depth: u32) -> Result<(Struct, Cursor<'a>), ReadError>
        ensures { Gives (λ x. x) result (struct_at depth self.entry) }
    {
        let (struct_keyword, rest) = self.keyword(Keyword::Struct)?;
        let (name, rest) = rest.name(alloc)?;
        let (lifetimes, rest) = rest.lifetimes(alloc)?;
        let (opening, rest) = rest.punct(Punctuation::OpenBrace)?;
        let (fields, commas, rest) = list(alloc, depth, Punctuation::CloseBrace, rest)?;
        let (closing, rest) = rest.punct(Punctuation::CloseBrace)?;
        let item = Struct {
            struct_keyword,
            name,
            lifetimes,
            opening,
            fields,
            commas,
            closing,
        };
        Ok((item, rest))
    }
}

impl Element for Field {
    ghost one = { field_at };

    fn read(
        alloc: Global,
        depth: u32,
        cursor: Cursor<'_>,
    ) -> Result<(Field, Cursor<'_>), ReadError> {
        cursor.field(alloc, depth)
    }
}
