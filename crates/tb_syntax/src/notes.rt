//! Types behind a mark.

ghost use Rattle.std.specs.Prelude.{◌≡◌};
ghost use Rattle.tb_syntax.specs.Reading.{Gives};
ghost use Rattle.tb_syntax.specs.Notes.{note_at, result_at, optional_result_at, turbofish_at};

use crate::cursor::Cursor;
use crate::error::ReadError;
use std::alloc::Global;
use tb_ast::{ResultType, Turbofish, TypeNote};
use tb_lex::Punctuation;

impl<'a> Cursor<'a> {
    /// `: T`, if it comes next, and what follows it.
    #[tactic(auto, unfolding(crate::specs::Notes::note_at))]
    pub fn type_note(
        self,
        alloc: Global,
        depth: u32,
    ) -> Result<(Option<TypeNote>, Cursor<'a>), ReadError>
        ensures { Gives (λ x. x) result (note_at depth self.entry) }
    {
        if !self.has_mark(Punctuation::Colon) {
            return Ok((None, self));
        }
        let (colon, rest) = self.punct(Punctuation::Colon)?;
        let (ty, rest) = rest.ty(alloc, depth)?;
        Ok((Some(TypeNote { colon, ty }), rest))
    }

    /// `-> T`, and what follows it.
    #[tactic(auto, unfolding(crate::specs::Notes::result_at))]
    pub fn result_type(
        self,
        alloc: Global,
        depth: u32,
    ) -> Result<(ResultType, Cursor<'a>), ReadError>
        ensures { Gives (λ x. x) result (result_at depth self.entry) }
    {
        let (arrow, rest) = self.punct(Punctuation::Arrow)?;
        let (ty, rest) = rest.ty(alloc, depth)?;
        Ok((ResultType { arrow, ty }, rest))
    }

    /// `-> T`, if it comes next, and what follows it.
    #[tactic(auto, unfolding(crate::specs::Notes::optional_result_at))]
    pub fn optional_result(
        self,
        alloc: Global,
        depth: u32,
    ) -> Result<(Option<ResultType>, Cursor<'a>), ReadError>
        ensures { Gives (λ x. x) result (optional_result_at depth self.entry) }
    {
        if !self.has_mark(Punctuation::Arrow) {
            return Ok((None, self));
        }
        let (output, rest) = self.result_type(alloc, depth)?;
        Ok((Some(output), rest))
    }

    /// `::<T, ..>`, if it comes next, and what follows it.
    #[tactic(auto, unfolding(crate::specs::Notes::turbofish_at))]
    pub fn turbofish(
        self,
        alloc: Global,
        depth: u32,
    ) -> Result<(Option<Turbofish>, Cursor<'a>), ReadError>
        ensures { Gives (λ x. x) result (turbofish_at depth self.entry) }
    {
        if !self.has_mark(Punctuation::PathSep) {
            return Ok((None, self));
        }
        let (separator, rest) = self.punct(Punctuation::PathSep)?;
        let (opening, rest) = rest.punct(Punctuation::Lt)?;
        let (types, commas, rest) = rest.types(alloc, depth, Punctuation::Gt)?;
        let (closing, rest) = rest.mark(Punctuation::Gt)?;
        let turbofish = Turbofish {
            separator,
            opening,
            types,
            commas,
            closing,
        };
        Ok((Some(turbofish), rest))
    }
}
