//! Heads of functions, and `extern` blocks.

ghost use Rattle.std.specs.Prelude.{◌≡◌};
ghost use Rattle.tb_lex.specs.declared.keyword.Keyword.TheVariants as keyword_of;
ghost use Rattle.tb_syntax.specs.Reading.{Gives};
ghost use Rattle.tb_syntax.specs.Leaves.{has_keyword};
ghost use Rattle.tb_syntax.specs.Items.{bounds_at, generic_at, generics_at, parameter_at, head_at, foreign_at, extern_at};

use crate::cursor::Cursor;
use crate::elements::{Element, Repeated, list, many};
use crate::error::ReadError;
use crate::types::from_to;
use sqlite_items::Items;
use std::alloc::Global;
use tb_ast::{
    Bounds, ExternBlock, ForeignFunction, GenericParameter, Generics, Ident, Parameter, ResultType,
};
use tb_lex::{Keyword, Punctuation};
use tb_perm::Span;

/// A function up to before its body.
#[derive(Debug, Drop)]
pub struct FunctionHead {
    pub unsafe_keyword: Option<Span>,
    pub fn_keyword: Span,
    pub name: Ident,
    pub generics: Option<Generics>,
    pub opening: Span,
    pub parameters: Items<Parameter>,
    pub commas: Items<Span>,
    pub closing: Span,
    pub result: Option<ResultType>,
}

impl<'a> Cursor<'a> {
    /// `: Bound + ..`, if it comes next, and what follows it.
    #[tactic(auto, unfolding(crate::specs::Items::bounds_at))]
    fn bounds(self, alloc: Global) -> Result<(Option<Bounds>, Cursor<'a>), ReadError>
        ensures { Gives (λ x. x) result (bounds_at self.entry) }
    {
        if !self.has_mark(Punctuation::Colon) {
            return Ok((None, self));
        }
        let (colon, rest) = self.punct(Punctuation::Colon)?;
        let (names, pluses, rest) = rest.names(alloc, Punctuation::Plus)?;
        let bounds = Bounds {
            colon,
            names,
            pluses,
        };
        Ok((Some(bounds), rest))
    }

    /// A lifetime or a type that a function is generic over, and what follows it.
    #[tactic(auto, unfolding(crate::specs::Items::generic_at))]
    fn generic(self, alloc: Global) -> Result<(GenericParameter, Cursor<'a>), ReadError>
        ensures { Gives (λ x. x) result (generic_at self.entry) }
    {
        if self.has_lifetime() {
            let (name, rest) = self.lifetime(alloc)?;
            return Ok((GenericParameter::Lifetime(name), rest));
        }
        let (name, rest) = self.name(alloc)?;
        let (bounds, rest) = rest.bounds(alloc)?;
        Ok((GenericParameter::Named { name, bounds }, rest))
    }

    /// `<'a, T: Bound, ..>`, if it comes next, and what follows it.
    #[tactic(auto, unfolding(crate::specs::Items::generics_at))]
    fn generics(self, alloc: Global) -> Result<(Option<Generics>, Cursor<'a>), ReadError>
        ensures { Gives (λ x. x) result (generics_at self.entry) }
    {
        if !self.has_mark(Punctuation::Lt) {
            return Ok((None, self));
        }
        let (opening, rest) = self.punct(Punctuation::Lt)?;
        let (parameters, commas, rest) = list(alloc, 0, Punctuation::Gt, rest)?;
        let (closing, rest) = rest.punct(Punctuation::Gt)?;
        let generics = Generics {
            opening,
            parameters,
            commas,
            closing,
        };
        Ok((Some(generics), rest))
    }

    /// A parameter, and what follows it.
    #[tactic(auto, unfolding(crate::specs::Items::parameter_at))]
    fn parameter(self, alloc: Global, depth: u32) -> Result<(Parameter, Cursor<'a>), ReadError>
        ensures { Gives (λ x. x) result (parameter_at depth self.entry) }
    {
        let (mut_keyword, rest) = self.optional_keyword(Keyword::Mut)?;
        let (name, rest) = rest.name(alloc)?;
        let (colon, rest) = rest.punct(Punctuation::Colon)?;
        let (ty, rest) = rest.ty(alloc, depth)?;
        let span = from_to(name.span, ty.span());
        let parameter = Parameter {
            span,
            mut_keyword,
            name,
            colon,
            ty,
        };
        Ok((parameter, rest))
    }

    /// A function up to before its body, and what follows it.
    #[tactic(auto, unfolding(crate::specs::Items::head_at))]
    pub fn function_head(
        self,
        alloc: Global,
        depth: u32,
    ) -> Result<(FunctionHead, Cursor<'a>), ReadError>
        ensures { Gives (λ x. x) result (head_at depth self.entry) }
    {
        let (unsafe_keyword, rest) = self.optional_keyword(Keyword::Unsafe)?;
        let (fn_keyword, rest) = rest.keyword(Keyword::Fn)?;
        let (name, rest) = rest.name(alloc)?;
        let (generics, rest) = rest.generics(alloc)?;
        let (opening, rest) = rest.punct(Punctuation::OpenParen)?;
        let (parameters, commas, rest) = list(alloc, depth, Punctuation::CloseParen, rest)?;
        let (closing, rest) = rest.punct(Punctuation::CloseParen)?;
        let (result, rest) = rest.optional_result(alloc, depth)?;
        let head = FunctionHead {
            unsafe_keyword,
            fn_keyword,
            name,
            generics,
            opening,
            parameters,
            commas,
            closing,
            result,
        };
        Ok((head, rest))
    }

    /// An external function, and what follows it.
    #[tactic(auto, unfolding(crate::specs::Items::foreign_at))]
    fn foreign_function(
        self,
        alloc: Global,
        depth: u32,
    ) -> Result<(ForeignFunction, Cursor<'a>), ReadError>
        ensures { Gives (λ x. x) result (foreign_at depth self.entry) }
    {
        let (fn_keyword, rest) = self.keyword(Keyword::Fn)?;
        let (name, rest) = rest.name(alloc)?;
        let (opening, rest) = rest.punct(Punctuation::OpenParen)?;
        let (closing, rest) = rest.punct(Punctuation::CloseParen)?;
        let (result, rest) = rest.result_type(alloc, depth)?;
        let (semicolon, rest) = rest.punct(Punctuation::Semicolon)?;
        let function = ForeignFunction {
            span: from_to(fn_keyword, semicolon),
            fn_keyword,
            name,
            opening,
            closing,
            result,
            semicolon,
        };
        Ok((function, rest))
    }

    /// An `extern` block, and what follows it.
    #[tactic(auto, unfolding(crate::specs::Items::extern_at))]
    pub fn extern_block(
        self,
        alloc: Global,
        depth: u32,
    ) -> Result<(ExternBlock, Cursor<'a>), ReadError>
        ensures { Gives (λ x. x) result (extern_at depth self.entry) }
    {
        let (unsafe_keyword, rest) = self.optional_keyword(Keyword::Unsafe)?;
        let (extern_keyword, rest) = rest.keyword(Keyword::Extern)?;
        let (abi, rest) = rest.text(alloc)?;
        let (opening, rest) = rest.punct(Punctuation::OpenBrace)?;
        let (functions, rest) = many(alloc, depth, rest)?;
        let (closing, rest) = rest.punct(Punctuation::CloseBrace)?;
        let block = ExternBlock {
            unsafe_keyword,
            extern_keyword,
            abi,
            opening,
            functions,
            closing,
        };
        Ok((block, rest))
    }
}

impl Element for GenericParameter {
    ghost one = { λ depth. generic_at };

    fn read(
        alloc: Global,
        depth: u32,
        cursor: Cursor<'_>,
    ) -> Result<(GenericParameter, Cursor<'_>), ReadError> {
        cursor.generic(alloc)
    }
}

impl Element for Parameter {
    ghost one = { parameter_at };

    fn read(
        alloc: Global,
        depth: u32,
        cursor: Cursor<'_>,
    ) -> Result<(Parameter, Cursor<'_>), ReadError> {
        cursor.parameter(alloc, depth)
    }
}

impl Element for ForeignFunction {
    ghost one = { foreign_at };

    fn read(
        alloc: Global,
        depth: u32,
        cursor: Cursor<'_>,
    ) -> Result<(ForeignFunction, Cursor<'_>), ReadError> {
        cursor.foreign_function(alloc, depth)
    }
}

impl Repeated for ForeignFunction {
    ghost begins = { has_keyword keyword_of.Fn };

    fn begins(cursor: &Cursor<'_>) -> bool {
        cursor.has_keyword(Keyword::Fn)
    }
}
