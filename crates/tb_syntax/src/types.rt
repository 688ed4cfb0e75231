//! Types.

ghost use Rattle.std.specs.Prelude.{◌≡◌, Some, IfOk, IsErrOf};
ghost use Rattle.tb_ast.specs.declared.written.TypeExpr.{TypeExpr};
ghost use Rattle.tb_syntax.specs.State.{State};
ghost use Rattle.tb_syntax.specs.Written.{IsTypeAt};
ghost use Rattle.tb_lex.specs.declared.punctuation.Punctuation.TheVariants.{Gt};
ghost use Rattle.tb_syntax.specs.Reading.{Gives};
ghost use Rattle.tb_syntax.specs.Lists.{listed_at};
ghost use Rattle.tb_syntax.specs.Paths.{from_to};
ghost use Rattle.tb_syntax.specs.Types.{reference_front_at, pointer_kind_at, pointer_front_at, type_front_at, tuple_at, length_at, array_at, reference_to, pointer_to, argument_at, path_type_at, type_behind, type_at};

use crate::cursor::Cursor;
use crate::error::ReadError;
use sqlite_items::{Boxed, Items};
use std::alloc::Global;
use tb_ast::{
    IntLiteral, Lifetime, Mark, Path, PointerKind, TypeArgument, TypeArguments, TypeExpr,
};
use tb_lex::{Keyword, Punctuation};
use tb_perm::Span;

/// What stands before the first type in a type.
#[derive(Debug, Drop)]
pub enum TypeFront {
    /// `(`
    Paren {
        opening: Span,
    },
    /// `[`
    Bracket {
        opening: Span,
    },
    /// `&`, `&'a`, `&mut` or `&'a mut`
    Reference {
        and: Mark,
        lifetime: Option<Lifetime>,
        mut_keyword: Option<Span>,
    },
    /// `*const` or `*mut`
    Pointer {
        star: Span,
        kind: PointerKind,
    },
    /// A path.
    Path(Path),
}

/// From the first of these places to the last.
pub fn from_to(first: Span, last: Span) -> Span
    ensures { result ≡ from_to first last }
{
    Span {
        lo: first.lo,
        hi: last.hi,
    }
}

/// A reference to a type.
fn reference_to(
    alloc: Global,
    and: Mark,
    lifetime: Option<Lifetime>,
    mut_keyword: Option<Span>,
    target: TypeExpr,
) -> Result<TypeExpr, ReadError>
    ensures { Gives (λ ty. ty) result (Some (reference_to and lifetime mut_keyword target)) }
{
    let span = from_to(and.span, target.span());
    let target = Boxed::new(alloc, target)?;
    Ok(TypeExpr::Reference {
        span,
        and,
        lifetime,
        mut_keyword,
        target,
    })
}

/// A raw pointer to a type.
fn pointer_to(
    alloc: Global,
    star: Span,
    kind: PointerKind,
    target: TypeExpr,
) -> Result<TypeExpr, ReadError>
    ensures { Gives (λ ty. ty) result (Some (pointer_to star kind target)) }
{
    let span = from_to(star, target.span());
    let target = Boxed::new(alloc, target)?;
    Ok(TypeExpr::Pointer {
        span,
        star,
        kind,
        target,
    })
}

impl<'a> Cursor<'a> {
    #[tactic(auto, unfolding(crate::specs::Types::reference_front_at))]
    fn reference_front(self, alloc: Global) -> Result<(TypeFront, Cursor<'a>), ReadError>
        ensures { Gives (λ x. x) result (reference_front_at self.entry) }
    {
        let (and, rest) = self.mark(Punctuation::And)?;
        let (lifetime, rest) = rest.optional_lifetime(alloc)?;
        let (mut_keyword, rest) = rest.optional_keyword(Keyword::Mut)?;
        Ok((
            TypeFront::Reference {
                and,
                lifetime,
                mut_keyword,
            },
            rest,
        ))
    }

    #[tactic(auto, unfolding(crate::specs::Types::pointer_kind_at))]
    fn pointer_kind(self) -> Result<(PointerKind, Cursor<'a>), ReadError>
        ensures { Gives (λ x. x) result (pointer_kind_at self.entry) }
    {
        if self.has_keyword(Keyword::Const) {
            let (const_keyword, rest) = self.keyword(Keyword::Const)?;
            Ok((PointerKind::Const { const_keyword }, rest))
        } else {
            let (mut_keyword, rest) = self.keyword(Keyword::Mut)?;
            Ok((PointerKind::Mut { mut_keyword }, rest))
        }
    }

    #[tactic(auto, unfolding(crate::specs::Types::pointer_front_at))]
    fn pointer_front(self) -> Result<(TypeFront, Cursor<'a>), ReadError>
        ensures { Gives (λ x. x) result (pointer_front_at self.entry) }
    {
        let (star, rest) = self.punct(Punctuation::Star)?;
        let (kind, rest) = rest.pointer_kind()?;
        Ok((TypeFront::Pointer { star, kind }, rest))
    }

    /// What stands before the first type in the type that comes next.
    #[tactic(auto, unfolding(crate::specs::Types::type_front_at))]
    fn type_front(self, alloc: Global) -> Result<(TypeFront, Cursor<'a>), ReadError>
        ensures { Gives (λ x. x) result (type_front_at self.entry) }
    {
        if self.has_mark(Punctuation::OpenParen) {
            let (opening, rest) = self.punct(Punctuation::OpenParen)?;
            return Ok((TypeFront::Paren { opening }, rest));
        }
        if self.has_mark(Punctuation::OpenBracket) {
            let (opening, rest) = self.punct(Punctuation::OpenBracket)?;
            return Ok((TypeFront::Bracket { opening }, rest));
        }
        if self.has_mark(Punctuation::And) {
            return self.reference_front(alloc);
        }
        if self.has_mark(Punctuation::Star) {
            return self.pointer_front();
        }
        let (path, rest) = self.path(alloc)?;
        Ok((TypeFront::Path(path), rest))
    }

    /// An integer without a suffix, as the length of an array's type, and what follows it.
    #[tactic(auto, unfolding(crate::specs::Types::length_at))]
    pub fn length(self) -> Result<(IntLiteral, Cursor<'a>), ReadError>
        ensures { Gives (λ x. x) result (length_at self.entry) }
    {
        let (length, rest) = self.number()?;
        match length.integer.suffix {
            None => Ok((length, rest)),
            Some(_) => Err(ReadError::Unexpected),
        }
    }

    /// The type of these parts in parentheses, which close here.
    #[tactic(auto, unfolding(crate::specs::Types::tuple_at))]
    fn tuple(
        self,
        opening: Span,
        parts: Items<TypeExpr>,
        commas: Items<Span>,
    ) -> Result<(TypeExpr, Cursor<'a>), ReadError>
        ensures { Gives (λ x. x) result (tuple_at opening (parts, commas) self.entry) }
    {
        let (closing, rest) = self.punct(Punctuation::CloseParen)?;
        let span = from_to(opening, closing);
        if parts.len() == 0 {
            let unit = TypeExpr::Unit {
                span,
                opening,
                closing,
            };
            return Ok((unit, rest));
        }
        if parts.len() < 2 {
            return Err(ReadError::Unexpected);
        }
        let tuple = TypeExpr::Tuple {
            span,
            opening,
            parts,
            commas,
            closing,
        };
        Ok((tuple, rest))
    }

    /// The type of this element in brackets, which go on or close here.
    #[tactic(auto, unfolding(crate::specs::Types::array_at))]
    fn array(
        self,
        alloc: Global,
        opening: Span,
        element: TypeExpr,
    ) -> Result<(TypeExpr, Cursor<'a>), ReadError>
        ensures { Gives (λ x. x) result (array_at opening element self.entry) }
    {
        let element = Boxed::new(alloc, element)?;
        if !self.has_mark(Punctuation::Semicolon) {
            let (closing, rest) = self.punct(Punctuation::CloseBracket)?;
            let slice = TypeExpr::Slice {
                span: from_to(opening, closing),
                opening,
                element,
                closing,
            };
            return Ok((slice, rest));
        }
        let (semicolon, rest) = self.punct(Punctuation::Semicolon)?;
        let (length, rest) = rest.length()?;
        let (closing, rest) = rest.punct(Punctuation::CloseBracket)?;
        let array = TypeExpr::Array {
            span: from_to(opening, closing),
            opening,
            element,
            semicolon,
            length,
            closing,
        };
        Ok((array, rest))
    }

    /// The type that comes next, and what follows it.
    ///
    /// `depth` is how many types may lie in one another, the type itself included. A path is read as
    /// far as it goes, and `<` behind it always opens a list of arguments.
    ///
    /// # Errors
    ///
    /// `Unexpected` where no type of this depth stands there, and `Memory` where the allocator has no room.
    pub fn ty(self, alloc: Global, depth: u32) -> Result<(TypeExpr, Cursor<'a>), ReadError>
        ensures gives { Gives (λ x. x) result (type_at depth self.entry) }
        ensures read { IfOk result (λ x. IsTypeAt depth self.entry x.0 x.1) }
        ensures only { IfOk result (λ x. (ty : TypeExpr) (rest : State) → IsTypeAt depth self.entry ty rest → (ty, rest) ≡ x) }
        ensures refused { IsErrOf result ReadError.Unexpected → (ty : TypeExpr) (rest : State) → IsTypeAt depth self.entry ty rest → ⊥ }
    {
        self.type_within(alloc, depth)
    }

    /// The type that comes next, with types of at most this depth, and what follows it.
    #[cycle(types)]
    #[tactic(auto, using(crate::proofs::Fuel::types))]
    fn type_within(self, alloc: Global, depth: u32) -> Result<(TypeExpr, Cursor<'a>), ReadError>
        ensures { Gives (λ x. x) result (type_at depth self.entry) }
    {
        if depth == 0 {
            return Err(ReadError::Unexpected);
        }
        let (front, rest) = self.type_front(alloc)?;
        rest.type_behind(alloc, depth - 1, front)
    }

    /// The type that begins so, with types of at most this depth in it.
    #[cycle(types)]
    #[tactic(auto, unfolding(crate::specs::Types::type_behind))]
    fn type_behind(
        self,
        alloc: Global,
        depth: u32,
        front: TypeFront,
    ) -> Result<(TypeExpr, Cursor<'a>), ReadError>
        ensures { Gives (λ x. x) result (type_behind (type_at depth) front self.entry) }
    {
        match front {
            TypeFront::Paren { opening } => {
                let (parts, commas, rest) = self.types(alloc, depth, Punctuation::CloseParen)?;
                rest.tuple(opening, parts, commas)
            }
            TypeFront::Bracket { opening } => {
                let (element, rest) = self.type_within(alloc, depth)?;
                rest.array(alloc, opening, element)
            }
            TypeFront::Reference {
                and,
                lifetime,
                mut_keyword,
            } => {
                let (target, rest) = self.type_within(alloc, depth)?;
                let reference = reference_to(alloc, and, lifetime, mut_keyword, target)?;
                Ok((reference, rest))
            }
            TypeFront::Pointer { star, kind } => {
                let (target, rest) = self.type_within(alloc, depth)?;
                let pointer = pointer_to(alloc, star, kind, target)?;
                Ok((pointer, rest))
            }
            TypeFront::Path(path) => self.path_type(alloc, depth, path),
        }
    }

    /// The type of this path, with or without arguments.
    #[cycle(types)]
    #[tactic(auto, unfolding(crate::specs::Types::path_type_at, crate::specs::Types::arguments_at))]
    fn path_type(
        self,
        alloc: Global,
        depth: u32,
        path: Path,
    ) -> Result<(TypeExpr, Cursor<'a>), ReadError>
        ensures { Gives (λ x. x) result (path_type_at (type_at depth) path self.entry) }
    {
        if !self.has_mark(Punctuation::Lt) {
            return Ok((
                TypeExpr::Path {
                    span: path.span,
                    path,
                    arguments: None,
                },
                self,
            ));
        }
        let (opening, rest) = self.punct(Punctuation::Lt)?;
        let (arguments, commas, rest) = rest.arguments(alloc, depth)?;
        let (closing, rest) = rest.mark(Punctuation::Gt)?;
        let arguments = TypeArguments {
            opening,
            arguments,
            commas,
            closing,
        };
        Ok((
            TypeExpr::Path {
                span: from_to(path.span, closing.span),
                path,
                arguments: Some(arguments),
            },
            rest,
        ))
    }

    /// Types with commas between them up to a mark that closes, which comes next then.
    #[cycle(types)]
    #[tactic(auto, using(crate::proofs::Loops::loops), unfolding(crate::specs::Lists::listed_at))]
    pub fn types(
        self,
        alloc: Global,
        depth: u32,
        close: Punctuation,
    ) -> Result<(Items<TypeExpr>, Items<Span>, Cursor<'a>), ReadError>
        ensures { Gives (λ x. ((x.0, x.1), x.2)) result (listed_at (type_at depth) close self.entry) }
    {
        let mut types = Items::new(alloc);
        let mut commas = Items::new(alloc);
        let mut rest = self;
        for _ in 0..rest.len() {
            if rest.has_mark(close) {
                return Ok((types, commas, rest));
            }
            let (ty, after) = rest.type_within(alloc, depth)?;
            types.push(ty)?;
            if !after.has_mark(Punctuation::Comma) {
                return Ok((types, commas, after));
            }
            let (comma, after) = after.punct(Punctuation::Comma)?;
            commas.push(comma)?;
            rest = after;
        }
        Err(ReadError::Unexpected)
    }

    /// Lifetimes and types with commas between them up to a `>`, which comes next then.
    #[cycle(types)]
    #[tactic(auto, using(crate::proofs::Loops::loops), unfolding(crate::specs::Lists::listed_at))]
    fn arguments(
        self,
        alloc: Global,
        depth: u32,
    ) -> Result<(Items<TypeArgument>, Items<Span>, Cursor<'a>), ReadError>
        ensures { Gives (λ x. ((x.0, x.1), x.2)) result (listed_at (argument_at (type_at depth)) Gt self.entry) }
    {
        let mut arguments = Items::new(alloc);
        let mut commas = Items::new(alloc);
        let mut rest = self;
        for _ in 0..rest.len() {
            if rest.has_mark(Punctuation::Gt) {
                return Ok((arguments, commas, rest));
            }
            let (argument, after) = rest.argument(alloc, depth)?;
            arguments.push(argument)?;
            if !after.has_mark(Punctuation::Comma) {
                return Ok((arguments, commas, after));
            }
            let (comma, after) = after.punct(Punctuation::Comma)?;
            commas.push(comma)?;
            rest = after;
        }
        Err(ReadError::Unexpected)
    }

    /// A lifetime or a type, and what follows it.
    #[cycle(types)]
    #[tactic(auto, unfolding(crate::specs::Types::argument_at))]
    fn argument(self, alloc: Global, depth: u32) -> Result<(TypeArgument, Cursor<'a>), ReadError>
        ensures { Gives (λ x. x) result (argument_at (type_at depth) self.entry) }
    {
        if self.has_lifetime() {
            let (name, rest) = self.lifetime(alloc)?;
            Ok((TypeArgument::Lifetime(name), rest))
        } else {
            let (ty, rest) = self.type_within(alloc, depth)?;
            Ok((TypeArgument::TypeExpr(ty), rest))
        }
    }
}
