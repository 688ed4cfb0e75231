//! Types as pieces.

ghost use Rattle.std.specs.Prelude.{◌≡◌, ◌++◌, ◌∷◌, [], map, OnOk};
ghost use Rattle.std.specs.Option.{option_map};
ghost use Rattle.tb_lex.specs.declared.keyword.Keyword.TheVariants.{Mut};
ghost use Rattle.tb_lex.specs.declared.punctuation.Punctuation.TheVariants.{OpenParen, CloseParen, CloseBracket, Comma, Semicolon, And, Star};
ghost use Rattle.tb_ast.specs.Pieces.{punct, mark, number, optional_keyword, separated};
ghost use Rattle.tb_ast.specs.Types.{optional, optional_lifetime, pointer_keyword, type_layer, type_front, type_inside, type_back, type_pieces, argument_pieces, arguments_pieces, turbofish_pieces, note_pieces};

use crate::pieces::Pieces;
use std::alloc::AllocError;
use tb_ast::{
    IntLiteral, Lifetime, Mark, PointerKind, Turbofish, TypeArgument, TypeArguments, TypeExpr,
    TypeNote,
};
use tb_lex::{Keyword, Punctuation};
use tb_perm::Span;

impl Pieces {
    /// Puts down a type.
    #[cycle(types)]
    pub fn ty(&mut self, ty: &TypeExpr) -> Result<(), AllocError>
        ensures { OnOk result (self.new.list.items ≡ self.old.list.items ++ type_pieces ty.now) }
    {
        self.type_front(ty)?;
        self.type_inside(ty)?;
        self.type_back(ty)
    }

    /// Puts down what stands before the types that lie in a type.
    fn type_front(&mut self, ty: &TypeExpr) -> Result<(), AllocError>
        ensures { OnOk result (self.new.list.items ≡ self.old.list.items ++ type_front (type_layer ty.now)) }
    {
        match ty {
            TypeExpr::Unit {
                opening,
                closing,
                ..
            } => self.unit(*opening, *closing),
            TypeExpr::Tuple { opening, .. } => self.mark(Punctuation::OpenParen, *opening),
            TypeExpr::Slice { opening, .. } => self.mark(Punctuation::OpenBracket, *opening),
            TypeExpr::Array { opening, .. } => self.mark(Punctuation::OpenBracket, *opening),
            TypeExpr::Reference {
                and,
                lifetime,
                mut_keyword,
                ..
            } => self.reference_front(*and, lifetime, *mut_keyword),
            TypeExpr::Pointer { star, kind, .. } => self.pointer_front(*star, *kind),
            TypeExpr::Path { path, .. } => self.path(path),
        }
    }

    /// Puts down the types that lie in a type, and what stands between them.
    #[cycle(types)]
    fn type_inside(&mut self, ty: &TypeExpr) -> Result<(), AllocError>
        ensures { OnOk result (self.new.list.items ≡ self.old.list.items ++ type_inside (type_layer ty.now)) }
    {
        match ty {
            TypeExpr::Unit { .. } => Ok(()),
            TypeExpr::Tuple { parts, commas, .. } => self.types(
                parts.as_slice(),
                commas.as_slice(),
            ),
            TypeExpr::Slice { element: part, .. }
            | TypeExpr::Array { element: part, .. }
            | TypeExpr::Reference { target: part, .. }
            | TypeExpr::Pointer { target: part, .. } => self.ty(part.get()),
            TypeExpr::Path { arguments, .. } => self.optional_arguments(arguments),
        }
    }

    /// Puts down what stands behind the types that lie in a type.
    fn type_back(&mut self, ty: &TypeExpr) -> Result<(), AllocError>
        ensures { OnOk result (self.new.list.items ≡ self.old.list.items ++ type_back (type_layer ty.now)) }
    {
        match ty {
            TypeExpr::Unit { .. } => Ok(()),
            TypeExpr::Tuple { closing, .. } => self.mark(Punctuation::CloseParen, *closing),
            TypeExpr::Slice { closing, .. } => self.mark(Punctuation::CloseBracket, *closing),
            TypeExpr::Array {
                semicolon,
                length,
                closing,
                ..
            } => self.length(*semicolon, *length, *closing),
            TypeExpr::Reference { .. } => Ok(()),
            TypeExpr::Pointer { .. } => Ok(()),
            TypeExpr::Path { .. } => Ok(()),
        }
    }

    /// Puts down `(` and `)`.
    pub fn unit(&mut self, opening: Span, closing: Span) -> Result<(), AllocError>
        ensures { OnOk result (self.new.list.items ≡ self.old.list.items ++ punct OpenParen opening ∷ punct CloseParen closing ∷ []) }
    {
        self.mark(Punctuation::OpenParen, opening)?;
        self.mark(Punctuation::CloseParen, closing)
    }

    /// Puts down what stands behind the element of `[_; n]`.
    pub fn length(
        &mut self,
        semicolon: Span,
        length: IntLiteral,
        closing: Span,
    ) -> Result<(), AllocError>
        ensures { OnOk result (self.new.list.items ≡ self.old.list.items ++ punct Semicolon semicolon ∷ number length ∷ punct CloseBracket closing ∷ []) }
    {
        self.mark(Punctuation::Semicolon, semicolon)?;
        self.number(length)?;
        self.mark(Punctuation::CloseBracket, closing)
    }

    /// Puts down a lifetime that may be left out.
    fn optional_lifetime(&mut self, name: &Option<Lifetime>) -> Result<(), AllocError>
        ensures { OnOk result (self.new.list.items ≡ self.old.list.items ++ optional_lifetime name.now) }
    {
        match name {
            Some(name) => self.lifetime(name),
            None => Ok(()),
        }
    }

    /// Puts down what stands before the target of a reference.
    fn reference_front(
        &mut self,
        and: Mark,
        name: &Option<Lifetime>,
        mutable: Option<Span>,
    ) -> Result<(), AllocError>
        ensures { OnOk result (self.new.list.items ≡ self.old.list.items ++ mark And and ∷ (optional_lifetime name.now ++ optional_keyword Mut mutable)) }
    {
        self.glue(Punctuation::And, and)?;
        self.optional_lifetime(name)?;
        self.optional_keyword(Keyword::Mut, mutable)
    }

    /// Puts down what stands before the target of a raw pointer.
    fn pointer_front(&mut self, star: Span, kind: PointerKind) -> Result<(), AllocError>
        ensures { OnOk result (self.new.list.items ≡ self.old.list.items ++ punct Star star ∷ pointer_keyword kind ∷ []) }
    {
        self.mark(Punctuation::Star, star)?;
        match kind {
            PointerKind::Const { const_keyword } => self.keyword(Keyword::Const, const_keyword),
            PointerKind::Mut { mut_keyword } => self.keyword(Keyword::Mut, mut_keyword),
        }
    }

    /// Puts down types, with the commas behind them.
    #[cycle(types)]
    pub fn types(&mut self, types: &[TypeExpr], commas: &[Span]) -> Result<(), AllocError>
        ensures { OnOk result (self.new.list.items ≡ self.old.list.items ++ separated Comma (map type_pieces types.now) commas.now) }
    {
        for (at, ty) in types.iter().enumerate() {
            self.ty(ty)?;
            self.mark_at(Punctuation::Comma, commas, at)?;
        }
        Ok(())
    }

    /// Puts down the arguments of a path in a type, if it has some.
    #[cycle(types)]
    fn optional_arguments(&mut self, arguments: &Option<TypeArguments>) -> Result<(), AllocError>
        ensures { OnOk result (self.new.list.items ≡ self.old.list.items ++ optional (option_map arguments_pieces arguments.now)) }
    {
        match arguments {
            Some(arguments) => self.arguments(arguments),
            None => Ok(()),
        }
    }

    /// Puts down the arguments of a path in a type.
    #[cycle(types)]
    fn arguments(&mut self, arguments: &TypeArguments) -> Result<(), AllocError>
        ensures { OnOk result (self.new.list.items ≡ self.old.list.items ++ arguments_pieces arguments.now) }
    {
        self.mark(Punctuation::Lt, arguments.opening)?;
        self.listed_arguments(arguments.arguments.as_slice(), arguments.commas.as_slice())?;
        self.glue(Punctuation::Gt, arguments.closing)
    }

    /// Puts down arguments, with the commas behind them.
    #[cycle(types)]
    fn listed_arguments(
        &mut self,
        arguments: &[TypeArgument],
        commas: &[Span],
    ) -> Result<(), AllocError>
        ensures { OnOk result (self.new.list.items ≡ self.old.list.items ++ separated Comma (map argument_pieces arguments.now) commas.now) }
    {
        for (at, argument) in arguments.iter().enumerate() {
            self.argument(argument)?;
            self.mark_at(Punctuation::Comma, commas, at)?;
        }
        Ok(())
    }

    #[cycle(types)]
    fn argument(&mut self, argument: &TypeArgument) -> Result<(), AllocError>
        ensures { OnOk result (self.new.list.items ≡ self.old.list.items ++ argument_pieces argument.now) }
    {
        match argument {
            TypeArgument::Lifetime(name) => self.lifetime(name),
            TypeArgument::TypeExpr(ty) => self.ty(ty),
        }
    }

    /// Puts down `::<T, ..>`, if it is there.
    pub fn turbofish(&mut self, turbofish: &Option<Turbofish>) -> Result<(), AllocError>
        ensures { OnOk result (self.new.list.items ≡ self.old.list.items ++ turbofish_pieces turbofish.now) }
    {
        let Some(turbofish) = turbofish else {
            return Ok(());
        };
        self.mark(Punctuation::PathSep, turbofish.separator)?;
        self.mark(Punctuation::Lt, turbofish.opening)?;
        self.types(turbofish.types.as_slice(), turbofish.commas.as_slice())?;
        self.glue(Punctuation::Gt, turbofish.closing)
    }

    /// Puts down `: T`, if it is there.
    pub fn type_note(&mut self, note: &Option<TypeNote>) -> Result<(), AllocError>
        ensures { OnOk result (self.new.list.items ≡ self.old.list.items ++ note_pieces note.now) }
    {
        let Some(note) = note else {
            return Ok(());
        };
        self.mark(Punctuation::Colon, note.colon)?;
        self.ty(&note.ty)
    }
}
