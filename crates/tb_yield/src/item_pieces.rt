//! Items, attributes and whole files as pieces.

ghost use Rattle.std.specs.Prelude.{◌≡◌, ◌++◌, ◌∷◌, [], map, OnOk};
ghost use Rattle.tb_lex.specs.declared.punctuation.Punctuation.TheVariants.{Comma, Pound, Not, OpenBracket};
ghost use Rattle.tb_ast.specs.Pieces.{punct, separated, in_order};
ghost use Rattle.tb_ast.specs.Files.{word_list, inner_row, repr_row, meta_row, attribute_row, group_row, use_row, lifetime_row, lifetimes_row, member_row, struct_row, bounds_row, generic_row, generics_row, parameter_row, result_row, optional_result, name_row, parameters_row, function_row, foreign_row, extern_row, kind_row, item_row, tree_pieces};

use crate::pieces::Pieces;
use std::alloc::AllocError;
use tb_ast::{
    Attribute, Bounds, ExternBlock, Field, ForeignFunction, Function, GenericParameter, Generics,
    InnerAttribute, Item, ItemKind, Lifetime, Lifetimes, Meta, Parameter, Repr, ResultType, Struct,
    Tree, Use, UseGroup, WordList,
};
use tb_lex::{Keyword, Punctuation};
use tb_perm::Span;

// Attributes.
impl Pieces {
    /// Puts down a word, and words in parentheses.
    fn word_list(&mut self, name: &str, list: &WordList) -> Result<(), AllocError>
        ensures { OnOk result (self.new.list.items ≡ self.old.list.items ++ word_list name.now list.now) }
    {
        self.word(name, list.word)?;
        self.mark(Punctuation::OpenParen, list.opening)?;
        self.idents(
            list.names.as_slice(),
            Punctuation::Comma,
            list.commas.as_slice(),
        )?;
        self.mark(Punctuation::CloseParen, list.closing)
    }

    /// Puts down `#`, `!` and `[`.
    fn inner_front(&mut self, pound: Span, bang: Span, opening: Span) -> Result<(), AllocError>
        ensures { OnOk result (self.new.list.items ≡ self.old.list.items ++ punct Pound pound ∷ punct Not bang ∷ punct OpenBracket opening ∷ []) }
    {
        self.mark(Punctuation::Pound, pound)?;
        self.mark(Punctuation::Not, bang)?;
        self.mark(Punctuation::OpenBracket, opening)
    }

    fn inner_attribute(&mut self, inner: &InnerAttribute) -> Result<(), AllocError>
        ensures { OnOk result (self.new.list.items ≡ self.old.list.items ++ inner_row inner.now) }
    {
        self.inner_front(inner.pound, inner.bang, inner.opening)?;
        self.word_list("allow", &inner.allow)?;
        self.mark(Punctuation::CloseBracket, inner.closing)
    }

    fn repr(&mut self, repr: &Repr) -> Result<(), AllocError>
        ensures { OnOk result (self.new.list.items ≡ self.old.list.items ++ repr_row repr.now) }
    {
        self.word("repr", repr.word)?;
        self.mark(Punctuation::OpenParen, repr.opening)?;
        self.ident(&repr.name)?;
        self.mark(Punctuation::CloseParen, repr.closing)
    }

    fn meta(&mut self, meta: &Meta) -> Result<(), AllocError>
        ensures { OnOk result (self.new.list.items ≡ self.old.list.items ++ meta_row meta.now) }
    {
        match meta {
            Meta::Allow(list) => self.word_list("allow", list),
            Meta::Derive(list) => self.word_list("derive", list),
            Meta::Repr(repr) => self.repr(repr),
        }
    }

    fn attribute(&mut self, attribute: &Attribute) -> Result<(), AllocError>
        ensures { OnOk result (self.new.list.items ≡ self.old.list.items ++ attribute_row attribute.now) }
    {
        self.mark(Punctuation::Pound, attribute.pound)?;
        self.mark(Punctuation::OpenBracket, attribute.opening)?;
        self.meta(&attribute.meta)?;
        self.mark(Punctuation::CloseBracket, attribute.closing)
    }

    fn attributes(&mut self, attributes: &[Attribute]) -> Result<(), AllocError>
        ensures { OnOk result (self.new.list.items ≡ self.old.list.items ++ in_order (map attribute_row attributes.now)) }
    {
        for attribute in attributes {
            self.attribute(attribute)?;
        }
        Ok(())
    }

    fn inner_attributes(&mut self, attributes: &[InnerAttribute]) -> Result<(), AllocError>
        ensures { OnOk result (self.new.list.items ≡ self.old.list.items ++ in_order (map inner_row attributes.now)) }
    {
        for attribute in attributes {
            self.inner_attribute(attribute)?;
        }
        Ok(())
    }
}

// Uses and structs.
impl Pieces {
    fn use_group(&mut self, group: &Option<UseGroup>) -> Result<(), AllocError>
        ensures { OnOk result (self.new.list.items ≡ self.old.list.items ++ group_row group.now) }
    {
        let Some(group) = group else {
            return Ok(());
        };
        self.mark(Punctuation::PathSep, group.separator)?;
        self.mark(Punctuation::OpenBrace, group.opening)?;
        self.idents(
            group.names.as_slice(),
            Punctuation::Comma,
            group.commas.as_slice(),
        )?;
        self.mark(Punctuation::CloseBrace, group.closing)
    }

    fn use_item(&mut self, item: &Use) -> Result<(), AllocError>
        ensures { OnOk result (self.new.list.items ≡ self.old.list.items ++ use_row item.now) }
    {
        self.keyword(Keyword::Use, item.use_keyword)?;
        self.path(&item.path)?;
        self.use_group(&item.group)?;
        self.mark(Punctuation::Semicolon, item.semicolon)
    }

    fn listed_lifetimes(
        &mut self,
        lifetimes: &[Lifetime],
        commas: &[Span],
    ) -> Result<(), AllocError>
        ensures { OnOk result (self.new.list.items ≡ self.old.list.items ++ separated Comma (map lifetime_row lifetimes.now) commas.now) }
    {
        for (at, lifetime) in lifetimes.iter().enumerate() {
            self.lifetime(lifetime)?;
            self.mark_at(Punctuation::Comma, commas, at)?;
        }
        Ok(())
    }

    fn lifetimes(&mut self, lifetimes: &Option<Lifetimes>) -> Result<(), AllocError>
        ensures { OnOk result (self.new.list.items ≡ self.old.list.items ++ lifetimes_row lifetimes.now) }
    {
        let Some(lifetimes) = lifetimes else {
            return Ok(());
        };
        self.mark(Punctuation::Lt, lifetimes.opening)?;
        self.listed_lifetimes(lifetimes.lifetimes.as_slice(), lifetimes.commas.as_slice())?;
        self.mark(Punctuation::Gt, lifetimes.closing)
    }

    fn member(&mut self, field: &Field) -> Result<(), AllocError>
        ensures { OnOk result (self.new.list.items ≡ self.old.list.items ++ member_row field.now) }
    {
        self.ident(&field.name)?;
        self.mark(Punctuation::Colon, field.colon)?;
        self.ty(&field.ty)
    }

    fn members(&mut self, fields: &[Field], commas: &[Span]) -> Result<(), AllocError>
        ensures { OnOk result (self.new.list.items ≡ self.old.list.items ++ separated Comma (map member_row fields.now) commas.now) }
    {
        for (at, field) in fields.iter().enumerate() {
            self.member(field)?;
            self.mark_at(Punctuation::Comma, commas, at)?;
        }
        Ok(())
    }

    fn struct_item(&mut self, item: &Struct) -> Result<(), AllocError>
        ensures { OnOk result (self.new.list.items ≡ self.old.list.items ++ struct_row item.now) }
    {
        self.keyword(Keyword::Struct, item.struct_keyword)?;
        self.ident(&item.name)?;
        self.lifetimes(&item.lifetimes)?;
        self.mark(Punctuation::OpenBrace, item.opening)?;
        self.members(item.fields.as_slice(), item.commas.as_slice())?;
        self.mark(Punctuation::CloseBrace, item.closing)
    }
}

// Functions.
impl Pieces {
    fn bounds(&mut self, bounds: &Option<Bounds>) -> Result<(), AllocError>
        ensures { OnOk result (self.new.list.items ≡ self.old.list.items ++ bounds_row bounds.now) }
    {
        let Some(bounds) = bounds else {
            return Ok(());
        };
        self.mark(Punctuation::Colon, bounds.colon)?;
        self.idents(
            bounds.names.as_slice(),
            Punctuation::Plus,
            bounds.pluses.as_slice(),
        )
    }

    fn generic(&mut self, parameter: &GenericParameter) -> Result<(), AllocError>
        ensures { OnOk result (self.new.list.items ≡ self.old.list.items ++ generic_row parameter.now) }
    {
        match parameter {
            GenericParameter::Lifetime(name) => self.lifetime(name),
            GenericParameter::Named { name, bounds } => {
                self.ident(name)?;
                self.bounds(bounds)
            }
        }
    }

    fn listed_generics(
        &mut self,
        parameters: &[GenericParameter],
        commas: &[Span],
    ) -> Result<(), AllocError>
        ensures { OnOk result (self.new.list.items ≡ self.old.list.items ++ separated Comma (map generic_row parameters.now) commas.now) }
    {
        for (at, parameter) in parameters.iter().enumerate() {
            self.generic(parameter)?;
            self.mark_at(Punctuation::Comma, commas, at)?;
        }
        Ok(())
    }

    fn generics(&mut self, generics: &Option<Generics>) -> Result<(), AllocError>
        ensures { OnOk result (self.new.list.items ≡ self.old.list.items ++ generics_row generics.now) }
    {
        let Some(generics) = generics else {
            return Ok(());
        };
        self.mark(Punctuation::Lt, generics.opening)?;
        self.listed_generics(generics.parameters.as_slice(), generics.commas.as_slice())?;
        self.mark(Punctuation::Gt, generics.closing)
    }

    fn parameter(&mut self, parameter: &Parameter) -> Result<(), AllocError>
        ensures { OnOk result (self.new.list.items ≡ self.old.list.items ++ parameter_row parameter.now) }
    {
        self.optional_keyword(Keyword::Mut, parameter.mut_keyword)?;
        self.ident(&parameter.name)?;
        self.mark(Punctuation::Colon, parameter.colon)?;
        self.ty(&parameter.ty)
    }

    fn listed_parameters(
        &mut self,
        parameters: &[Parameter],
        commas: &[Span],
    ) -> Result<(), AllocError>
        ensures { OnOk result (self.new.list.items ≡ self.old.list.items ++ separated Comma (map parameter_row parameters.now) commas.now) }
    {
        for (at, parameter) in parameters.iter().enumerate() {
            self.parameter(parameter)?;
            self.mark_at(Punctuation::Comma, commas, at)?;
        }
        Ok(())
    }

    fn result_type(&mut self, output: &ResultType) -> Result<(), AllocError>
        ensures { OnOk result (self.new.list.items ≡ self.old.list.items ++ result_row output.now) }
    {
        self.mark(Punctuation::Arrow, output.arrow)?;
        self.ty(&output.ty)
    }

    fn optional_result(&mut self, output: &Option<ResultType>) -> Result<(), AllocError>
        ensures { OnOk result (self.new.list.items ≡ self.old.list.items ++ optional_result output.now) }
    {
        match output {
            Some(output) => self.result_type(output),
            None => Ok(()),
        }
    }

    /// Puts down a function up to its parameters.
    fn function_name(&mut self, function: &Function) -> Result<(), AllocError>
        ensures { OnOk result (self.new.list.items ≡ self.old.list.items ++ name_row function.now) }
    {
        self.optional_keyword(Keyword::Unsafe, function.unsafe_keyword)?;
        self.keyword(Keyword::Fn, function.fn_keyword)?;
        self.ident(&function.name)?;
        self.generics(&function.generics)
    }

    /// Puts down the parameters of a function.
    fn parameters(&mut self, function: &Function) -> Result<(), AllocError>
        ensures { OnOk result (self.new.list.items ≡ self.old.list.items ++ parameters_row function.now) }
    {
        self.mark(Punctuation::OpenParen, function.opening)?;
        self.listed_parameters(function.parameters.as_slice(), function.commas.as_slice())?;
        self.mark(Punctuation::CloseParen, function.closing)
    }

    fn function(&mut self, function: &Function) -> Result<(), AllocError>
        ensures { OnOk result (self.new.list.items ≡ self.old.list.items ++ function_row function.now) }
    {
        self.function_name(function)?;
        self.parameters(function)?;
        self.optional_result(&function.result)?;
        self.block(&function.body)
    }

    fn foreign_function(&mut self, function: &ForeignFunction) -> Result<(), AllocError>
        ensures { OnOk result (self.new.list.items ≡ self.old.list.items ++ foreign_row function.now) }
    {
        self.keyword(Keyword::Fn, function.fn_keyword)?;
        self.ident(&function.name)?;
        self.unit(function.opening, function.closing)?;
        self.result_type(&function.result)?;
        self.mark(Punctuation::Semicolon, function.semicolon)
    }

    fn foreign_functions(&mut self, functions: &[ForeignFunction]) -> Result<(), AllocError>
        ensures { OnOk result (self.new.list.items ≡ self.old.list.items ++ in_order (map foreign_row functions.now)) }
    {
        for function in functions {
            self.foreign_function(function)?;
        }
        Ok(())
    }

    fn extern_block(&mut self, block: &ExternBlock) -> Result<(), AllocError>
        ensures { OnOk result (self.new.list.items ≡ self.old.list.items ++ extern_row block.now) }
    {
        self.optional_keyword(Keyword::Unsafe, block.unsafe_keyword)?;
        self.keyword(Keyword::Extern, block.extern_keyword)?;
        self.text(&block.abi)?;
        self.mark(Punctuation::OpenBrace, block.opening)?;
        self.foreign_functions(block.functions.as_slice())?;
        self.mark(Punctuation::CloseBrace, block.closing)
    }
}

// Whole files.
impl Pieces {
    fn item_kind(&mut self, kind: &ItemKind) -> Result<(), AllocError>
        ensures { OnOk result (self.new.list.items ≡ self.old.list.items ++ kind_row kind.now) }
    {
        match kind {
            ItemKind::Use(item) => self.use_item(item),
            ItemKind::Struct(item) => self.struct_item(item),
            ItemKind::Function(function) => self.function(function),
            ItemKind::Extern(block) => self.extern_block(block),
        }
    }

    fn item(&mut self, item: &Item) -> Result<(), AllocError>
        ensures { OnOk result (self.new.list.items ≡ self.old.list.items ++ item_row item.now) }
    {
        self.attributes(item.attributes.as_slice())?;
        self.item_kind(&item.kind)
    }

    fn items(&mut self, items: &[Item]) -> Result<(), AllocError>
        ensures { OnOk result (self.new.list.items ≡ self.old.list.items ++ in_order (map item_row items.now)) }
    {
        for item in items {
            self.item(item)?;
        }
        Ok(())
    }

    /// Puts down a whole file.
    pub fn tree(&mut self, tree: &Tree) -> Result<(), AllocError>
        ensures { OnOk result (self.new.list.items ≡ self.old.list.items ++ tree_pieces tree.now) }
    {
        self.inner_attributes(tree.attributes.as_slice())?;
        self.items(tree.items.as_slice())
    }
}
