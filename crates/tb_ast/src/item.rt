//! Whole files, items and attributes.

use crate::expression::Block;
use crate::leaf::{Ident, Lifetime, Path, TextLiteral};
use crate::written::TypeExpr;
use sqlite_items::Items;
use tb_perm::Span;

/// A whole file.
#[derive(Debug, Drop)]
pub struct Tree {
    pub attributes: Items<InnerAttribute>,
    /// In the order of the text.
    pub items: Items<Item>,
    /// The length of the text in bytes.
    pub end: u32,
}

/// `#![allow(word, ..)]`
#[derive(Debug, Drop)]
pub struct InnerAttribute {
    pub span: Span,
    pub pound: Span,
    pub bang: Span,
    pub opening: Span,
    pub allow: WordList,
    pub closing: Span,
}

/// `#[meta]`
#[derive(Debug, Drop)]
pub struct Attribute {
    pub span: Span,
    pub pound: Span,
    pub opening: Span,
    pub meta: Meta,
    pub closing: Span,
}

/// What an attribute says of an item.
#[derive(Debug, Drop)]
pub enum Meta {
    /// `allow(word, ..)`
    Allow(WordList),
    /// `derive(word, ..)`
    Derive(WordList),
    /// `repr(word)`
    Repr(Repr),
}

/// `allow` or `derive` and words in parentheses.
#[derive(Debug, Drop)]
pub struct WordList {
    /// `allow` or `derive`.
    pub word: Span,
    pub opening: Span,
    pub names: Items<Ident>,
    pub commas: Items<Span>,
    pub closing: Span,
}

/// `repr` and a word in parentheses.
#[derive(Debug, Drop)]
pub struct Repr {
    /// `repr`.
    pub word: Span,
    pub opening: Span,
    pub name: Ident,
    pub closing: Span,
}

/// An item with its attributes.
#[derive(Debug, Drop)]
pub struct Item {
    /// With its attributes.
    pub span: Span,
    pub attributes: Items<Attribute>,
    pub kind: ItemKind,
}

/// An item without its attributes.
#[derive(Debug, Drop)]
pub enum ItemKind {
    Use(Use),
    Struct(Struct),
    Function(Function),
    Extern(ExternBlock),
}

/// `use path;` or `use path::{name, ..};`
#[derive(Debug, Drop)]
pub struct Use {
    pub use_keyword: Span,
    /// From the first word of the path to before the semicolon.
    pub span: Span,
    pub path: Path,
    pub group: Option<UseGroup>,
    pub semicolon: Span,
}

/// `::{name, ..}` behind the path of a `use`.
#[derive(Debug, Drop)]
pub struct UseGroup {
    pub separator: Span,
    pub opening: Span,
    pub names: Items<Ident>,
    pub commas: Items<Span>,
    pub closing: Span,
}

/// `struct name<'a, ..> { name: T, .. }`
#[derive(Debug, Drop)]
pub struct Struct {
    pub struct_keyword: Span,
    pub name: Ident,
    pub lifetimes: Option<Lifetimes>,
    pub opening: Span,
    pub fields: Items<Field>,
    pub commas: Items<Span>,
    pub closing: Span,
}

/// `<'a, ..>`
#[derive(Debug, Drop)]
pub struct Lifetimes {
    pub opening: Span,
    pub lifetimes: Items<Lifetime>,
    pub commas: Items<Span>,
    pub closing: Span,
}

/// A field of a struct.
#[derive(Debug, Drop)]
pub struct Field {
    pub name: Ident,
    pub colon: Span,
    pub ty: TypeExpr,
}

/// A function.
#[derive(Debug, Drop)]
pub struct Function {
    /// From `unsafe` or `fn` to the end of the body, without attributes.
    pub span: Span,
    pub unsafe_keyword: Option<Span>,
    pub fn_keyword: Span,
    pub name: Ident,
    pub generics: Option<Generics>,
    pub opening: Span,
    pub parameters: Items<Parameter>,
    pub commas: Items<Span>,
    pub closing: Span,
    pub result: Option<ResultType>,
    pub body: Block,
}

/// `<'a, T: Bound, ..>` behind the name of a function.
#[derive(Debug, Drop)]
pub struct Generics {
    pub opening: Span,
    pub parameters: Items<GenericParameter>,
    pub commas: Items<Span>,
    pub closing: Span,
}

/// A lifetime or a type that a function is generic over.
#[derive(Debug, Drop)]
pub enum GenericParameter {
    Lifetime(Lifetime),
    /// `T` or `T: Bound + ..`
    Named { name: Ident, bounds: Option<Bounds> },
}

/// `: Bound + ..` behind the name of a type parameter.
#[derive(Debug, Drop)]
pub struct Bounds {
    pub colon: Span,
    /// At least one.
    pub names: Items<Ident>,
    /// The `+` behind each name but the last.
    pub pluses: Items<Span>,
}

/// A parameter of a function.
#[derive(Debug, Drop)]
pub struct Parameter {
    /// From the name to the end of the type.
    pub span: Span,
    pub mut_keyword: Option<Span>,
    pub name: Ident,
    pub colon: Span,
    pub ty: TypeExpr,
}

/// `-> T`
#[derive(Debug, Drop)]
pub struct ResultType {
    pub arrow: Span,
    pub ty: TypeExpr,
}

/// `extern "C" { .. }`
#[derive(Debug, Drop)]
pub struct ExternBlock {
    pub unsafe_keyword: Option<Span>,
    pub extern_keyword: Span,
    pub abi: TextLiteral,
    pub opening: Span,
    pub functions: Items<ForeignFunction>,
    pub closing: Span,
}

/// `fn name() -> T;`
#[derive(Debug, Drop)]
pub struct ForeignFunction {
    /// From `fn` to the semicolon.
    pub span: Span,
    pub fn_keyword: Span,
    pub name: Ident,
    pub opening: Span,
    pub closing: Span,
    pub result: ResultType,
    pub semicolon: Span,
}
