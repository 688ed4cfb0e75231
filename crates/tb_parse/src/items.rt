//! Items.

ghost use Rattle.std.specs.Prelude.{◌≡◌};
ghost use Rattle.tb_syntax.specs.Reading.{Gives};
ghost use Rattle.tb_parse.specs.Files.{or_at, function_of, kind_span, item_span, function_at, begins_extern, kind_at, item_at};

use std::alloc::Global;
use tb_ast::{Attribute, Block, Function, Item, ItemKind};
use tb_lex::Keyword;
use tb_perm::Span;
use tb_syntax::{Cursor, FunctionHead, ReadError, from_to};

/// How deep the nodes of a tree may lie in one another.
pub const DEPTH: u32 = 128;

/// The first of these places that stands there.
fn or_at(first: Option<Span>, span: Span) -> Span
    ensures { result ≡ or_at first span }
{
    match first {
        Some(first) => first,
        None => span,
    }
}

/// A function with this head and body.
fn function_of(head: FunctionHead, body: Block) -> Function
    ensures { result ≡ function_of head body }
{
    Function {
        span: from_to(or_at(head.unsafe_keyword, head.fn_keyword), body.span),
        unsafe_keyword: head.unsafe_keyword,
        fn_keyword: head.fn_keyword,
        name: head.name,
        generics: head.generics,
        opening: head.opening,
        parameters: head.parameters,
        commas: head.commas,
        closing: head.closing,
        result: head.result,
        body,
    }
}

/// Where an item stands without its attributes.
fn kind_span(kind: &ItemKind) -> Span
    ensures { result ≡ kind_span kind.now }
{
    match kind {
        ItemKind::Use(item) => from_to(item.use_keyword, item.semicolon),
        ItemKind::Struct(item) => from_to(item.struct_keyword, item.closing),
        ItemKind::Function(function) => function.span,
        ItemKind::Extern(block) => from_to(
            or_at(block.unsafe_keyword, block.extern_keyword),
            block.closing,
        ),
    }
}

/// Where an item stands with these attributes.
fn item_span(attributes: &[Attribute], kind: Span) -> Span
    ensures { result ≡ item_span attributes.now kind }
{
    match attributes {
        [first, ..] => from_to(first.span, kind),
        [] => kind,
    }
}

/// A function, and what follows it.
#[tactic(auto, unfolding(crate::specs::Files::function_at))]
fn function<'a>(cursor: Cursor<'a>, alloc: Global) -> Result<(Function, Cursor<'a>), ReadError>
    ensures { Gives (λ x. x) result (function_at 127 cursor.entry) }
{
    let (head, rest) = cursor.function_head(alloc, DEPTH)?;
    let (body, rest) = tb_expr::block(rest, alloc, DEPTH - 1)?;
    Ok((function_of(head, body), rest))
}

/// Whether `extern` comes next, with or without `unsafe`.
#[tactic(auto, unfolding(crate::specs::Files::begins_extern))]
fn begins_extern(cursor: &Cursor<'_>) -> bool
    ensures { result ≡ begins_extern cursor.now }
{
    if cursor.has_keyword(Keyword::Extern) {
        return true;
    }
    match cursor.next_keyword(Keyword::Unsafe) {
        Some((_, rest)) => rest.has_keyword(Keyword::Extern),
        None => false,
    }
}

/// An item without its attributes, and what follows it.
#[tactic(auto, unfolding(crate::specs::Files::kind_at))]
fn kind<'a>(cursor: Cursor<'a>, alloc: Global) -> Result<(ItemKind, Cursor<'a>), ReadError>
    ensures { Gives (λ x. x) result (kind_at 127 cursor.entry) }
{
    if cursor.has_keyword(Keyword::Use) {
        let (item, rest) = cursor.use_item(alloc)?;
        return Ok((ItemKind::Use(item), rest));
    }
    if cursor.has_keyword(Keyword::Struct) {
        let (item, rest) = cursor.struct_item(alloc, DEPTH)?;
        return Ok((ItemKind::Struct(item), rest));
    }
    if begins_extern(&cursor) {
        let (block, rest) = cursor.extern_block(alloc, DEPTH)?;
        return Ok((ItemKind::Extern(block), rest));
    }
    let (function, rest) = function(cursor, alloc)?;
    Ok((ItemKind::Function(function), rest))
}

/// An item, and what follows it.
#[tactic(auto, unfolding(crate::specs::Files::item_at))]
pub fn item<'a>(cursor: Cursor<'a>, alloc: Global) -> Result<(Item, Cursor<'a>), ReadError>
    ensures { Gives (λ x. x) result (item_at 127 cursor.entry) }
{
    let (attributes, rest) = cursor.attributes(alloc)?;
    let (kind, rest) = kind(rest, alloc)?;
    let span = item_span(attributes.as_slice(), kind_span(&kind));
    Ok((
        Item {
            span,
            attributes,
            kind,
        },
        rest,
    ))
}
