//! The mentions of items, in words.
ghost use Rattle.std.specs.Prelude.{◌≤◌, length};

use std::alloc::{AllocError, Global};
use tb_ast::{Item, Mention, TypeExpr, depth, item_depth, mentions, type_depth};
use tb_lex::lex;
use tb_parse::parse;
use tb_perm::Span;

/// Where a copy of a type stands, where it is as deep as the type and stands where that does.
fn copied_span(alloc: Global, ty: &TypeExpr) -> Result<Option<Span>, AllocError> {
    let copy = ty.try_clone(alloc)?;
    let same = copy.span() == ty.span() && type_depth(&copy) == type_depth(ty);
    Ok(same.then_some(copy.span()))
}

/// A letter for what a mention is, and where it stands.
fn told(alloc: Global, mention: Mention<'_>) -> Result<(char, Option<Span>), AllocError> {
    match mention {
        Mention::Value(path) => Ok(('v', Some(path.path.span))),
        Mention::Callee(path) => Ok(('c', Some(path.path.span))),
        Mention::Struct(path) => Ok(('s', Some(path.span))),
        Mention::Short(name) => Ok(('f', Some(name.span))),
        Mention::Written(ty) => Ok(('t', copied_span(alloc, ty)?)),
    }
}

/// The text at a place.
fn text_at(alloc: Global, source: &[u8], span: Option<Span>) -> Result<String, AllocError> {
    let bytes = span.and_then(|span| source.get(span.lo as usize..span.hi as usize));
    String::from_utf8_lossy(alloc, bytes.unwrap_or(b"?"))
}

/// The mentions of an item: for each its letter and the text where it stands, with blanks between.
fn item_words(alloc: Global, source: &[u8], item: &Item) -> Result<String, AllocError> {
    let mut out = String::new(alloc);
    for mention in mentions(alloc, item)? {
        let (letter, span) = told(alloc, mention)?;
        if !out.is_empty() {
            out.push(' ')?;
        }
        out.push(letter)?;
        out.push_str(text_at(alloc, source, span)?.as_str())?;
    }
    Ok(out)
}

/// The mentions of the one item of a source, whose depth is that of the tree.
pub fn words(alloc: Global, source: &[u8]) -> Result<String, AllocError>
    requires { length source.now ≤ 1048576 }
{
    let Ok(tokens) = lex(alloc, source) else {
        return String::from_str(alloc, "no tokens");
    };
    let Ok(tree) = parse(alloc, &tokens) else {
        return String::from_str(alloc, "no tree");
    };
    match tree.items.as_slice() {
        [item] if item_depth(item) == depth(&tree) => item_words(alloc, source, item),
        [_] => String::from_str(alloc, "another depth"),
        _ => String::from_str(alloc, "not one item"),
    }
}
