//! Expressions with a list of parts.

ghost use Rattle.std.specs.Prelude.{◌≡◌};
ghost use Rattle.tb_rules.specs.Answers.{Gives};
ghost use Rattle.tb_compose.specs.Lists.{told_list, after_first, list_want, list_made, list};

use crate::setting::Setting;
use crate::settling::settle;
use sqlite_items::Items;
use std::alloc::Global;
use tb_aggregates::{array, element_want, part_want, tuple, tuple_want};
use tb_control::print_of;
use tb_lex::TextCharacter;
use tb_perm::Span;
use tb_rules::{TypeError, Want};
use tb_thir::Node;
use tb_types::Types;

/// An expression with a list of expressions in it, other than a call.
#[derive(Clone, Copy)]
pub enum ListOfParts<'a> {
    Tuple,
    Array,
    /// `print!`, or `println!` where the first is true: its text as it is written, and the characters that it stands for.
    Print(bool, &'a [u8], &'a [TextCharacter]),
}

/// What is expected of an element of an array, after these.
fn after_first(types: &Types, want: Want, done: &[Node]) -> Want
    ensures { result ≡ after_first types.now want done.now }
{
    match done {
        [] => element_want(types, want),
        [first, ..] => part_want(types, want, first.head().ty),
    }
}

/// What is expected of the next part, after these.
pub fn list_want(types: &Types, form: ListOfParts<'_>, want: Want, done: &[Node]) -> Want
    ensures want { result ≡ list_want types.now (told_list form.entry) want done.now }
{
    match form {
        ListOfParts::Tuple => tuple_want(types, want, done.len()),
        ListOfParts::Array => after_first(types, want, done),
        ListOfParts::Print(_, _, _) => Want::Free,
    }
}

fn list_made(
    alloc: Global,
    types: &mut Types,
    setting: &Setting,
    form: ListOfParts<'_>,
    want: Want,
    parts: Items<Node>,
    span: Span,
) -> Result<Node, TypeError>
    ensures { Gives result (λ node. (node, types.new)) (list_made types.old setting.now (told_list form.entry) want parts span) }
{
    match form {
        ListOfParts::Tuple => tuple(alloc, types, want, parts, span),
        ListOfParts::Array => array(alloc, types, want, parts, span),
        ListOfParts::Print(newline, source, characters) => {
            let text = Items::from_slice(alloc, source)?;
            print_of(
                types,
                &setting.scalars,
                newline,
                text,
                characters,
                parts,
                span,
            )
        }
    }
}

/// An expression with a list of parts, where this is expected of it.
pub fn list(
    alloc: Global,
    types: &mut Types,
    setting: &Setting,
    form: ListOfParts<'_>,
    want: Want,
    parts: Items<Node>,
    span: Span,
) -> Result<Node, TypeError>
    ensures list { Gives result (λ node. (node, types.new)) (list types.old setting.now (told_list form.entry) want parts span) }
{
    let node = list_made(alloc, types, setting, form, want, parts, span)?;
    settle(alloc, types, want, node)
}
