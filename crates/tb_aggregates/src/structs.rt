//! Struct literals.

ghost use Rattle.std.specs.Prelude.{◌≡◌, IfOk};
ghost use Rattle.std.specs.Option.{option_map};
ghost use Rattle.tb_rules.specs.Answers.{Gives};
ghost use Rattle.tb_aggregates.specs.Structs.{struct_field, field_want, are_fields, field_count, literal_made, literal};

use crate::orders::order_of;
use sqlite_items::Items;
use std::alloc::Global;
use tb_perm::{Code, Span};
use tb_places::named_in;
use tb_rules::{TypeError, Want, intern};
use tb_thir::{Head, Node};
use tb_types::{Ty, TyShape, Types};

/// The field of a struct that has this name: its number, and its type.
pub fn struct_field(types: &Types, item: u32, name: &[u8]) -> Option<(usize, Ty)>
    ensures field { result ≡ struct_field types.now item name.now }
{
    if types.defined(item) {
        named_in(types.fields(item), name)
    } else {
        None
    }
}

/// What is expected of the value of a field: its type, with coercions.
pub fn field_want(found: Option<(usize, Ty)>) -> Want
    ensures want { result ≡ field_want found }
{
    match found {
        Some((_, ty)) => Want::Into(ty),
        None => Want::Free,
    }
}

/// Whether each name is that of a field.
fn are_fields(numbers: &[Option<usize>]) -> bool
    ensures { result ≡ are_fields numbers.now }
{
    for number in numbers {
        if number.is_none() {
            return false;
        }
    }
    true
}

fn field_count(types: &Types, item: u32) -> usize
    ensures { result ≡ field_count types.now item }
{
    if types.defined(item) {
        types.fields(item).len()
    } else {
        0
    }
}

fn literal_made(
    types: &mut Types,
    item: u32,
    parts: Items<Node>,
    order: Option<Vec<u32>>,
    span: Span,
) -> Result<Node, TypeError>
    ensures { Gives result (λ node. (node, types.new)) (literal_made types.old item parts (option_map (λ list. list.items) order) span) }
{
    match order {
        None => Err(TypeError::Refused(Code::WrongNumber, span)),
        Some(order) => {
            let ty = intern(types, TyShape::Struct(item))?;
            Ok(Node::Make {
                head: Head { ty, span },
                parts,
                order: Items::from_vec(order),
            })
        }
    }
}

/// A literal of the struct of this number, with these values for the fields of these numbers; refused with `NoSuchFieldOrCall` where a name is that of
/// none, and with `WrongNumber` where not each field stands there once.
pub fn literal(
    alloc: Global,
    types: &mut Types,
    item: u32,
    numbers: &[Option<usize>],
    parts: Items<Node>,
    span: Span,
) -> Result<Node, TypeError>
    ensures literal { Gives result (λ node. (node, types.new)) (literal types.old item numbers.now parts span) }
{
    if !are_fields(numbers) {
        return Err(TypeError::Refused(Code::NoSuchFieldOrCall, span));
    }
    let order = order_of(alloc, numbers, field_count(types, item))?;
    literal_made(types, item, parts, order, span)
}
