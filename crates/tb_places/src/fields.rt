//! Fields of structs and parts of tuples.

ghost use Rattle.std.specs.Prelude.{◌≡◌, IfOk};
ghost use Rattle.tb_rules.specs.Answers.{Gives};
ghost use Rattle.tb_places.specs.Fields.{named_in, field_of, field_found, field, part_at, tuple_field};

use crate::dereference::deref_all;
use sqlite_items::Boxed;
use std::alloc::{AllocError, Global};
use tb_perm::{Code, Span};
use tb_rules::{TypeError, TypeKind, kind};
use tb_thir::{Head, Node};
use tb_types::{Field, Ty, Types};

/// The field of this name: its place, and its type.
pub fn named_in(fields: &[Field], name: &[u8]) -> Option<(usize, Ty)>
    ensures found { result ≡ named_in fields.now name.now }
{
    for (number, field) in fields.iter().enumerate() {
        if field.name.as_str().as_bytes() == name {
            return Some((number, field.ty));
        }
    }
    None
}

/// The fields of `Layout`, which is struct 0, have no names for programs.
fn field_of(types: &Types, kind: TypeKind, name: &[u8]) -> Option<(usize, Ty)>
    ensures { result ≡ field_of types.now kind name.now }
{
    match kind {
        TypeKind::Struct(item) => if item != 0 && types.defined(item) {
            named_in(types.fields(item), name)
        } else {
            None
        },
        _ => None,
    }
}

fn part_at(types: &Types, kind: TypeKind, ty: Ty, number: usize) -> Option<(usize, Ty)>
    ensures { result ≡ part_at types.now kind ty number }
{
    match kind {
        TypeKind::Tuple => types.part(ty, number).map(|part| (number, part)),
        _ => None,
    }
}

/// There are fewer than 2^32 fields.
fn number_of(place: usize) -> Result<u32, AllocError>
    ensures { IfOk result (λ number. number ≡ place) }
{
    match u32::try_from(place) {
        Ok(number) => Ok(number),
        Err(_) => Err(AllocError),
    }
}

fn field_found(
    alloc: Global,
    found: Option<(usize, Ty)>,
    base: Node,
    span: Span,
) -> Result<Node, TypeError>
    ensures { Gives result (λ node. node) (field_found found base span) }
{
    match found {
        None => Err(TypeError::Refused(Code::NoSuchFieldOrCall, span)),
        Some((place, ty)) => {
            let field = number_of(place)?;
            let mutable = base.is_mutable();
            let base = Boxed::new(alloc, base)?;
            Ok(Node::Field {
                head: Head { ty, span },
                base,
                field,
                mutable,
            })
        }
    }
}

/// `e.name`: a field of a struct, behind references and Boxes; refused with `NoSuchFieldOrCall` where there is none of this
/// name.
pub fn field(
    alloc: Global,
    types: &Types,
    base: Node,
    name: &[u8],
    span: Span,
) -> Result<Node, TypeError>
    ensures field { Gives result (λ node. node) (field types.now base name.now span) }
{
    let place = deref_all(alloc, types, base)?;
    let found = field_of(types, kind(types, place.head().ty), name);
    field_found(alloc, found, place, span)
}

/// `e.0`: a part of a tuple, behind references and Boxes; refused with `NoSuchFieldOrCall` where there is none of this number.
pub fn tuple_field(
    alloc: Global,
    types: &Types,
    base: Node,
    number: usize,
    span: Span,
) -> Result<Node, TypeError>
    ensures part { Gives result (λ node. node) (tuple_field types.now base number span) }
{
    let place = deref_all(alloc, types, base)?;
    let ty = place.head().ty;
    let found = part_at(types, kind(types, ty), ty, number);
    field_found(alloc, found, place, span)
}
