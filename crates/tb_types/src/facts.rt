ghost use Rattle.std.specs.Prelude.{◌≡◌, map};
ghost use Rattle.std.specs.List.{AllByRecursion};
ghost use Rattle.std.specs.Option.{option_copied};
ghost use Rattle.tb_types.specs.Facts.{beside, joined, facts_in, item_facts};
ghost use Rattle.tb_types.specs.Known.{fact_at, IsWithin};
ghost use Rattle.tb_types.specs.Table.{fields_of};
ghost use Rattle.tb_types.specs.Folded.{parts_in, item_in, types_in, types_of};

use crate::item::{Field, Item};
use crate::known::Known;
use crate::shape::{Ty, TyShape};

/// What the tests of a type answer.
#[derive(Clone, Copy, Debug, PartialEq, Eq)]
pub struct Facts {
    /// A value of the type is copied when it is read.
    pub copy: bool,
    /// No `Cell` or `UnsafeCell` lies in the type, other than behind a pointer.
    pub freeze: bool,
    /// The type has a reference or `Box` that a retag looks at.
    pub retag: bool,
    /// The type has a `Box` to free.
    pub owns_box: bool,
    /// Each struct in the type, other than behind a reference or raw pointer, is defined.
    pub complete: bool,
    /// In the type, its fields included, `[T]` stands directly behind a reference or raw pointer alone.
    pub sized: bool,
}

/// The facts where nothing lies in a type.
const NOTHING: Facts = Facts {
    copy: true,
    freeze: true,
    retag: false,
    owns_box: false,
    complete: true,
    sized: true,
};

/// The facts of a type of this shape, whose tree is `plain` or not, from those of what lies in it.
pub fn facts_of_shape(shape: &TyShape, items: &[Item], known: &[Known], plain: bool) -> Facts
    requires { AllByRecursion (IsWithin known.now) (parts_in shape.now (item_in items.now shape.now)) }
    ensures { result ≡ facts_in shape.now (item_in items.now shape.now) plain (beside (map (fact_at known.now) (parts_in shape.now (item_in items.now shape.now)))) }
{
    match shape {
        TyShape::Int(_) | TyShape::Bool | TyShape::Char | TyShape::Unit => NOTHING,
        TyShape::Tuple(parts) => facts_beside(parts.as_slice(), known),
        TyShape::Array(part, _) => Facts {
            retag: false,
            owns_box: false,
            ..facts_beside(&[*part], known)
        },
        TyShape::Struct(item) => facts_of_item(items.get(*item as usize), known),
        TyShape::Ref(mutable, _) => Facts {
            copy: !*mutable,
            retag: true,
            sized: plain,
            ..NOTHING
        },
        TyShape::Raw(_, _) => Facts {
            sized: plain,
            ..NOTHING
        },
        TyShape::Boxed(part) => Facts {
            copy: false,
            freeze: true,
            retag: true,
            owns_box: true,
            ..facts_beside(&[*part], known)
        },
        TyShape::Cell(part) | TyShape::UnsafeCell(part) => Facts {
            copy: false,
            freeze: false,
            retag: false,
            owns_box: false,
            ..facts_beside(&[*part], known)
        },
        TyShape::Slice(part) => Facts {
            copy: false,
            retag: false,
            owns_box: false,
            sized: false,
            ..facts_beside(&[*part], known)
        },
    }
}

/// The facts of a struct that may be declared.
fn facts_of_item(item: Option<&Item>, known: &[Known]) -> Facts
    requires { AllByRecursion (IsWithin known.now) (types_of (fields_of (option_copied item))) }
    ensures { result ≡ item_facts (option_copied item.entry) (beside (map (fact_at known.now) (types_of (fields_of (option_copied item.entry))))) }
{
    let Some(item) = item else {
        return Facts {
            copy: false,
            complete: false,
            ..NOTHING
        };
    };
    match &item.fields {
        Some(fields) => Facts {
            copy: item.copy,
            ..facts_of_fields(fields.as_slice(), known)
        },
        None => Facts {
            copy: item.copy,
            complete: false,
            ..NOTHING
        },
    }
}

/// The facts of parts side by side.
fn facts_beside(parts: &[Ty], known: &[Known]) -> Facts
    requires { AllByRecursion (IsWithin known.now) parts.now }
    ensures { result ≡ beside (map (fact_at known.now) parts.now) }
{
    let mut all = NOTHING;
    for part in parts {
        all = with_part(all, *part, known);
    }
    all
}

/// The facts of the fields of a struct side by side.
fn facts_of_fields(fields: &[Field], known: &[Known]) -> Facts
    requires { AllByRecursion (IsWithin known.now) (types_in fields.now) }
    ensures { result ≡ beside (map (fact_at known.now) (types_in fields.now)) }
{
    let mut all = NOTHING;
    for field in fields {
        all = with_part(all, field.ty, known);
    }
    all
}

/// The facts of one more part.
fn with_part(all: Facts, part: Ty, known: &[Known]) -> Facts
    requires { IsWithin known.now part }
    ensures { result ≡ joined all (fact_at known.now part) }
{
    joined(all, known[part.0 as usize].facts)
}

fn joined(one: Facts, other: Facts) -> Facts
    ensures { result ≡ joined one other }
{
    Facts {
        copy: one.copy && other.copy,
        freeze: one.freeze && other.freeze,
        retag: one.retag || other.retag,
        owns_box: one.owns_box || other.owns_box,
        complete: one.complete && other.complete,
        sized: one.sized && other.sized,
    }
}
