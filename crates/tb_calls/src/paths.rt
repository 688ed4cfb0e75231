//! Built-in calls by their paths.

ghost use Rattle.std.specs.Prelude.{◌≡◌, IfOk, OnOk, false, length, slice_get};
ghost use Rattle.tb_rules.specs.Answers.{Gives};
ghost use Rattle.tb_rules.specs.Fits.{or_wrong};
ghost use Rattle.tb_rules.specs.Made.{made};
ghost use Rattle.tb_calls.specs.Rows.{row_of, operand_at, call_fault};
ghost use Rattle.tb_calls.specs.Paths.{held_by, held_if, into_made, path_operand, operand_want, path_want, pointed, pointed_if, pointee, sized, thin, opened, by_first, first_head, path_about, path_called, path_call};

use crate::answers::built;
use crate::rows::{About, Holder, Operand, Row, call_fault, operand_at, row_of};
use sqlite_items::Items;
use std::alloc::AllocError;
use tb_perm::{Code, Span};
use tb_rules::{
    Scalars, TypeError, TypeKind, Want, expected, intern, into_or_free, is_slice, kind,
};
use tb_thir::{Head, Node};
use tb_types::{Builtin, Ty, TyShape, Types};

fn held_by(holder: Holder, kind: TypeKind) -> Option<Ty>
    ensures { result ≡ held_by holder kind }
{
    match holder {
        Holder::Boxed => match kind {
            TypeKind::Boxed(part) => Some(part),
            _ => None,
        },
        Holder::Cell => match kind {
            TypeKind::Cell(part) => Some(part),
            _ => None,
        },
        Holder::UnsafeCell => match kind {
            TypeKind::UnsafeCell(part) => Some(part),
            _ => None,
        },
    }
}

fn held_if(types: &Types, holder: Holder, ty: Option<Ty>) -> Option<Ty>
    ensures { result ≡ held_if types.now holder ty }
{
    match ty {
        Some(ty) => held_by(holder, kind(types, ty)),
        None => None,
    }
}

/// A type that is made, with coercions.
fn into_made(types: &mut Types, shape: TyShape) -> Result<Want, AllocError>
    ensures want { IfOk result (λ found. found ≡ (into_made (made types.old shape)).0) }
    ensures types { OnOk result (types.new ≡ (into_made (made types.old shape)).1) }
{
    let ty = intern(types, shape)?;
    Ok(Want::Into(ty))
}

fn path_operand(
    types: &mut Types,
    scalars: &Scalars,
    operand: Operand,
    want: Want,
) -> Result<Want, AllocError>
    ensures want { IfOk result (λ found. found ≡ (path_operand types.old scalars.now operand want).0) }
    ensures types { OnOk result (types.new ≡ (path_operand types.old scalars.now operand want).1) }
{
    match operand {
        Operand::Held(holder) => Ok(into_or_free(held_if(types, holder, expected(want)))),
        Operand::Any | Operand::About => Ok(Want::Free),
        Operand::Pointer(mutable) => Ok(Want::Pointer(mutable)),
        Operand::Int(kind) => Ok(Want::Into(scalars.integer(kind))),
        Operand::Bytes => into_made(types, TyShape::Raw(true, scalars.u8)),
        Operand::Layout => into_made(types, TyShape::Struct(0)),
    }
}

/// What is expected of the argument at a place of a built-in call, where `want` is expected of the call. The argument of `new` is
/// expected to be what the expected `Box`, `Cell` or `UnsafeCell` holds. A raw pointer is expected to be one to any sized type. Nothing is expected
/// of a `Box`, nor where the call has no such argument.
pub fn path_want(
    types: &mut Types,
    scalars: &Scalars,
    builtin: Builtin,
    want: Want,
    at: usize,
) -> Result<Want, AllocError>
    ensures want { IfOk result (λ found. found ≡ (path_want types.old scalars.now builtin want at).0) }
    ensures types { OnOk result (types.new ≡ (path_want types.old scalars.now builtin want at).1) }
{
    match operand_at(row_of(builtin, false).operands, at) {
        Some(operand) => path_operand(types, scalars, operand, want),
        None => Ok(Want::Free),
    }
}

fn pointed(kind: TypeKind) -> Option<Ty>
    ensures { result ≡ pointed kind }
{
    match kind {
        TypeKind::Raw(_, to) => Some(to),
        _ => None,
    }
}

fn pointed_if(types: &Types, ty: Option<Ty>) -> Option<Ty>
    ensures { result ≡ pointed_if types.now ty }
{
    match ty {
        Some(ty) => pointed(kind(types, ty)),
        None => None,
    }
}

/// The type argument, or else what the expected raw pointer leads to.
pub fn pointee(types: &Types, written: Option<Ty>, want: Want) -> Option<Ty>
    ensures { result ≡ pointee types.now written want }
{
    match written {
        Some(ty) => Some(ty),
        None => pointed_if(types, expected(want)),
    }
}

/// A type that is known and no slice.
pub fn sized(types: &Types, found: Option<Ty>, span: Span) -> Result<Ty, TypeError>
    ensures { Gives result (λ ty. ty) (sized types.now found span) }
{
    match found {
        None => Err(TypeError::Refused(Code::TypeNotKnown, span)),
        Some(ty) => if is_slice(kind(types, ty)) {
            Err(TypeError::Refused(Code::TypeNotAllowedHere, span))
        } else {
            Ok(ty)
        },
    }
}

/// What a raw pointer leads to that is `*mut` where that is asked, and `*const` where not, and does not lead to a slice.
fn thin(types: &Types, mutable: bool, kind: TypeKind) -> Option<Ty>
    ensures { result ≡ thin types.now mutable kind }
{
    match kind {
        TypeKind::Raw(other, to) => if is_slice(self::kind(types, to)) {
            None
        } else if mutable {
            if other { Some(to) } else { None }
        } else {
            if other { None } else { Some(to) }
        },
        _ => None,
    }
}

/// What a call is about by the type of its first argument, where that is of the row's form.
fn opened(types: &Types, about: About, ty: Ty) -> Option<Ty>
    ensures { result ≡ opened types.now about ty }
{
    match about {
        About::Value => Some(ty),
        About::Boxed => held_by(Holder::Boxed, kind(types, ty)),
        About::Pointer(mutable) => thin(types, mutable, kind(types, ty)),
        _ => None,
    }
}

fn or_wrong(span: Span, found: Option<Ty>) -> Result<Ty, TypeError>
    ensures { Gives result (λ ty. ty) (or_wrong span found) }
{
    match found {
        Some(ty) => Ok(ty),
        None => Err(TypeError::Refused(Code::WrongType, span)),
    }
}

fn by_first(types: &Types, about: About, first: Option<Head>, span: Span) -> Result<Ty, TypeError>
    ensures { Gives result (λ ty. ty) (by_first types.now about first span) }
{
    match first {
        Some(first) => or_wrong(first.span, opened(types, about, first.ty)),
        None => Err(TypeError::Refused(Code::WrongNumber, span)),
    }
}

fn first_head(arguments: &[Node]) -> Option<Head>
    ensures { result ≡ first_head arguments.now }
{
    match arguments {
        [] => None,
        [first, ..] => Some(first.head()),
    }
}

fn path_about(
    types: &Types,
    scalars: &Scalars,
    about: About,
    written: Option<Ty>,
    first: Option<Head>,
    want: Want,
    span: Span,
) -> Result<Ty, TypeError>
    ensures { Gives result (λ ty. ty) (path_about types.now scalars.now about written first want span) }
{
    match about {
        About::Nothing => Ok(scalars.unit),
        About::Byte => Ok(scalars.u8),
        About::Argument => sized(types, written, span),
        About::Pointee => sized(types, pointee(types, written, want), span),
        About::Receiver => Err(TypeError::Refused(Code::NoSuchFieldOrCall, span)),
        _ => by_first(types, about, first, span),
    }
}

/// What a call is about, or what forbids it.
fn path_called(
    types: &Types,
    scalars: &Scalars,
    is_unsafe: bool,
    row: Row,
    written: &[Ty],
    arguments: &[Node],
    want: Want,
    span: Span,
) -> Result<Ty, TypeError>
    ensures { Gives result (λ ty. ty) (path_called types.now scalars.now is_unsafe row written.now arguments.now want span) }
{
    if let Some(code) = call_fault(row, is_unsafe, written.len(), arguments.len()) {
        return Err(TypeError::Refused(code, span));
    }
    let argument = written.get(0).copied();
    let first = first_head(arguments);
    path_about(types, scalars, row.about, argument, first, want, span)
}

/// A built-in call by its path, with these type arguments. It is refused with `WrongNumber` for another number of arguments or type
/// arguments, with `NeedsUnsafe`, with `WrongType` at a first argument that is not what the row takes, with `TypeNotKnown` where no type
/// follows for `null` and `null_mut`, and with `TypeNotAllowedHere` for a slice as a type argument, in this order.
pub fn path_call(
    types: &mut Types,
    scalars: &Scalars,
    is_unsafe: bool,
    builtin: Builtin,
    written: &[Ty],
    arguments: Items<Node>,
    want: Want,
    span: Span,
) -> Result<Node, TypeError>
    ensures call { Gives result (λ node. (node, types.new)) (path_call types.old scalars.now is_unsafe builtin written.now arguments want span) }
{
    let row = row_of(builtin, false);
    let list = arguments.as_slice();
    let about = path_called(types, scalars, is_unsafe, row, written, list, want, span)?;
    built(types, scalars, row.answer, builtin, about, arguments, span)
}
