//! The walk through a written type and its number at once.

ghost use Rattle.std.specs.Prelude.{◌≡◌, map};
ghost use Rattle.std.specs.Option.{option_map};
ghost use Rattle.tb_standing.specs.Standing.{has_arguments, own_code, own, or_later, if_known, parts_from, first_among, if_there, written_fault, argument_fault, arguments_fault};

use tb_ast::{TypeArgument, TypeArguments, TypeExpr};
use tb_perm::{Code, Span};
use tb_rules::{TypeKind, kind, type_fault};
use tb_types::{Ty, Types};

/// What makes a written type no type, and where.
pub type Fault = (Code, Span);

/// Whether a name has as many type arguments as it needs. One with another number of them counts as `()`, which has no name.
fn has_arguments(kind: TypeKind, is_path: bool) -> bool
    ensures { result ≡ has_arguments kind is_path }
{
    match kind {
        TypeKind::Unit => !is_path,
        _ => true,
    }
}

fn own_code(types: &Types, ty: Ty, is_path: bool) -> Option<Code>
    ensures { result ≡ own_code types.now ty is_path }
{
    if has_arguments(kind(types, ty), is_path) {
        type_fault(types, ty)
    } else {
        Some(Code::WrongNumber)
    }
}

fn own_fault(types: &Types, ty: Ty, is_path: bool, span: Span) -> Option<Fault>
    ensures { result ≡ own types.now is_path span ty }
{
    match own_code(types, ty, is_path) {
        Some(code) => Some((code, span)),
        None => None,
    }
}

fn or_own(types: &Types, ty: Ty, is_path: bool, span: Span, inner: Option<Fault>) -> Option<Fault>
    ensures { result ≡ or_later inner (own types.now is_path span ty) }
{
    match inner {
        Some(fault) => Some(fault),
        None => own_fault(types, ty, is_path, span),
    }
}

/// The first fault in a written type of this number: what lies in it before it, in the order of the text. `WrongNumber` for a name with a wrong
/// number of type arguments, and what `type_fault` says of any other. What stands in the arguments of such a name has no number
/// of its own, and is not looked at.
#[cycle(faults)]
pub fn written_fault(types: &Types, ty: Ty, written: &TypeExpr) -> Option<Fault>
    ensures fault { result ≡ written_fault types.now written.now ty }
{
    match written {
        TypeExpr::Unit { span, .. } => own_fault(types, ty, false, *span),
        TypeExpr::Tuple { span, parts, .. } => {
            let inner = parts_fault(types, ty, parts.as_slice());
            or_own(types, ty, false, *span, inner)
        }
        TypeExpr::Slice {
            span,
            element: part,
            ..
        }
        | TypeExpr::Array {
            span,
            element: part,
            ..
        }
        | TypeExpr::Reference {
            span,
            target: part,
            ..
        }
        | TypeExpr::Pointer {
            span,
            target: part,
            ..
        } => {
            let inner = part_fault(types, types.content(ty), part.get());
            or_own(types, ty, false, *span, inner)
        }
        TypeExpr::Path {
            span,
            arguments,
            ..
        } => {
            let inner = optional_fault(types, types.content(ty), arguments);
            or_own(types, ty, true, *span, inner)
        }
    }
}

#[cycle(faults)]
fn optional_fault(types: &Types, ty: Option<Ty>, arguments: &Option<TypeArguments>) -> Option<Fault>
    ensures { result ≡ if_there (option_map (arguments_fault types.now) arguments.now) ty }
{
    match arguments {
        Some(arguments) => listed_fault(types, ty, arguments.arguments.as_slice()),
        None => None,
    }
}

#[cycle(faults)]
fn part_fault(types: &Types, ty: Option<Ty>, written: &TypeExpr) -> Option<Fault>
    ensures { result ≡ if_known (written_fault types.now written.now) ty }
{
    match ty {
        Some(ty) => written_fault(types, ty, written),
        None => None,
    }
}

#[cycle(faults)]
fn parts_fault(types: &Types, ty: Ty, parts: &[TypeExpr]) -> Option<Fault>
    ensures { result ≡ parts_from types.now ty 0 (map (written_fault types.now) parts.now) }
{
    for (at, part) in parts.iter().enumerate() {
        if let Some(fault) = part_fault(types, types.part(ty, at), part) {
            return Some(fault);
        }
    }
    None
}

#[cycle(faults)]
fn argument_fault(types: &Types, ty: Option<Ty>, argument: &TypeArgument) -> Option<Fault>
    ensures { result ≡ argument_fault types.now argument.now ty }
{
    match argument {
        TypeArgument::Lifetime(_) => None,
        TypeArgument::TypeExpr(written) => part_fault(types, ty, written),
    }
}

#[cycle(faults)]
fn listed_fault(types: &Types, ty: Option<Ty>, arguments: &[TypeArgument]) -> Option<Fault>
    ensures { result ≡ first_among ty (map (argument_fault types.now) arguments.now) }
{
    for argument in arguments {
        if let Some(fault) = argument_fault(types, ty, argument) {
            return Some(fault);
        }
    }
    None
}
