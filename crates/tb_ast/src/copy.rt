//! Copies of types.

ghost use Rattle.std.specs.Prelude.{◌≡◌, IfOk};

use crate::leaf::{Ident, Lifetime, Path};
use crate::written::{TypeArgument, TypeArguments, TypeExpr};
use sqlite_items::{Boxed, Items};
use std::alloc::{AllocError, Global};
use tb_lex::Name;

fn name_copy(alloc: Global, name: &Name) -> Result<Name, AllocError>
    ensures { IfOk result (λ copy. copy ≡ name.now) }
{
    let bytes = Items::from_slice(alloc, name.bytes.as_slice())?;
    Ok(Name { bytes })
}

fn ident_copy(alloc: Global, ident: &Ident) -> Result<Ident, AllocError>
    ensures { IfOk result (λ copy. copy ≡ ident.now) }
{
    let name = name_copy(alloc, &ident.name)?;
    Ok(Ident {
        name,
        span: ident.span,
    })
}

fn lifetime_copy(alloc: Global, lifetime: &Lifetime) -> Result<Lifetime, AllocError>
    ensures { IfOk result (λ copy. copy ≡ lifetime.now) }
{
    let name = name_copy(alloc, &lifetime.name)?;
    Ok(Lifetime {
        name,
        span: lifetime.span,
    })
}

fn optional_lifetime_copy(
    alloc: Global,
    lifetime: &Option<Lifetime>,
) -> Result<Option<Lifetime>, AllocError>
    ensures { IfOk result (λ copy. copy ≡ lifetime.now) }
{
    match lifetime {
        Some(lifetime) => {
            let copy = lifetime_copy(alloc, lifetime)?;
            Ok(Some(copy))
        }
        None => Ok(None),
    }
}

fn idents_copy(alloc: Global, idents: &[Ident]) -> Result<Items<Ident>, AllocError>
    ensures { IfOk result (λ copy. copy ≡ idents.now) }
{
    let mut list = Vec::new(alloc);
    for ident in idents {
        let copy = ident_copy(alloc, ident)?;
        list.push(copy)?;
    }
    Ok(Items::from_vec(list))
}

fn path_copy(alloc: Global, path: &Path) -> Result<Path, AllocError>
    ensures { IfOk result (λ copy. copy ≡ path.now) }
{
    let segments = idents_copy(alloc, path.segments.as_slice())?;
    let separators = Items::from_slice(alloc, path.separators.as_slice())?;
    Ok(Path {
        span: path.span,
        segments,
        separators,
    })
}

#[cycle(copies)]
fn type_copy(alloc: Global, ty: &TypeExpr) -> Result<TypeExpr, AllocError>
    ensures { IfOk result (λ copy. copy ≡ ty.now) }
{
    match ty {
        TypeExpr::Unit {
            span,
            opening,
            closing,
        } => Ok(TypeExpr::Unit {
            span: *span,
            opening: *opening,
            closing: *closing,
        }),
        TypeExpr::Tuple {
            span,
            opening,
            parts,
            commas,
            closing,
        } => {
            let parts = types_copy(alloc, parts.as_slice())?;
            let commas = Items::from_slice(alloc, commas.as_slice())?;
            Ok(TypeExpr::Tuple {
                span: *span,
                opening: *opening,
                parts,
                commas,
                closing: *closing,
            })
        }
        TypeExpr::Slice {
            span,
            opening,
            element,
            closing,
        } => {
            let element = boxed_copy(alloc, element)?;
            Ok(TypeExpr::Slice {
                span: *span,
                opening: *opening,
                element,
                closing: *closing,
            })
        }
        TypeExpr::Array {
            span,
            opening,
            element,
            semicolon,
            length,
            closing,
        } => {
            let element = boxed_copy(alloc, element)?;
            Ok(TypeExpr::Array {
                span: *span,
                opening: *opening,
                element,
                semicolon: *semicolon,
                length: *length,
                closing: *closing,
            })
        }
        TypeExpr::Reference {
            span,
            and,
            lifetime,
            mut_keyword,
            target,
        } => {
            let lifetime = optional_lifetime_copy(alloc, lifetime)?;
            let target = boxed_copy(alloc, target)?;
            Ok(TypeExpr::Reference {
                span: *span,
                and: *and,
                lifetime,
                mut_keyword: *mut_keyword,
                target,
            })
        }
        TypeExpr::Pointer {
            span,
            star,
            kind,
            target,
        } => {
            let target = boxed_copy(alloc, target)?;
            Ok(TypeExpr::Pointer {
                span: *span,
                star: *star,
                kind: *kind,
                target,
            })
        }
        TypeExpr::Path {
            span,
            path,
            arguments,
        } => {
            let path = path_copy(alloc, path)?;
            let arguments = optional_arguments_copy(alloc, arguments)?;
            Ok(TypeExpr::Path {
                span: *span,
                path,
                arguments,
            })
        }
    }
}

#[cycle(copies)]
fn boxed_copy(alloc: Global, ty: &Boxed<TypeExpr>) -> Result<Boxed<TypeExpr>, AllocError>
    ensures { IfOk result (λ copy. copy ≡ ty.now) }
{
    let copy = type_copy(alloc, ty.get())?;
    Boxed::new(alloc, copy)
}

#[cycle(copies)]
fn types_copy(alloc: Global, types: &[TypeExpr]) -> Result<Items<TypeExpr>, AllocError>
    ensures { IfOk result (λ copy. copy ≡ types.now) }
{
    let mut list = Vec::new(alloc);
    for ty in types {
        let copy = type_copy(alloc, ty)?;
        list.push(copy)?;
    }
    Ok(Items::from_vec(list))
}

#[cycle(copies)]
fn optional_arguments_copy(
    alloc: Global,
    arguments: &Option<TypeArguments>,
) -> Result<Option<TypeArguments>, AllocError>
    ensures { IfOk result (λ copy. copy ≡ arguments.now) }
{
    match arguments {
        Some(arguments) => {
            let copy = arguments_copy(alloc, arguments)?;
            Ok(Some(copy))
        }
        None => Ok(None),
    }
}

#[cycle(copies)]
fn arguments_copy(alloc: Global, arguments: &TypeArguments) -> Result<TypeArguments, AllocError>
    ensures { IfOk result (λ copy. copy ≡ arguments.now) }
{
    let list = listed_arguments_copy(alloc, arguments.arguments.as_slice())?;
    let commas = Items::from_slice(alloc, arguments.commas.as_slice())?;
    Ok(TypeArguments {
        opening: arguments.opening,
        arguments: list,
        commas,
        closing: arguments.closing,
    })
}

#[cycle(copies)]
fn listed_arguments_copy(
    alloc: Global,
    arguments: &[TypeArgument],
) -> Result<Items<TypeArgument>, AllocError>
    ensures { IfOk result (λ copy. copy ≡ arguments.now) }
{
    let mut list = Vec::new(alloc);
    for argument in arguments {
        let copy = argument_copy(alloc, argument)?;
        list.push(copy)?;
    }
    Ok(Items::from_vec(list))
}

#[cycle(copies)]
fn argument_copy(alloc: Global, argument: &TypeArgument) -> Result<TypeArgument, AllocError>
    ensures { IfOk result (λ copy. copy ≡ argument.now) }
{
    match argument {
        TypeArgument::Lifetime(lifetime) => {
            let copy = lifetime_copy(alloc, lifetime)?;
            Ok(TypeArgument::Lifetime(copy))
        }
        TypeArgument::TypeExpr(ty) => {
            let copy = type_copy(alloc, ty)?;
            Ok(TypeArgument::TypeExpr(copy))
        }
    }
}

impl TypeExpr {
    /// A copy of the type, equal to it, with its places.
    pub fn try_clone(&self, alloc: Global) -> Result<TypeExpr, AllocError>
        ensures copy { IfOk result (λ copy. copy ≡ self.now) }
    {
        type_copy(alloc, self)
    }
}
