//! The types that are written.

ghost use Rattle.std.specs.Prelude.{◌≡◌, ◌∷◌, [], map, Some, IfOk, OnOk, IfSome};
ghost use Rattle.std.specs.Option.{option_map};
ghost use Rattle.std.specs.List.{AllByRecursion};
ghost use Rattle.tb_names.specs.Names.{names_of, told};
ghost use Rattle.tb_types.specs.Table.{IsType, IsDeclared, named_in, item_named};
ghost use Rattle.tb_types.specs.Trees.{TupleTree, trees_by, tree_in, tree_of};
ghost use Rattle.tb_lookup.specs.Paths.{words_of};
ghost use Rattle.tb_lookup.specs.Lookups.{type_name};
ghost use Rattle.tb_written.specs.Written.{wrapped, tuple, plain, around, named, is_mut, joined, if_there, written, argument_trees, arguments_trees};
ghost use Rattle.tb_written.specs.Kept.{IsTypeIf, tree_if, trees_if, all_types, IsDeclaredIf, IsFound, IsMore, AreDeclared};

use crate::interned::intern;
use crate::scope::Scope;
use crate::wrap::Wrap;
use std::alloc::{AllocError, Global};
use tb_ast::{Path, PointerKind, TypeArgument, TypeArguments, TypeExpr};
use tb_lookup::{TypeName, type_name};
use tb_types::{Parts, Ty, TyShape, Types};

/// The type around another.
fn wrapped(types: &mut Types, wrap: Wrap, part: Option<Ty>) -> Result<Option<Ty>, AllocError>
    requires { IsTypeIf types.old part }
    ensures { IfOk result (λ found. IsFound types.old types.new found (wrapped wrap (tree_if types.old part))) }
{
    match part {
        Some(part) => Ok(Some(intern(types, wrap.shape(part))?)),
        None => Ok(None),
    }
}

/// The types, unless one is none.
fn all(alloc: Global, parts: &[Option<Ty>]) -> Result<Option<Vec<Ty>>, AllocError>
    ensures { IfOk result (λ found. option_map (λ list. list.items) found ≡ all_types parts.now) }
{
    let mut list = Vec::new(alloc);
    for part in parts {
        match part {
            Some(part) => list.push(*part)?,
            None => return Ok(None),
        }
    }
    Ok(Some(list))
}

fn tuple_of(types: &mut Types, list: Vec<Ty>) -> Result<Ty, AllocError>
    requires { AllByRecursion (IsType types.old) list.items }
    ensures { IfOk result (λ ty. IsFound types.old types.new (Some ty) (Some (TupleTree (trees_by (tree_of types.old) list.items)))) }
{
    intern(types, TyShape::Tuple(Parts::from_vec(list)))
}

fn tuple(alloc: Global, types: &mut Types, parts: &[Option<Ty>]) -> Result<Option<Ty>, AllocError>
    requires { AllByRecursion (IsTypeIf types.old) parts.now }
    ensures { IfOk result (λ found. IsFound types.old types.new found (tuple (trees_if types.old parts.now))) }
{
    match all(alloc, parts)? {
        Some(list) => Ok(Some(tuple_of(types, list)?)),
        None => Ok(None),
    }
}

/// A type without arguments; with some it counts as `()`.
fn plain(
    types: &mut Types,
    shape: TyShape,
    arguments: &[Option<Ty>],
) -> Result<Option<Ty>, AllocError>
    requires none { named_in shape ≡ [] }
    requires declared { IfSome (item_named shape) (IsDeclared types.old) }
    ensures { IfOk result (λ found. IsFound types.old types.new found (plain (tree_in shape (tree_of types.new)) (trees_if types.old arguments.now))) }
{
    if arguments.is_empty() {
        Ok(Some(intern(types, shape)?))
    } else {
        Ok(Some(intern(types, TyShape::Unit)?))
    }
}

/// A type with one argument; with another number of them it counts as `()`.
fn around(types: &mut Types, wrap: Wrap, arguments: &[Option<Ty>]) -> Result<Option<Ty>, AllocError>
    requires { AllByRecursion (IsTypeIf types.old) arguments.now }
    ensures { IfOk result (λ found. IsFound types.old types.new found (around wrap (trees_if types.old arguments.now))) }
{
    match arguments {
        [part] => wrapped(types, wrap, *part),
        _ => Ok(Some(intern(types, TyShape::Unit)?)),
    }
}

/// A name with arguments.
fn named(
    types: &mut Types,
    name: Option<TypeName>,
    arguments: &[Option<Ty>],
) -> Result<Option<Ty>, AllocError>
    requires arguments { AllByRecursion (IsTypeIf types.old) arguments.now }
    requires declared { IsDeclaredIf types.old name }
    ensures { IfOk result (λ found. IsFound types.old types.new found (named name (trees_if types.old arguments.now))) }
{
    match name {
        None => Ok(Some(intern(types, TyShape::Unit)?)),
        Some(TypeName::Int(kind)) => plain(types, TyShape::Int(kind), arguments),
        Some(TypeName::Bool) => plain(types, TyShape::Bool, arguments),
        Some(TypeName::Char) => plain(types, TyShape::Char, arguments),
        Some(TypeName::Boxed) => around(types, Wrap::Boxed, arguments),
        Some(TypeName::Cell) => around(types, Wrap::Cell, arguments),
        Some(TypeName::UnsafeCell) => around(types, Wrap::UnsafeCell, arguments),
        Some(TypeName::Struct(number)) => plain(types, TyShape::Struct(number), arguments),
        Some(TypeName::Parameter(_)) => Ok(None),
    }
}

/// What the path of a type names, with arguments.
fn path_type(
    scope: &Scope<'_>,
    types: &mut Types,
    path: &Path,
    arguments: &[Option<Ty>],
) -> Result<Option<Ty>, AllocError>
    requires arguments { AllByRecursion (IsTypeIf types.old) arguments.now }
    requires declared { AreDeclared types.old scope.now.file.now }
    ensures { IfOk result (λ found. IsFound types.old types.new found (named (type_name scope.now.file.now (names_of (told scope.now.parameters.now)) (words_of path.now.segments)) (trees_if types.old arguments.now))) }
{
    let name = type_name(scope.alloc, scope.file, scope.parameters, path)?;
    named(types, name, arguments)
}

fn is_mut(kind: PointerKind) -> bool
    ensures { result ≡ is_mut kind }
{
    match kind {
        PointerKind::Const { .. } => false,
        PointerKind::Mut { .. } => true,
    }
}

/// The type that is written, or none where it depends on a type parameter of the function. A name that is
/// unknown, and one with a wrong number of types, counts as `()`.
#[cycle(types)]
pub fn written_type(
    scope: &Scope<'_>,
    types: &mut Types,
    ty: &TypeExpr,
) -> Result<Option<Ty>, AllocError>
    requires declared { AreDeclared types.old scope.now.file.now }
    ensures written { IfOk result (λ found. IsFound types.old types.new found (written scope.now.file.now (names_of (told scope.now.parameters.now)) ty.now)) }
{
    match ty {
        TypeExpr::Unit { .. } => Ok(Some(intern(types, TyShape::Unit)?)),
        TypeExpr::Tuple { parts, .. } => tuple_type(scope, types, parts.as_slice()),
        TypeExpr::Slice { element, .. } => {
            wrapped_type(scope, types, Wrap::Slice, element.get())
        }
        TypeExpr::Array {
            element,
            length,
            ..
        } => wrapped_type(
            scope,
            types,
            Wrap::Array(length.integer.value),
            element.get(),
        ),
        TypeExpr::Reference {
            mut_keyword,
            target,
            ..
        } => wrapped_type(scope, types, Wrap::Ref(mut_keyword.is_some()), target.get()),
        TypeExpr::Pointer { kind, target, .. } => {
            wrapped_type(scope, types, Wrap::Raw(is_mut(*kind)), target.get())
        }
        TypeExpr::Path {
            path,
            arguments,
            ..
        } => named_type(scope, types, path, arguments),
    }
}

/// The type around the one that is written.
#[cycle(types)]
fn wrapped_type(
    scope: &Scope<'_>,
    types: &mut Types,
    wrap: Wrap,
    ty: &TypeExpr,
) -> Result<Option<Ty>, AllocError>
    requires declared { AreDeclared types.old scope.now.file.now }
    ensures { IfOk result (λ found. IsFound types.old types.new found (wrapped wrap (written scope.now.file.now (names_of (told scope.now.parameters.now)) ty.now))) }
{
    let part = written_type(scope, types, ty)?;
    wrapped(types, wrap, part)
}

/// The tuple of the types that are written.
#[cycle(types)]
fn tuple_type(
    scope: &Scope<'_>,
    types: &mut Types,
    parts: &[TypeExpr],
) -> Result<Option<Ty>, AllocError>
    requires declared { AreDeclared types.old scope.now.file.now }
    ensures { IfOk result (λ found. IsFound types.old types.new found (tuple (map (written scope.now.file.now (names_of (told scope.now.parameters.now))) parts.now))) }
{
    let parts = parts_of(scope, types, parts)?;
    tuple(scope.alloc, types, &parts)
}

/// What the path of a type names, with the arguments that are written.
#[cycle(types)]
fn named_type(
    scope: &Scope<'_>,
    types: &mut Types,
    path: &Path,
    arguments: &Option<TypeArguments>,
) -> Result<Option<Ty>, AllocError>
    requires declared { AreDeclared types.old scope.now.file.now }
    ensures { IfOk result (λ found. IsFound types.old types.new found (named (type_name scope.now.file.now (names_of (told scope.now.parameters.now)) (words_of path.now.segments)) (if_there (option_map (arguments_trees scope.now.file.now (names_of (told scope.now.parameters.now))) arguments.now)))) }
{
    let arguments = arguments_of(scope, types, arguments)?;
    path_type(scope, types, path, &arguments)
}

/// Puts the type that is written behind others.
#[cycle(types)]
fn add(
    scope: &Scope<'_>,
    types: &mut Types,
    list: &mut Vec<Option<Ty>>,
    ty: &TypeExpr,
) -> Result<(), AllocError>
    requires declared { AreDeclared types.old scope.now.file.now }
    requires list { AllByRecursion (IsTypeIf types.old) list.old.items }
    ensures { OnOk result (IsMore types.old types.new list.old.items list.new.items (written scope.now.file.now (names_of (told scope.now.parameters.now)) ty.now ∷ [])) }
{
    let part = written_type(scope, types, ty)?;
    list.push(part)?;
    Ok(())
}

#[cycle(types)]
fn parts_of(
    scope: &Scope<'_>,
    types: &mut Types,
    parts: &[TypeExpr],
) -> Result<Vec<Option<Ty>>, AllocError>
    requires declared { AreDeclared types.old scope.now.file.now }
    ensures { IfOk result (λ list. IsMore types.old types.new [] list.items (map (written scope.now.file.now (names_of (told scope.now.parameters.now))) parts.now)) }
{
    let mut list = Vec::new(scope.alloc);
    for part in parts {
        add(scope, types, &mut list, part)?;
    }
    Ok(list)
}

#[cycle(types)]
fn arguments_of(
    scope: &Scope<'_>,
    types: &mut Types,
    arguments: &Option<TypeArguments>,
) -> Result<Vec<Option<Ty>>, AllocError>
    requires declared { AreDeclared types.old scope.now.file.now }
    ensures { IfOk result (λ list. IsMore types.old types.new [] list.items (if_there (option_map (arguments_trees scope.now.file.now (names_of (told scope.now.parameters.now))) arguments.now))) }
{
    match arguments {
        Some(arguments) => listed(scope, types, arguments.arguments.as_slice()),
        None => Ok(Vec::new(scope.alloc)),
    }
}

#[cycle(types)]
fn listed(
    scope: &Scope<'_>,
    types: &mut Types,
    arguments: &[TypeArgument],
) -> Result<Vec<Option<Ty>>, AllocError>
    requires declared { AreDeclared types.old scope.now.file.now }
    ensures { IfOk result (λ list. IsMore types.old types.new [] list.items (joined (map (argument_trees scope.now.file.now (names_of (told scope.now.parameters.now))) arguments.now))) }
{
    let mut list = Vec::new(scope.alloc);
    for argument in arguments {
        add_argument(scope, types, &mut list, argument)?;
    }
    Ok(list)
}

#[cycle(types)]
fn add_argument(
    scope: &Scope<'_>,
    types: &mut Types,
    list: &mut Vec<Option<Ty>>,
    argument: &TypeArgument,
) -> Result<(), AllocError>
    requires declared { AreDeclared types.old scope.now.file.now }
    requires list { AllByRecursion (IsTypeIf types.old) list.old.items }
    ensures { OnOk result (IsMore types.old types.new list.old.items list.new.items (argument_trees scope.now.file.now (names_of (told scope.now.parameters.now)) argument.now)) }
{
    match argument {
        TypeArgument::Lifetime(_) => Ok(()),
        TypeArgument::TypeExpr(ty) => add(scope, types, list, ty),
    }
}
