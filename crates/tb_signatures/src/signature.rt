//! The head of a function.

ghost use Rattle.std.specs.Prelude.{◌≡◌, [], ◌∷◌, map, IfOk, OnOk};
ghost use Rattle.std.specs.List.{AllByRecursion};
ghost use Rattle.tb_names.specs.Names.{names_of, told};
ghost use Rattle.tb_written.specs.Kept.{IsTypeIf, IsFound, IsMore, AreDeclared};
ghost use Rattle.tb_signatures.specs.Signatures.{parameter_tree, output_tree, signature_of, IsSigned};

use sqlite_items::Items;
use std::alloc::{AllocError, Global};
use tb_ast::{Function, Parameter, ResultType};
use tb_lookup::FileNames;
use tb_names::{Word, type_parameters};
use tb_types::{Ty, TyShape, Types};
use tb_written::{Scope, intern, written_type};

/// What the head of a function says.
#[derive(Debug, Drop)]
pub struct Signature {
    pub name: Word,
    /// The types of the parameters; none where one depends on a type parameter.
    pub parameters: Items<Option<Ty>>,
    /// The type of the result, `()` where none is written; none where it depends on a type parameter.
    pub output: Option<Ty>,
    /// Whether it is an `unsafe fn`.
    pub needs_unsafe: bool,
    /// How many type parameters it has.
    pub generic_count: usize,
}

/// Puts the type of a parameter behind others.
fn add_parameter(
    scope: &Scope<'_>,
    types: &mut Types,
    list: &mut Vec<Option<Ty>>,
    parameter: &Parameter,
) -> Result<(), AllocError>
    requires declared { AreDeclared types.old scope.now.file.now }
    requires list { AllByRecursion (IsTypeIf types.old) list.old.items }
    ensures { OnOk result (IsMore types.old types.new list.old.items list.new.items (parameter_tree scope.now.file.now (names_of (told scope.now.parameters.now)) parameter.now ∷ [])) }
{
    let ty = written_type(scope, types, &parameter.ty)?;
    list.push(ty)?;
    Ok(())
}

fn parameter_types(
    scope: &Scope<'_>,
    types: &mut Types,
    parameters: &[Parameter],
) -> Result<Vec<Option<Ty>>, AllocError>
    requires declared { AreDeclared types.old scope.now.file.now }
    ensures { IfOk result (λ list. IsMore types.old types.new [] list.items (map (parameter_tree scope.now.file.now (names_of (told scope.now.parameters.now))) parameters.now)) }
{
    let mut list = Vec::new(scope.alloc);
    for parameter in parameters {
        add_parameter(scope, types, &mut list, parameter)?;
    }
    Ok(list)
}

fn output_type(
    scope: &Scope<'_>,
    types: &mut Types,
    output: &Option<ResultType>,
) -> Result<Option<Ty>, AllocError>
    requires declared { AreDeclared types.old scope.now.file.now }
    ensures { IfOk result (λ found. IsFound types.old types.new found (output_tree scope.now.file.now (names_of (told scope.now.parameters.now)) output.now)) }
{
    match output {
        Some(output) => written_type(scope, types, &output.ty),
        None => Ok(Some(intern(types, TyShape::Unit)?)),
    }
}

/// The head of a function, with types that are put to the others.
pub fn signature_of(
    alloc: Global,
    file: &FileNames,
    types: &mut Types,
    function: &Function,
) -> Result<Signature, AllocError>
    requires declared { AreDeclared types.old file.now }
    ensures { IfOk result (λ signature. IsSigned types.old types.new signature (signature_of file.now function.now)) }
{
    let generics = type_parameters(alloc, &function.generics)?;
    let name = Word::new(alloc, function.name.name.bytes.as_slice())?;
    let scope = Scope {
        alloc,
        file,
        parameters: &generics,
    };
    let parameters = parameter_types(&scope, types, function.parameters.as_slice())?;
    let output = output_type(&scope, types, &function.result)?;
    Ok(Signature {
        name,
        parameters: Items::from_vec(parameters),
        output,
        needs_unsafe: function.unsafe_keyword.is_some(),
        generic_count: generics.len(),
    })
}
