//! An item from its beginning to its end.

ghost use Rattle.std.specs.Prelude.{◌≡◌, ◌++◌, ◌∷◌, [], OnOk, IfOk, ⊤};
ghost use Rattle.std.specs.List.{AllByRecursion};
ghost use Rattle.tb_ast.specs.Mentions.{told_mention};
ghost use Rattle.tb_names.specs.Names.{names_of, told};
ghost use Rattle.tb_outline.specs.Outlines.{StepOf, told_step, told_steps};
ghost use Rattle.tb_written.specs.Kept.{AreDeclared};
ghost use Rattle.tb_mentions.specs.Variables.{told_variables, no_variables};
ghost use Rattle.tb_mentions.specs.Meanings.{IsMeant, meaning_at, unknown_at, meanings, unknowns};
ghost use Rattle.tb_mentions.specs.Walks.{parameters_of, item_meanings, item_unknowns, IsNoted, Gives};

use crate::error::MentionError;
use crate::heads::head_stranger;
use crate::meaning::{Meaning, mean, mention_place};
use crate::variables::Variables;
use std::alloc::{AllocError, Global};
use tb_ast::{Ident, Item, ItemKind, Mention, Path};
use tb_lookup::{FileNames, type_name};
use tb_names::type_parameters;
use tb_outline::{Step, outline};
use tb_types::Types;
use tb_written::Scope;

fn add(list: &mut Vec<Meaning>, meaning: Meaning) -> Result<(), AllocError>
    ensures { OnOk result (list.new.items ≡ list.old.items ++ meaning ∷ []) }
{
    list.push(meaning)?;
    Ok(())
}

/// Notes what a mention means.
fn note(
    scope: &Scope<'_>,
    types: &mut Types,
    variables: &Variables<'_>,
    list: &mut Vec<Meaning>,
    mention: Mention<'_>,
) -> Result<(), MentionError>
    requires declared { AreDeclared types.old scope.now.file.now }
    requires meant { AllByRecursion (IsMeant types.old) list.old.items }
    ensures { Gives result (unknown_at scope.now.file.now (names_of (told scope.now.parameters.now)) (told_variables variables.now) (StepOf.Mentioned (told_mention mention.entry))) (λ _. IsNoted types.old types.new list.old.items list.new.items (meaning_at scope.now.file.now (names_of (told scope.now.parameters.now)) (told_variables variables.now) (StepOf.Mentioned (told_mention mention.entry)))) }
{
    match mean(scope, types, variables, mention)? {
        Some(meaning) => Ok(add(list, meaning)?),
        None => Err(MentionError::Unknown(mention_place(mention))),
    }
}

/// Looks whether the path of a type names something.
fn know(scope: &Scope<'_>, path: &Path) -> Result<(), MentionError>
    ensures { Gives result (unknown_at scope.now.file.now (names_of (told scope.now.parameters.now)) no_variables (StepOf.Named path.now)) (λ _. ⊤) }
{
    match type_name(scope.alloc, scope.file, scope.parameters, path)? {
        Some(_) => Ok(()),
        None => Err(MentionError::Unknown(path.span)),
    }
}

/// Notes what a step means.
fn pass(
    scope: &Scope<'_>,
    types: &mut Types,
    variables: &Variables<'_>,
    list: &mut Vec<Meaning>,
    step: Step<'_>,
) -> Result<(), MentionError>
    requires declared { AreDeclared types.old scope.now.file.now }
    requires meant { AllByRecursion (IsMeant types.old) list.old.items }
    ensures { Gives result (unknown_at scope.now.file.now (names_of (told scope.now.parameters.now)) (told_variables variables.now) (told_step step.entry)) (λ _. IsNoted types.old types.new list.old.items list.new.items (meaning_at scope.now.file.now (names_of (told scope.now.parameters.now)) (told_variables variables.now) (told_step step.entry))) }
{
    match step {
        Step::Named(path) => know(scope, path),
        Step::Mention(mention) => note(scope, types, variables, list, mention),
        _ => Ok(()),
    }
}

/// What the steps of an item mean.
fn steps_meanings(
    scope: &Scope<'_>,
    types: &mut Types,
    steps: &[Step<'_>],
) -> Result<Vec<Meaning>, MentionError>
    requires declared { AreDeclared types.old scope.now.file.now }
    ensures { Gives result (unknowns scope.now.file.now (names_of (told scope.now.parameters.now)) no_variables (told_steps steps.now)) (λ list. IsNoted types.old types.new [] list.items (meanings scope.now.file.now (names_of (told scope.now.parameters.now)) no_variables (told_steps steps.now))) }
{
    let mut list = Vec::new(scope.alloc);
    let mut variables = Variables::none(scope.alloc);
    for step in steps {
        pass(scope, types, &variables, &mut list, *step)?;
        variables.pass(*step)?;
    }
    Ok(list)
}

/// The type parameters of an item.
fn parameters(alloc: Global, kind: &ItemKind) -> Result<Vec<&Ident>, AllocError>
    ensures { IfOk result (λ list. names_of (told list.items) ≡ parameters_of kind.now) }
{
    match kind {
        ItemKind::Function(function) => type_parameters(alloc, &function.generics),
        _ => Ok(Vec::new(alloc)),
    }
}

/// What the paths and written types of an item mean, in the order of the text. `file` has the names of the
/// file, and its structs are declared in `types`, to which the written types come.
///
/// It is refused where nothing has a name in the item: the word of an attribute, the bound of a type
/// parameter, the path of a `use`, a variable, a function, a struct or a type (Rust Reference, "Names" and
/// "Scopes"). The place is that of the first in the text.
pub fn item_meanings(
    alloc: Global,
    file: &FileNames,
    types: &mut Types,
    item: &Item,
) -> Result<Vec<Meaning>, MentionError>
    requires declared { AreDeclared types.old file.now }
    ensures meanings { Gives result (item_unknowns file.now item.now) (λ list. IsNoted types.old types.new [] list.items (item_meanings file.now item.now)) }
{
    if let Some(span) = head_stranger(alloc, item)? {
        return Err(MentionError::Unknown(span));
    }
    let parameters = parameters(alloc, &item.kind)?;
    let steps = outline(alloc, item)?;
    let scope = Scope {
        alloc,
        file,
        parameters: &parameters,
    };
    steps_meanings(&scope, types, &steps)
}
