//! What a mention means.

ghost use Rattle.std.specs.Prelude.{◌≡◌, IfOk, Some};
ghost use Rattle.std.specs.Option.{option_map};
ghost use Rattle.tb_names.specs.Names.{name_of, names_of, told};
ghost use Rattle.tb_ast.specs.Mentions.{told_mention};
ghost use Rattle.tb_lookup.specs.Paths.{words_of};
ghost use Rattle.tb_written.specs.Kept.{AreDeclared};
ghost use Rattle.tb_mentions.specs.Variables.{last_named, told_variables};
ghost use Rattle.tb_mentions.specs.Meanings.{variable_of, meaning_of, mention_place, IsMeaning};

use crate::variables::Variables;
use std::alloc::AllocError;
use tb_ast::{Mention, Path};
use tb_lookup::{Callee, called, literal_struct};
use tb_perm::Span;
use tb_types::{Ty, Types};
use tb_written::{Scope, written_type};

/// What a path or a written type of an item means.
#[derive(Clone, Copy, Debug, PartialEq, Eq)]
pub enum Meaning {
    /// The variable of this number of the function: parameters first, then the variables of `let` in the order of the text.
    Variable(u32),
    /// What is called.
    Called(Callee),
    /// The struct of a struct literal, by its number from 1.
    Struct(u32),
    /// The type that is written; none where it depends on a type parameter of the function.
    Written(Option<Ty>),
}

/// The variable that a path means: of one word alone.
fn variable_of(variables: &Variables<'_>, path: &Path) -> Option<u32>
    ensures { result ≡ variable_of (told_variables variables.now) (words_of path.now.segments) }
{
    match path.segments.as_slice() {
        [word] => variables.get(word.name.bytes.as_slice()),
        _ => None,
    }
}

/// What a mention means, or none where nothing has its name.
pub fn mean(
    scope: &Scope<'_>,
    types: &mut Types,
    variables: &Variables<'_>,
    mention: Mention<'_>,
) -> Result<Option<Meaning>, AllocError>
    requires declared { AreDeclared types.old scope.now.file.now }
    ensures { IfOk result (λ found. IsMeaning types.old types.new found (meaning_of scope.now.file.now (names_of (told scope.now.parameters.now)) (told_variables variables.now) (told_mention mention.entry))) }
{
    match mention {
        Mention::Value(path) => Ok(variable_of(variables, &path.path).map(Meaning::Variable)),
        Mention::Callee(path) => {
            let call = called(scope.alloc, scope.file, scope.parameters, &path.path)?;
            Ok(call.map(Meaning::Called))
        }
        Mention::Struct(path) => {
            Ok(literal_struct(scope.file, scope.parameters, path).map(Meaning::Struct))
        }
        Mention::Short(ident) => {
            Ok(
                variables
                    .get(ident.name.bytes.as_slice())
                    .map(Meaning::Variable),
            )
        }
        Mention::Written(ty) => {
            let found = written_type(scope, types, ty)?;
            Ok(Some(Meaning::Written(found)))
        }
    }
}

/// Where the name of a mention stands.
pub fn mention_place(mention: Mention<'_>) -> Span
    ensures { result ≡ mention_place (told_mention mention.entry) }
{
    match mention {
        Mention::Value(path) | Mention::Callee(path) => path.path.span,
        Mention::Struct(path) => path.span,
        Mention::Short(ident) => ident.span,
        Mention::Written(ty) => ty.span(),
    }
}
