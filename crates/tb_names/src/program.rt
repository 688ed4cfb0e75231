//! The function that a program begins with.

ghost use Rattle.std.specs.Prelude.{◌≡◌, codes};
ghost use Rattle.std.specs.Str.{bytes_eq};
ghost use Rattle.tb_names.specs.Names.{name_of};
ghost use Rattle.tb_names.specs.Main.{is_plain, main_fault};

use crate::limits::type_parameter_count;
use tb_ast::{Function, ItemKind, Tree};
use tb_perm::Span;

/// Whether the function has neither parameters, type parameters nor a result.
fn is_plain(function: &Function) -> bool
    ensures { result ≡ is_plain function.now }
{
    function.parameters.is_empty()
        && type_parameter_count(&function.generics) == 0
        && function.result.is_none()
}

fn is_main(function: &Function) -> bool
    ensures { result ≡ bytes_eq (name_of function.now.name) (codes "main") }
{
    function.name.name.bytes.as_slice() == b"main".as_slice()
}

/// Where `main` is named, if it has parameters, type parameters or a result; nothing at the end of the text,
/// where there is no such function.
pub fn main_fault(tree: &Tree) -> Option<Span>
    ensures fault { result ≡ main_fault tree.now }
{
    for item in tree.items.as_slice() {
        if let ItemKind::Function(function) = &item.kind {
            if is_main(function) {
                return if is_plain(function) {
                    None
                } else {
                    Some(function.name.span)
                };
            }
        }
    }
    Some(Span {
        lo: tree.end,
        hi: tree.end,
    })
}
