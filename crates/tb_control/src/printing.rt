//! Prints and assertions.

ghost use Rattle.std.specs.Prelude.{◌≡◌, IfOk};
ghost use Rattle.tb_rules.specs.Answers.{Gives};
ghost use Rattle.tb_control.specs.Prints.{brace_of, after_none, after_open, after_close, after, is_whole, has_places, is_shown, are_shown, is_print, print_of, assert_of};

use sqlite_items::{Boxed, Items};
use std::alloc::{AllocError, Global};
use tb_lex::TextCharacter;
use tb_perm::{Code, Span};
use tb_rules::{Scalars, TypeError, TypeKind, kind};
use tb_thir::{Head, Node};
use tb_types::Types;

/// A character of a format text.
#[derive(Clone, Copy, Debug, PartialEq, Eq)]
enum Brace {
    Open,
    Close,
    /// Any other character, and each that an escape stands for.
    Other,
}

/// What stands open in a format text.
#[derive(Clone, Copy, Debug, PartialEq, Eq)]
enum Pending {
    Nothing,
    /// A `{` that waits for `}` or a second `{`.
    Opened,
    /// A `}` that waits for a second `}`.
    Closed,
}

fn brace_of(character: TextCharacter) -> Brace
    ensures { result ≡ brace_of character }
{
    if character.escaped {
        Brace::Other
    } else if character.value == '{' {
        Brace::Open
    } else if character.value == '}' {
        Brace::Close
    } else {
        Brace::Other
    }
}

fn after_none(brace: Brace) -> Option<(Pending, bool)>
    ensures { result ≡ after_none brace }
{
    match brace {
        Brace::Open => Some((Pending::Opened, false)),
        Brace::Close => Some((Pending::Closed, false)),
        Brace::Other => Some((Pending::Nothing, false)),
    }
}

fn after_open(brace: Brace) -> Option<(Pending, bool)>
    ensures { result ≡ after_open brace }
{
    match brace {
        Brace::Open => Some((Pending::Nothing, false)),
        Brace::Close => Some((Pending::Nothing, true)),
        Brace::Other => None,
    }
}

fn after_close(brace: Brace) -> Option<(Pending, bool)>
    ensures { result ≡ after_close brace }
{
    match brace {
        Brace::Close => Some((Pending::Nothing, false)),
        _ => None,
    }
}

/// What stands open after one more character, and whether that ends a place for an argument.
fn after(pending: Pending, brace: Brace) -> Option<(Pending, bool)>
    ensures { result ≡ after pending brace }
{
    match pending {
        Pending::Nothing => after_none(brace),
        Pending::Opened => after_open(brace),
        Pending::Closed => after_close(brace),
    }
}

fn is_whole(pending: Pending, left: usize) -> bool
    ensures { result ≡ is_whole pending left }
{
    match pending {
        Pending::Nothing => left == 0,
        _ => false,
    }
}

/// Whether a format text has so many places for arguments, and no other braces than doubled ones.
fn has_places(characters: &[TextCharacter], count: usize) -> bool
    ensures { result ≡ has_places characters.now count }
{
    let mut pending = Pending::Nothing;
    let mut left = count;
    for character in characters {
        match after(pending, brace_of(*character)) {
            None => return false,
            Some((next, false)) => pending = next,
            Some((next, true)) => {
                if left == 0 {
                    return false;
                }
                pending = next;
                left = left - 1;
            }
        }
    }
    is_whole(pending, left)
}

fn is_shown(kind: TypeKind) -> bool
    ensures { result ≡ is_shown kind }
{
    match kind {
        TypeKind::Int(_) | TypeKind::Bool | TypeKind::Char => true,
        _ => false,
    }
}

fn are_shown(types: &Types, arguments: &[Node]) -> bool
    ensures { result ≡ are_shown types.now arguments.now }
{
    for argument in arguments {
        if !is_shown(kind(types, argument.head().ty)) {
            return false;
        }
    }
    true
}

fn is_print(types: &Types, characters: &[TextCharacter], arguments: &[Node]) -> bool
    ensures { result ≡ is_print types.now characters.now arguments.now }
{
    has_places(characters, arguments.len()) && are_shown(types, arguments)
}

/// `print!`, or `println!` where `newline` is true. Its text is given as it is written, and as the characters that it stands for. It
/// is refused with `BadFormatText` where its `{}` are not as many as its arguments, where another brace stands alone, and for
/// arguments that are no integers, `bool` or `char`.
pub fn print_of(
    types: &Types,
    scalars: &Scalars,
    newline: bool,
    text: Items<u8>,
    characters: &[TextCharacter],
    arguments: Items<Node>,
    span: Span,
) -> Result<Node, TypeError>
    ensures prints { Gives result (λ node. node) (print_of types.now scalars.now newline text characters.now arguments span) }
{
    if is_print(types, characters, arguments.as_slice()) {
        Ok(Node::Print {
            head: Head {
                ty: scalars.unit,
                span,
            },
            newline,
            text,
            arguments,
        })
    } else {
        Err(TypeError::Refused(Code::BadFormatText, span))
    }
}

/// `assert!`, whose condition was expected to be a `bool`.
pub fn assert_of(
    alloc: Global,
    scalars: &Scalars,
    condition: Node,
    span: Span,
) -> Result<Node, AllocError>
    ensures asserts { IfOk result (λ node. node ≡ assert_of scalars.now condition span) }
{
    let head = Head {
        ty: scalars.unit,
        span,
    };
    let condition = Boxed::new(alloc, condition)?;
    Ok(Node::Assert { head, condition })
}
