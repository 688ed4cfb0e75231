use tb_ast::{Ident, Mention, Path};

/// What stands in an item at one place of its text.
#[derive(Clone, Copy)]
pub enum Step<'a> {
    /// A block begins, or the parameters of a function with its body: what is declared from here on is known
    /// to its end.
    Open,
    /// What began last ends.
    Close,
    /// A variable: a parameter, before the body, or the one of a `let`, after its value.
    Declare(&'a Ident),
    /// A tuple or its type has so many parts.
    Parts(usize),
    /// A path in a written type.
    Named(&'a Path),
    /// A path or a written type.
    Mention(Mention<'a>),
}
