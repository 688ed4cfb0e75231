//! What stands before the first expression in an operand.

use tb_ast::{Borrow, ExprPath, Literal, Mark, Path, PrintText, TextLiteral, UnaryOp};
use tb_perm::Span;

/// What stands before the first expression, block or list in an operand, or is the whole of it.
#[derive(Debug, Drop)]
pub enum Front {
    Literal(Literal),
    /// A path with nothing behind it that belongs to it.
    Path(ExprPath),
    /// `path {`
    StructLiteral {
        path: Path,
        opening: Span,
    },
    /// `path(` or `path::<T>(`
    Call {
        callee: ExprPath,
        opening: Span,
    },
    /// `(`
    Paren {
        opening: Span,
    },
    /// `[`
    Bracket {
        opening: Span,
    },
    /// Before `{`.
    Block,
    /// `unsafe`
    Unsafe {
        unsafe_keyword: Span,
    },
    /// `while`
    While {
        while_keyword: Span,
    },
    /// `loop`
    Loop {
        loop_keyword: Span,
    },
    /// `if`
    If {
        if_keyword: Span,
    },
    /// `return`
    Return {
        return_keyword: Span,
    },
    /// `break`
    Break {
        span: Span,
    },
    /// `continue`
    Continue {
        span: Span,
    },
    /// `print!(` or `println!(`, and the text if there is one.
    Print {
        word: Span,
        newline: bool,
        bang: Span,
        opening: Span,
        text: Option<PrintText>,
    },
    /// `panic!()` or `panic!(text)`
    Panic {
        word: Span,
        bang: Span,
        opening: Span,
        text: Option<TextLiteral>,
        closing: Span,
    },
    /// `assert!(`
    Assert {
        word: Span,
        bang: Span,
        opening: Span,
    },
    /// `-`, `!` or `*`
    Unary {
        operator: UnaryOp,
        operator_span: Span,
    },
    /// `&`, `&mut`, `&raw const` or `&raw mut`
    Borrow {
        and: Mark,
        kind: Borrow,
    },
}
