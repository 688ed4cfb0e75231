//! How an expression goes on behind an operand.

use tb_ast::{AssignOp, BinaryOp, Ident, IntLiteral, Mark, Turbofish, TypeExpr};
use tb_perm::Span;

/// What stands behind an operand before the next expression or list, or is the whole of it.
#[derive(Debug, Drop)]
pub enum Step {
    /// `.name`
    Field {
        dot: Span,
        name: Ident,
    },
    /// `.0`
    TupleField {
        dot: Span,
        index: IntLiteral,
    },
    /// `.name(` or `.name::<T>(`
    MethodCall {
        dot: Span,
        name: Ident,
        turbofish: Option<Turbofish>,
        opening: Span,
    },
    /// `[`
    Index {
        opening: Span,
    },
    /// `as T`
    Cast {
        as_keyword: Span,
        ty: TypeExpr,
    },
    /// An operator between two operands.
    Binary {
        operator: BinaryOp,
        operator_mark: Mark,
    },
    /// `=`
    Assign {
        equals: Mark,
    },
    /// `+=` and the like.
    AssignOp {
        operator: AssignOp,
        operator_span: Span,
    },
}
