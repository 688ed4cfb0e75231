//! Where nodes stand.

ghost use Rattle.std.specs.Prelude.{◌≡◌};
ghost use Rattle.tb_ast.specs.Spans.{literal_span, type_span, expr_span, stmt_span};

use crate::expression::{Expr, Stmt};
use crate::leaf::Literal;
use crate::written::TypeExpr;
use tb_perm::Span;

impl Literal {
    /// Where the literal stands.
    pub fn span(self) -> Span
        ensures { result ≡ literal_span self }
    {
        match self {
            Literal::Int(int) => int.span,
            Literal::Char(character) => character.span,
            Literal::Byte(byte) => byte.span,
            Literal::Bool(boolean) => boolean.span,
        }
    }
}

impl TypeExpr {
    /// Where the type stands.
    pub fn span(&self) -> Span
        ensures { result ≡ type_span self.now }
    {
        match self {
            TypeExpr::Unit { span, .. }
            | TypeExpr::Tuple { span, .. }
            | TypeExpr::Slice { span, .. }
            | TypeExpr::Array { span, .. }
            | TypeExpr::Reference { span, .. }
            | TypeExpr::Pointer { span, .. }
            | TypeExpr::Path { span, .. } => *span,
        }
    }
}

impl Expr {
    /// Where the expression stands.
    pub fn span(&self) -> Span
        ensures { result ≡ expr_span self.now }
    {
        match self {
            Expr::Literal(literal) => literal.span(),
            Expr::Path(path) => path.span,
            Expr::Block(block) => block.span,
            Expr::StructLiteral { span, .. }
            | Expr::Unit { span, .. }
            | Expr::Paren { span, .. }
            | Expr::Tuple { span, .. }
            | Expr::Array { span, .. }
            | Expr::Repeat { span, .. }
            | Expr::Unsafe { span, .. }
            | Expr::While { span, .. }
            | Expr::Loop { span, .. }
            | Expr::If { span, .. }
            | Expr::Return { span, .. }
            | Expr::Break { span }
            | Expr::Continue { span }
            | Expr::Print { span, .. }
            | Expr::Panic { span, .. }
            | Expr::Assert { span, .. }
            | Expr::Field { span, .. }
            | Expr::TupleField { span, .. }
            | Expr::MethodCall { span, .. }
            | Expr::Call { span, .. }
            | Expr::Index { span, .. }
            | Expr::Unary { span, .. }
            | Expr::Borrow { span, .. }
            | Expr::Cast { span, .. }
            | Expr::Binary { span, .. }
            | Expr::Assign { span, .. }
            | Expr::AssignOp { span, .. } => *span,
        }
    }
}

impl Stmt {
    /// Where the statement stands.
    pub fn span(&self) -> Span
        ensures { result ≡ stmt_span self.now }
    {
        match self {
            Stmt::Empty { span } | Stmt::Let { span, .. } | Stmt::Expr { span, .. } => *span,
            Stmt::Blocky { expression } => expression.span(),
        }
    }
}
