//! Expressions, statements and blocks as pieces.

ghost use Rattle.std.specs.Prelude.{◌≡◌, ◌++◌, ◌∷◌, [], map, codes, OnOk};
ghost use Rattle.std.specs.Option.{option_map};
ghost use Rattle.tb_lex.specs.declared.keyword.Keyword.TheVariants as keyword_of;
ghost use Rattle.tb_lex.specs.declared.punctuation.Punctuation.TheVariants as punct_of;
ghost use Rattle.tb_ast.specs.Pieces.{punct, mark, keyword, ident, number, optional_keyword, optional_mark, text_pieces, separated, in_order, path_pieces};
ghost use Rattle.tb_ast.specs.Types.{optional, type_pieces, turbofish_pieces, note_pieces};
ghost use Rattle.tb_ast.specs.Expressions.{unary_mark, borrow_kind, binary_mark, assign_mark, path_row, print_word, print_text, macro_front, expr_layer, else_pieces, expr_pieces, field_pieces, stmt_pieces, block_pieces, initializer_pieces};
ghost use Rattle.tb_yield.specs.Stages.{word_front, expr_front, expr_middle, operands_inside, choices_inside, expr_inside, expr_back};

use crate::pieces::Pieces;
use sqlite_items::Boxed;
use std::alloc::AllocError;
use tb_ast::{
    AssignOp, BinaryOp, Block, Borrow, Else, Expr, ExprPath, FieldValue, Ident, Initializer,
    IntLiteral, Mark, Path, PrintText, Stmt, TextLiteral, Turbofish, TypeExpr, TypeNote, UnaryOp,
};
use tb_lex::{Keyword, Punctuation};
use tb_perm::Span;

/// How an operator before its operand is written.
fn unary_mark(operator: UnaryOp) -> Punctuation
    ensures { result ≡ unary_mark operator }
{
    match operator {
        UnaryOp::Neg => Punctuation::Minus,
        UnaryOp::Not => Punctuation::Not,
        UnaryOp::Deref => Punctuation::Star,
    }
}

/// How an operator between two operands is written.
fn binary_mark(operator: BinaryOp) -> Punctuation
    ensures { result ≡ binary_mark operator }
{
    match operator {
        BinaryOp::Mul => Punctuation::Star,
        BinaryOp::Div => Punctuation::Slash,
        BinaryOp::Rem => Punctuation::Percent,
        BinaryOp::Add => Punctuation::Plus,
        BinaryOp::Sub => Punctuation::Minus,
        BinaryOp::Shl => Punctuation::Shl,
        BinaryOp::Shr => Punctuation::Shr,
        BinaryOp::BitAnd => Punctuation::And,
        BinaryOp::BitXor => Punctuation::Caret,
        BinaryOp::BitOr => Punctuation::Or,
        BinaryOp::Eq => Punctuation::EqEq,
        BinaryOp::Ne => Punctuation::Ne,
        BinaryOp::Lt => Punctuation::Lt,
        BinaryOp::Gt => Punctuation::Gt,
        BinaryOp::Le => Punctuation::Le,
        BinaryOp::Ge => Punctuation::Ge,
        BinaryOp::And => Punctuation::AndAnd,
        BinaryOp::Or => Punctuation::OrOr,
    }
}

/// How an operator that assigns what it computes is written.
fn assign_mark(operator: AssignOp) -> Punctuation
    ensures { result ≡ assign_mark operator }
{
    match operator {
        AssignOp::Mul => Punctuation::StarEq,
        AssignOp::Div => Punctuation::SlashEq,
        AssignOp::Rem => Punctuation::PercentEq,
        AssignOp::Add => Punctuation::PlusEq,
        AssignOp::Sub => Punctuation::MinusEq,
        AssignOp::Shl => Punctuation::ShlEq,
        AssignOp::Shr => Punctuation::ShrEq,
        AssignOp::BitAnd => Punctuation::AndEq,
        AssignOp::BitXor => Punctuation::CaretEq,
        AssignOp::BitOr => Punctuation::OrEq,
    }
}

// What stands around the expressions and blocks in an expression.
impl Pieces {
    /// Puts down what stands before the first expression or block in an expression.
    fn expr_front(&mut self, e: &Expr) -> Result<(), AllocError>
        ensures { OnOk result (self.new.list.items ≡ self.old.list.items ++ expr_front (expr_layer e.now)) }
    {
        match e {
            Expr::Literal(value) => self.literal(*value),
            Expr::Path(path) => self.expr_path(path),
            Expr::StructLiteral { path, opening, .. } => self.struct_front(path, *opening),
            Expr::Unit {
                opening,
                closing,
                ..
            } => self.unit(*opening, *closing),
            Expr::Paren { opening, .. } => self.mark(Punctuation::OpenParen, *opening),
            Expr::Tuple { opening, .. } => self.mark(Punctuation::OpenParen, *opening),
            Expr::Array { opening, .. } => self.mark(Punctuation::OpenBracket, *opening),
            Expr::Repeat { opening, .. } => self.mark(Punctuation::OpenBracket, *opening),
            Expr::Call {
                callee,
                opening,
                ..
            } => self.call_front(callee, *opening),
            Expr::Unary {
                operator,
                operator_span,
                ..
            } => { self.mark(unary_mark(*operator), *operator_span) }
            Expr::Borrow { and, kind, .. } => self.borrow_front(*and, *kind),
            _ => self.word_front(e),
        }
    }

    /// Puts down what stands before the first expression or block in an expression that begins with a
    /// word.
    fn word_front(&mut self, e: &Expr) -> Result<(), AllocError>
        ensures { OnOk result (self.new.list.items ≡ self.old.list.items ++ word_front (expr_layer e.now)) }
    {
        match e {
            Expr::Unsafe { unsafe_keyword, .. } => self.keyword(Keyword::Unsafe, *unsafe_keyword),
            Expr::While { while_keyword, .. } => self.keyword(Keyword::While, *while_keyword),
            Expr::Loop { loop_keyword, .. } => self.keyword(Keyword::Loop, *loop_keyword),
            Expr::If { if_keyword, .. } => self.keyword(Keyword::If, *if_keyword),
            Expr::Return { return_keyword, .. } => self.keyword(Keyword::Return, *return_keyword),
            Expr::Break { span } => self.keyword(Keyword::Break, *span),
            Expr::Continue { span } => self.keyword(Keyword::Continue, *span),
            Expr::Print {
                word,
                newline,
                bang,
                opening,
                text,
                ..
            } => { self.print_front(*newline, *word, *bang, *opening, text) }
            Expr::Panic {
                word,
                bang,
                opening,
                text,
                closing,
                ..
            } => { self.panic(*word, *bang, *opening, text, *closing) }
            Expr::Assert {
                word,
                bang,
                opening,
                ..
            } => { self.macro_front("assert", *word, *bang, *opening) }
            _ => Ok(()),
        }
    }

    /// Puts down what stands between the first expression in an expression and the others.
    fn expr_middle(&mut self, e: &Expr) -> Result<(), AllocError>
        ensures { OnOk result (self.new.list.items ≡ self.old.list.items ++ expr_middle (expr_layer e.now)) }
    {
        match e {
            Expr::MethodCall {
                dot,
                name,
                turbofish,
                opening,
                ..
            } => { self.method_middle(*dot, name, turbofish, *opening) }
            Expr::Index { opening, .. } => self.mark(Punctuation::OpenBracket, *opening),
            Expr::Binary {
                operator,
                operator_mark,
                ..
            } => { self.glue(binary_mark(*operator), *operator_mark) }
            Expr::Assign { equals, .. } => self.glue(Punctuation::Eq, *equals),
            Expr::AssignOp {
                operator,
                operator_span,
                ..
            } => { self.mark(assign_mark(*operator), *operator_span) }
            _ => Ok(()),
        }
    }

    /// Puts down what stands behind the last expression or block in an expression.
    fn expr_back(&mut self, e: &Expr) -> Result<(), AllocError>
        ensures { OnOk result (self.new.list.items ≡ self.old.list.items ++ expr_back (expr_layer e.now)) }
    {
        match e {
            Expr::StructLiteral { closing, .. } => self.mark(Punctuation::CloseBrace, *closing),
            Expr::Paren { closing, .. } => self.mark(Punctuation::CloseParen, *closing),
            Expr::Tuple { closing, .. } => self.mark(Punctuation::CloseParen, *closing),
            Expr::Array { closing, .. } => self.mark(Punctuation::CloseBracket, *closing),
            Expr::Repeat {
                semicolon,
                length,
                closing,
                ..
            } => { self.length(*semicolon, *length, *closing) }
            Expr::Print { closing, .. } => self.mark(Punctuation::CloseParen, *closing),
            Expr::Assert { comma, closing, .. } => self.assert_back(*comma, *closing),
            Expr::Field { dot, name, .. } => self.field_back(*dot, name),
            Expr::TupleField { dot, index, .. } => self.tuple_field_back(*dot, *index),
            Expr::MethodCall { closing, .. } => self.mark(Punctuation::CloseParen, *closing),
            Expr::Call { closing, .. } => self.mark(Punctuation::CloseParen, *closing),
            Expr::Index { closing, .. } => self.mark(Punctuation::CloseBracket, *closing),
            Expr::Cast { as_keyword, ty, .. } => self.cast_back(*as_keyword, ty),
            _ => Ok(()),
        }
    }

    /// Puts down a path in an expression.
    fn expr_path(&mut self, path: &ExprPath) -> Result<(), AllocError>
        ensures { OnOk result (self.new.list.items ≡ self.old.list.items ++ path_row path.now) }
    {
        self.path(&path.path)?;
        self.turbofish(&path.turbofish)
    }

    fn struct_front(&mut self, path: &Path, opening: Span) -> Result<(), AllocError>
        ensures { OnOk result (self.new.list.items ≡ self.old.list.items ++ path_pieces path.now ++ punct punct_of.OpenBrace opening ∷ []) }
    {
        self.path(path)?;
        self.mark(Punctuation::OpenBrace, opening)
    }

    fn call_front(&mut self, callee: &ExprPath, opening: Span) -> Result<(), AllocError>
        ensures { OnOk result (self.new.list.items ≡ self.old.list.items ++ path_row callee.now ++ punct punct_of.OpenParen opening ∷ []) }
    {
        self.expr_path(callee)?;
        self.mark(Punctuation::OpenParen, opening)
    }

    fn borrow_front(&mut self, and: Mark, kind: Borrow) -> Result<(), AllocError>
        ensures { OnOk result (self.new.list.items ≡ self.old.list.items ++ mark punct_of.And and ∷ borrow_kind kind) }
    {
        self.glue(Punctuation::And, and)?;
        self.borrow_kind(kind)
    }

    fn borrow_kind(&mut self, kind: Borrow) -> Result<(), AllocError>
        ensures { OnOk result (self.new.list.items ≡ self.old.list.items ++ borrow_kind kind) }
    {
        match kind {
            Borrow::Shared => Ok(()),
            Borrow::Mut { mut_keyword } => self.keyword(Keyword::Mut, mut_keyword),
            Borrow::RawConst {
                raw_word,
                const_keyword,
            } => {
                self.word("raw", raw_word)?;
                self.keyword(Keyword::Const, const_keyword)
            }
            Borrow::RawMut {
                raw_word,
                mut_keyword,
            } => {
                self.word("raw", raw_word)?;
                self.keyword(Keyword::Mut, mut_keyword)
            }
        }
    }

    /// Puts down the name of a macro, `!` and `(`.
    fn macro_front(
        &mut self,
        name: &str,
        at: Span,
        bang: Span,
        opening: Span,
    ) -> Result<(), AllocError>
        ensures { OnOk result (self.new.list.items ≡ self.old.list.items ++ macro_front name.now at bang opening) }
    {
        self.word(name, at)?;
        self.mark(Punctuation::Not, bang)?;
        self.mark(Punctuation::OpenParen, opening)
    }

    fn print_front(
        &mut self,
        newline: bool,
        at: Span,
        bang: Span,
        opening: Span,
        text: &Option<PrintText>,
    ) -> Result<(), AllocError>
        ensures { OnOk result (self.new.list.items ≡ self.old.list.items ++ macro_front (print_word newline) at bang opening ++ print_text text.now) }
    {
        self.macro_front(print_word(newline), at, bang, opening)?;
        self.print_text(text)
    }

    fn print_text(&mut self, text: &Option<PrintText>) -> Result<(), AllocError>
        ensures { OnOk result (self.new.list.items ≡ self.old.list.items ++ print_text text.now) }
    {
        let Some(text) = text else {
            return Ok(());
        };
        self.text(&text.text)?;
        self.optional_mark(Punctuation::Comma, text.comma)
    }

    fn panic(
        &mut self,
        at: Span,
        bang: Span,
        opening: Span,
        text: &Option<TextLiteral>,
        closing: Span,
    ) -> Result<(), AllocError>
        ensures { OnOk result (self.new.list.items ≡ self.old.list.items ++ macro_front (codes "panic") at bang opening ++ (text_pieces text.now ++ punct punct_of.CloseParen closing ∷ [])) }
    {
        self.macro_front("panic", at, bang, opening)?;
        self.optional_text(text)?;
        self.mark(Punctuation::CloseParen, closing)
    }

    fn assert_back(&mut self, comma: Option<Span>, closing: Span) -> Result<(), AllocError>
        ensures { OnOk result (self.new.list.items ≡ self.old.list.items ++ optional_mark punct_of.Comma comma ++ punct punct_of.CloseParen closing ∷ []) }
    {
        self.optional_mark(Punctuation::Comma, comma)?;
        self.mark(Punctuation::CloseParen, closing)
    }

    fn method_middle(
        &mut self,
        dot: Span,
        name: &Ident,
        turbofish: &Option<Turbofish>,
        opening: Span,
    ) -> Result<(), AllocError>
        ensures { OnOk result (self.new.list.items ≡ self.old.list.items ++ punct punct_of.Dot dot ∷ ident name.now ∷ (turbofish_pieces turbofish.now ++ punct punct_of.OpenParen opening ∷ [])) }
    {
        self.mark(Punctuation::Dot, dot)?;
        self.ident(name)?;
        self.turbofish(turbofish)?;
        self.mark(Punctuation::OpenParen, opening)
    }

    fn field_back(&mut self, dot: Span, name: &Ident) -> Result<(), AllocError>
        ensures { OnOk result (self.new.list.items ≡ self.old.list.items ++ punct punct_of.Dot dot ∷ ident name.now ∷ []) }
    {
        self.mark(Punctuation::Dot, dot)?;
        self.ident(name)
    }

    fn tuple_field_back(&mut self, dot: Span, index: IntLiteral) -> Result<(), AllocError>
        ensures { OnOk result (self.new.list.items ≡ self.old.list.items ++ punct punct_of.Dot dot ∷ number index ∷ []) }
    {
        self.mark(Punctuation::Dot, dot)?;
        self.number(index)
    }

    fn cast_back(&mut self, at: Span, ty: &TypeExpr) -> Result<(), AllocError>
        ensures { OnOk result (self.new.list.items ≡ self.old.list.items ++ keyword keyword_of.As at ∷ type_pieces ty.now) }
    {
        self.keyword(Keyword::As, at)?;
        self.ty(ty)
    }

    /// Puts down what stands before the value of a `let`.
    fn let_front(
        &mut self,
        at: Span,
        mutable: Option<Span>,
        name: &Ident,
        ty: &Option<TypeNote>,
    ) -> Result<(), AllocError>
        ensures { OnOk result (self.new.list.items ≡ self.old.list.items ++ keyword keyword_of.Let at ∷ (optional_keyword keyword_of.Mut mutable ++ (ident name.now ∷ note_pieces ty.now))) }
    {
        self.keyword(Keyword::Let, at)?;
        self.optional_keyword(Keyword::Mut, mutable)?;
        self.ident(name)?;
        self.type_note(ty)
    }
}

// Expressions, statements and blocks.
impl Pieces {
    /// Puts down an expression.
    #[cycle(expressions)]
    pub fn expr(&mut self, e: &Expr) -> Result<(), AllocError>
        ensures { OnOk result (self.new.list.items ≡ self.old.list.items ++ expr_pieces e.now) }
    {
        self.expr_front(e)?;
        self.expr_inside(e)?;
        self.expr_back(e)
    }

    /// Puts down the expressions and blocks in an expression, and what stands between them.
    #[cycle(expressions)]
    fn expr_inside(&mut self, e: &Expr) -> Result<(), AllocError>
        ensures { OnOk result (self.new.list.items ≡ self.old.list.items ++ expr_inside (expr_layer e.now)) }
    {
        match e {
            Expr::StructLiteral { fields, commas, .. } => {
                self.fields(fields.as_slice(), commas.as_slice())
            }
            Expr::Tuple {
                parts: list,
                commas,
                ..
            }
            | Expr::Array {
                elements: list,
                commas,
                ..
            }
            | Expr::Print {
                arguments: list,
                commas,
                ..
            }
            | Expr::Call {
                arguments: list,
                commas,
                ..
            } => { self.exprs(list.as_slice(), commas.as_slice()) }
            Expr::Paren { inner: part, .. }
            | Expr::Repeat { element: part, .. }
            | Expr::Assert {
                condition: part,
                ..
            } => self.expr(part.get()),
            Expr::Block(body) => self.block(body),
            Expr::Unsafe { body, .. } | Expr::Loop { body, .. } => self.block(body),
            _ => self.choices_inside(e),
        }
    }

    /// Puts down what lies in a `while`, an `if` or a `return`, and the operands of an operator.
    #[cycle(expressions)]
    fn choices_inside(&mut self, e: &Expr) -> Result<(), AllocError>
        ensures { OnOk result (self.new.list.items ≡ self.old.list.items ++ choices_inside (expr_layer e.now)) }
    {
        match e {
            Expr::While {
                condition,
                body,
                ..
            } => {
                self.expr(condition.get())?;
                self.block(body)
            }
            Expr::If {
                condition,
                body,
                otherwise,
                ..
            } => {
                self.expr(condition.get())?;
                self.block(body)?;
                self.otherwise(otherwise)
            }
            Expr::Return { value, .. } => self.optional_expr(value),
            Expr::Field { base: part, .. }
            | Expr::TupleField { base: part, .. }
            | Expr::Unary { operand: part, .. }
            | Expr::Borrow { operand: part, .. }
            | Expr::Cast { operand: part, .. } => self.expr(part.get()),
            _ => self.operands_inside(e),
        }
    }

    /// Puts down the operands of an operator that stands between them.
    #[cycle(expressions)]
    fn operands_inside(&mut self, e: &Expr) -> Result<(), AllocError>
        ensures { OnOk result (self.new.list.items ≡ self.old.list.items ++ operands_inside (expr_layer e.now)) }
    {
        match e {
            Expr::MethodCall {
                receiver,
                arguments,
                commas,
                ..
            } => {
                self.expr(receiver.get())?;
                self.expr_middle(e)?;
                self.exprs(arguments.as_slice(), commas.as_slice())
            }
            Expr::Index {
                base: left,
                index: right,
                ..
            }
            | Expr::Binary { left, right, .. }
            | Expr::Assign {
                target: left,
                value: right,
                ..
            }
            | Expr::AssignOp {
                target: left,
                value: right,
                ..
            } => {
                self.expr(left.get())?;
                self.expr_middle(e)?;
                self.expr(right.get())
            }
            _ => Ok(()),
        }
    }

    /// Puts down expressions, with the commas behind them.
    #[cycle(expressions)]
    fn exprs(&mut self, list: &[Expr], commas: &[Span]) -> Result<(), AllocError>
        ensures { OnOk result (self.new.list.items ≡ self.old.list.items ++ separated punct_of.Comma (map expr_pieces list.now) commas.now) }
    {
        for (at, e) in list.iter().enumerate() {
            self.expr(e)?;
            self.mark_at(Punctuation::Comma, commas, at)?;
        }
        Ok(())
    }

    /// Puts down an expression that may be left out.
    #[cycle(expressions)]
    fn optional_expr(&mut self, e: &Option<Boxed<Expr>>) -> Result<(), AllocError>
        ensures { OnOk result (self.new.list.items ≡ self.old.list.items ++ optional (option_map expr_pieces e.now)) }
    {
        match e {
            Some(e) => self.expr(e.get()),
            None => Ok(()),
        }
    }

    /// Puts down the fields of a struct literal, with the commas behind them.
    #[cycle(expressions)]
    fn fields(&mut self, fields: &[FieldValue], commas: &[Span]) -> Result<(), AllocError>
        ensures { OnOk result (self.new.list.items ≡ self.old.list.items ++ separated punct_of.Comma (map field_pieces fields.now) commas.now) }
    {
        for (at, field) in fields.iter().enumerate() {
            self.field(field)?;
            self.mark_at(Punctuation::Comma, commas, at)?;
        }
        Ok(())
    }

    /// Puts down a field of a struct literal.
    #[cycle(expressions)]
    fn field(&mut self, field: &FieldValue) -> Result<(), AllocError>
        ensures { OnOk result (self.new.list.items ≡ self.old.list.items ++ field_pieces field.now) }
    {
        match field {
            FieldValue::Named { name, colon, value } => {
                self.ident(name)?;
                self.mark(Punctuation::Colon, *colon)?;
                self.expr(value)
            }
            FieldValue::Short { name } => self.ident(name),
        }
    }

    /// Puts down what stands behind the block of an `if`, if it is there.
    #[cycle(expressions)]
    fn otherwise(&mut self, otherwise: &Option<Else>) -> Result<(), AllocError>
        ensures { OnOk result (self.new.list.items ≡ self.old.list.items ++ optional (option_map else_pieces otherwise.now)) }
    {
        match otherwise {
            Some(Else::ElseBlock { else_keyword, body }) => {
                self.keyword(Keyword::Else, *else_keyword)?;
                self.block(body)
            }
            Some(
                Else::ElseIf {
                    else_keyword,
                    branch,
                },
            ) => {
                self.keyword(Keyword::Else, *else_keyword)?;
                self.expr(branch.get())
            }
            None => Ok(()),
        }
    }

    /// Puts down a block.
    #[cycle(expressions)]
    pub fn block(&mut self, block: &Block) -> Result<(), AllocError>
        ensures { OnOk result (self.new.list.items ≡ self.old.list.items ++ block_pieces block.now) }
    {
        self.mark(Punctuation::OpenBrace, block.opening)?;
        self.statements(block.statements.as_slice())?;
        self.optional_expr(&block.last)?;
        self.mark(Punctuation::CloseBrace, block.closing)
    }

    /// Puts down statements.
    #[cycle(expressions)]
    fn statements(&mut self, statements: &[Stmt]) -> Result<(), AllocError>
        ensures { OnOk result (self.new.list.items ≡ self.old.list.items ++ in_order (map stmt_pieces statements.now)) }
    {
        for statement in statements {
            self.statement(statement)?;
        }
        Ok(())
    }

    /// Puts down a statement.
    #[cycle(expressions)]
    fn statement(&mut self, statement: &Stmt) -> Result<(), AllocError>
        ensures { OnOk result (self.new.list.items ≡ self.old.list.items ++ stmt_pieces statement.now) }
    {
        match statement {
            Stmt::Empty { span } => self.mark(Punctuation::Semicolon, *span),
            Stmt::Let {
                let_keyword,
                mut_keyword,
                name,
                ty,
                value,
                semicolon,
                ..
            } => {
                self.let_front(*let_keyword, *mut_keyword, name, ty)?;
                self.initializer(value)?;
                self.mark(Punctuation::Semicolon, *semicolon)
            }
            Stmt::Expr {
                expression,
                semicolon,
                ..
            } => {
                self.expr(expression)?;
                self.mark(Punctuation::Semicolon, *semicolon)
            }
            Stmt::Blocky { expression } => self.expr(expression),
        }
    }

    /// Puts down the value of a `let`, if it has one.
    #[cycle(expressions)]
    fn initializer(&mut self, initializer: &Option<Initializer>) -> Result<(), AllocError>
        ensures { OnOk result (self.new.list.items ≡ self.old.list.items ++ optional (option_map initializer_pieces initializer.now)) }
    {
        match initializer {
            Some(initializer) => {
                self.glue(Punctuation::Eq, initializer.equals)?;
                self.expr(&initializer.value)
            }
            None => Ok(()),
        }
    }
}

/// The name of a print macro.
fn print_word(newline: bool) -> &'static str
    ensures { result.now ≡ print_word newline }
{
    if newline { "println" } else { "print" }
}
