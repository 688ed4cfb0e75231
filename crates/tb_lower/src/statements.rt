//! Statements, and the ends of blocks.
ghost use Rattle.std.specs.Prelude.{◌≡◌, ◌≤◌, ◌+◌, ◌++◌, vec_len, OnOk};
ghost use Rattle.std.specs.List.{AllByRecursion};
ghost use Rattle.tb_lower.specs.Lowering.{let_shape, let_lines, assign_shape, assign_lines, print_shape, print_lines, inner_shape, inner_lines, inners_shape, inners_lines, unsafe_lines, statement_shape, statement_lines, statements_shape, statements_lines, declared, all_declared, scope_end};
ghost use Rattle.tb_lower.specs.Pieces.{types, names, store_lines};
ghost use Rattle.tb_lower.specs.Ready.{IsRightReady, IsAssignReady, IsPrintReady, IsInnerReady, IsStatementReady, AreReady};
ghost use Rattle.tb_lower.specs.Ways.{count, brings};

use crate::lowering::{Declared, Lowering, variable_place};
use crate::spans::span_of_assign;
use crate::values::lower_ty;
use sqlite_items::Items;
use std::alloc::AllocError;
use tb_mir::{Line, LocalKind};
use tb_perm::Span;
use tb_small::{Assign, Inner, Let, Print, Statement, UnsafeBlock};

impl Lowering {
    /// Lowers a `let`: its value, and then its variable begins to live and takes it.
    fn binding(&mut self, binding: &Let) -> Result<(), AllocError>
        requires room { vec_len self.old.locals + count (let_shape (types self.old) binding.now) ≤ 4096 }
        requires ready { IsRightReady (vec_len self.old.variables) binding.now.value }
        ensures lines { OnOk result (self.new.lines.items ≡ self.old.lines.items ++ let_lines (names self.old (let_shape (types self.old) binding.now)) self.old.variables.items binding.now) }
        ensures locals { OnOk result (self.new.locals.items ≡ self.old.locals.items ++ brings (let_shape (types self.old) binding.now)) }
        ensures count { OnOk result (vec_len self.new.locals ≡ vec_len self.old.locals + count (let_shape (types self.old) binding.now)) }
        ensures variables { OnOk result (self.new.variables.items ≡ self.old.variables.items ++ declared (names self.old (let_shape (types self.old) binding.now)) (Statement.Let binding.now)) }
    {
        let start = self.next();
        let value = self.right(&binding.value)?;
        let end = self.next();
        let ty = lower_ty(binding.ty);
        let local = self.bring(LocalKind::Variable, ty)?;
        self.variables.push(Declared { local, ty })?;
        self.emit(Line::Live(local), binding.span)?;
        self.emit(Line::Store(variable_place(local), value), binding.span)?;
        self.clear(start, end, binding.span)
    }

    /// Computes a value and then a place, and stores the value there.
    fn store(&mut self, assign: &Assign) -> Result<(), AllocError>
        requires room { vec_len self.old.locals + count (assign_shape (types self.old) assign.now) ≤ 4096 }
        requires ready { IsAssignReady (vec_len self.old.variables) assign.now }
        ensures lines { OnOk result (self.new.lines.items ≡ self.old.lines.items ++ store_lines (names self.old (assign_shape (types self.old) assign.now)) self.old.variables.items assign.now) }
        ensures locals { OnOk result (self.new.locals.items ≡ self.old.locals.items ++ brings (assign_shape (types self.old) assign.now)) }
        ensures count { OnOk result (vec_len self.new.locals ≡ vec_len self.old.locals + count (assign_shape (types self.old) assign.now)) }
        ensures variables { self.new.variables ≡ self.old.variables }
    {
        let value = self.right(&assign.value)?;
        let target = self.spot(assign.target)?;
        self.emit(Line::Store(target, value), span_of_assign(assign))
    }

    /// Lowers an assignment: its value, then its place, and then the value is stored.
    fn assign(&mut self, assign: &Assign) -> Result<(), AllocError>
        requires room { vec_len self.old.locals + count (assign_shape (types self.old) assign.now) ≤ 4096 }
        requires ready { IsAssignReady (vec_len self.old.variables) assign.now }
        ensures lines { OnOk result (self.new.lines.items ≡ self.old.lines.items ++ assign_lines (names self.old (assign_shape (types self.old) assign.now)) self.old.variables.items assign.now) }
        ensures locals { OnOk result (self.new.locals.items ≡ self.old.locals.items ++ brings (assign_shape (types self.old) assign.now)) }
        ensures count { OnOk result (vec_len self.new.locals ≡ vec_len self.old.locals + count (assign_shape (types self.old) assign.now)) }
        ensures variables { self.new.variables ≡ self.old.variables }
    {
        let start = self.next();
        self.store(assign)?;
        let end = self.next();
        self.clear(start, end, assign.span)
    }

    /// Lowers a print: its arguments from left to right, and then the print.
    fn print(&mut self, print: &Print) -> Result<(), AllocError>
        requires room { vec_len self.old.locals + count (print_shape (types self.old) print.now) ≤ 4096 }
        requires ready { IsPrintReady (vec_len self.old.variables) print.now }
        ensures lines { OnOk result (self.new.lines.items ≡ self.old.lines.items ++ print_lines (names self.old (print_shape (types self.old) print.now)) self.old.variables.items print.now) }
        ensures locals { OnOk result (self.new.locals.items ≡ self.old.locals.items ++ brings (print_shape (types self.old) print.now)) }
        ensures count { OnOk result (vec_len self.new.locals ≡ vec_len self.old.locals + count (print_shape (types self.old) print.now)) }
        ensures variables { self.new.variables ≡ self.old.variables }
    {
        let start = self.next();
        let operands = self.sums(print.arguments.as_slice())?;
        let text = Items::from_slice(self.alloc, print.text.source.as_slice())?;
        self.emit(Line::Print(print.newline, text, operands), print.call)?;
        let end = self.next();
        self.clear(start, end, print.span)
    }

    /// Lowers a statement of an `unsafe` block.
    fn inner(&mut self, inner: &Inner) -> Result<(), AllocError>
        requires room { vec_len self.old.locals + count (inner_shape (types self.old) inner.now) ≤ 4096 }
        requires ready { IsInnerReady (vec_len self.old.variables) inner.now }
        ensures lines { OnOk result (self.new.lines.items ≡ self.old.lines.items ++ inner_lines (names self.old (inner_shape (types self.old) inner.now)) self.old.variables.items inner.now) }
        ensures locals { OnOk result (self.new.locals.items ≡ self.old.locals.items ++ brings (inner_shape (types self.old) inner.now)) }
        ensures count { OnOk result (vec_len self.new.locals ≡ vec_len self.old.locals + count (inner_shape (types self.old) inner.now)) }
        ensures variables { self.new.variables ≡ self.old.variables }
    {
        match inner {
            Inner::Assign(assign) => self.assign(assign),
            Inner::Print(print) => self.print(print),
        }
    }

    /// Lowers the statements of an `unsafe` block, one after another.
    fn inners(&mut self, inners: &[Inner]) -> Result<(), AllocError>
        requires room { vec_len self.old.locals + count (inners_shape (types self.old) inners.now) ≤ 4096 }
        requires ready { AllByRecursion (IsInnerReady (vec_len self.old.variables)) inners.now }
        ensures lines { OnOk result (self.new.lines.items ≡ self.old.lines.items ++ inners_lines (names self.old (inners_shape (types self.old) inners.now)) self.old.variables.items inners.now) }
        ensures locals { OnOk result (self.new.locals.items ≡ self.old.locals.items ++ brings (inners_shape (types self.old) inners.now)) }
        ensures count { OnOk result (vec_len self.new.locals ≡ vec_len self.old.locals + count (inners_shape (types self.old) inners.now)) }
        ensures variables { self.new.variables ≡ self.old.variables }
    {
        for inner in inners {
            self.inner(inner)?;
        }
        Ok(())
    }

    /// Lowers an `unsafe` block. As the last statement of a body it is the body's value, and has no
    /// end of its own.
    fn unsafe_block(&mut self, is_last: bool, block: &UnsafeBlock) -> Result<(), AllocError>
        requires room { vec_len self.old.locals + count (inners_shape (types self.old) block.now.statements) ≤ 4096 }
        requires ready { AllByRecursion (IsInnerReady (vec_len self.old.variables)) block.now.statements }
        ensures lines { OnOk result (self.new.lines.items ≡ self.old.lines.items ++ unsafe_lines (names self.old (inners_shape (types self.old) block.now.statements)) self.old.variables.items is_last block.now) }
        ensures locals { OnOk result (self.new.locals.items ≡ self.old.locals.items ++ brings (inners_shape (types self.old) block.now.statements)) }
        ensures count { OnOk result (vec_len self.new.locals ≡ vec_len self.old.locals + count (inners_shape (types self.old) block.now.statements)) }
        ensures variables { self.new.variables ≡ self.old.variables }
    {
        let start = self.next();
        self.inners(block.statements.as_slice())?;
        if is_last {
            return Ok(());
        }
        let end = self.next();
        self.clear(start, end, block.span)
    }

    /// Lowers a statement.
    fn statement(&mut self, is_last: bool, statement: &Statement) -> Result<(), AllocError>
        requires room { vec_len self.old.locals + count (statement_shape (types self.old) statement.now) ≤ 4096 }
        requires ready { IsStatementReady (vec_len self.old.variables) statement.now }
        ensures lines { OnOk result (self.new.lines.items ≡ self.old.lines.items ++ statement_lines (names self.old (statement_shape (types self.old) statement.now)) self.old.variables.items is_last statement.now) }
        ensures locals { OnOk result (self.new.locals.items ≡ self.old.locals.items ++ brings (statement_shape (types self.old) statement.now)) }
        ensures count { OnOk result (vec_len self.new.locals ≡ vec_len self.old.locals + count (statement_shape (types self.old) statement.now)) }
        ensures variables { OnOk result (self.new.variables.items ≡ self.old.variables.items ++ declared (names self.old (statement_shape (types self.old) statement.now)) statement.now) }
    {
        match statement {
            Statement::Let(binding) => self.binding(binding),
            Statement::Assign(assign) => self.assign(assign),
            Statement::Print(print) => self.print(print),
            Statement::Unsafe(block) => self.unsafe_block(is_last, block),
        }
    }

    /// Lowers the statements of a body, one after another.
    pub fn statements(&mut self, statements: &[Statement]) -> Result<(), AllocError>
        requires room { vec_len self.old.locals + count (statements_shape (types self.old) statements.now) ≤ 4096 }
        requires ready { AreReady (vec_len self.old.variables) statements.now }
        ensures lines { OnOk result (self.new.lines.items ≡ self.old.lines.items ++ statements_lines (names self.old (statements_shape (types self.old) statements.now)) self.old.variables.items statements.now) }
        ensures locals { OnOk result (self.new.locals.items ≡ self.old.locals.items ++ brings (statements_shape (types self.old) statements.now)) }
        ensures count { OnOk result (vec_len self.new.locals ≡ vec_len self.old.locals + count (statements_shape (types self.old) statements.now)) }
        ensures variables { OnOk result (self.new.variables.items ≡ all_declared (names self.old (statements_shape (types self.old) statements.now)) self.old.variables.items statements.now) }
    {
        let mut statements = statements;
        while let [statement, rest @ ..] = statements {
            self.statement(rest.is_empty(), statement)?;
            statements = rest;
        }
        Ok(())
    }

    /// Ends a block: its variables end in reverse order.
    #[tactic(auto, using(crate::proofs::Ends::ends_next))]
    pub fn end_scope(&mut self, span: Span) -> Result<(), AllocError>
        ensures lines { OnOk result (self.new.lines.items ≡ self.old.lines.items ++ scope_end span self.old.variables.items) }
        ensures locals { self.new.locals ≡ self.old.locals }
    {
        for number in (0..self.variables.len()).rev() {
            let variable = self.variables[number];
            self.emit(Line::Dead(variable.local), span)?;
        }
        Ok(())
    }
}
