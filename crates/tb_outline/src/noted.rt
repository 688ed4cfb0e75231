//! An item in the order of its text.

ghost use Rattle.std.specs.Prelude.{◌≡◌, ◌++◌, ◌∷◌, [], map, OnOk, IfOk};
ghost use Rattle.std.specs.Option.{option_map};
ghost use Rattle.tb_ast.specs.Mentions.{MentionOf, told_mention};
ghost use Rattle.tb_outline.specs.Outlines.{StepOf, told_step, told_steps, joined, if_there, type_outline, argument_outline, arguments_outline, written_outline, turbofish_outline, note_outline, operator_outlined, outlines_in, else_outline, expr_outline, field_outline, stmt_outline, block_outline, initializer_outline, member_outline, parameter_outline, declared_parameter, result_outline, foreign_outline, function_outline, kind_outline, item_outline};

use crate::step::Step;
use sqlite_items::Boxed;
use std::alloc::{AllocError, Global};
use tb_ast::{
    Block, Else, Expr, ExprPath, Field, FieldValue, ForeignFunction, Function, Initializer, Item,
    ItemKind, Mention, Parameter, ResultType, Stmt, Turbofish, TypeArgument, TypeArguments,
    TypeExpr, TypeNote,
};

/// The steps that were noted so far.
#[derive(Drop)]
struct Noted<'a> {
    list: Vec<Step<'a>>,
}

impl<'a> Noted<'a> {
    fn note(&mut self, step: Step<'a>) -> Result<(), AllocError>
        ensures { OnOk result (told_steps self.new.list.items ≡ told_steps self.old.list.items ++ told_step step.entry ∷ []) }
    {
        self.list.push(step)?;
        Ok(())
    }

    fn mention(&mut self, mention: Mention<'a>) -> Result<(), AllocError>
        ensures { OnOk result (told_steps self.new.list.items ≡ told_steps self.old.list.items ++ StepOf.Mentioned (told_mention mention.entry) ∷ []) }
    {
        self.note(Step::Mention(mention))
    }
}

// Types.
impl<'a> Noted<'a> {
    #[cycle(types)]
    fn type_parts(&mut self, ty: &'a TypeExpr) -> Result<(), AllocError>
        ensures { OnOk result (told_steps self.new.list.items ≡ told_steps self.old.list.items ++ type_outline ty.now) }
    {
        match ty {
            TypeExpr::Unit { .. } => Ok(()),
            TypeExpr::Tuple { parts, .. } => {
                self.note(Step::Parts(parts.len()))?;
                self.types_parts(parts.as_slice())
            }
            TypeExpr::Slice { element: part, .. }
            | TypeExpr::Array { element: part, .. }
            | TypeExpr::Reference { target: part, .. }
            | TypeExpr::Pointer { target: part, .. } => self.type_parts(part.get()),
            TypeExpr::Path {
                path,
                arguments,
                ..
            } => {
                self.note(Step::Named(path))?;
                self.optional_arguments(arguments)
            }
        }
    }

    #[cycle(types)]
    fn types_parts(&mut self, types: &'a [TypeExpr]) -> Result<(), AllocError>
        ensures { OnOk result (told_steps self.new.list.items ≡ told_steps self.old.list.items ++ joined (map type_outline types.now)) }
    {
        for ty in types {
            self.type_parts(ty)?;
        }
        Ok(())
    }

    #[cycle(types)]
    fn optional_arguments(&mut self, arguments: &'a Option<TypeArguments>) -> Result<(), AllocError>
        ensures { OnOk result (told_steps self.new.list.items ≡ told_steps self.old.list.items ++ if_there (option_map arguments_outline arguments.now)) }
    {
        match arguments {
            Some(arguments) => self.arguments(arguments.arguments.as_slice()),
            None => Ok(()),
        }
    }

    #[cycle(types)]
    fn arguments(&mut self, arguments: &'a [TypeArgument]) -> Result<(), AllocError>
        ensures { OnOk result (told_steps self.new.list.items ≡ told_steps self.old.list.items ++ joined (map argument_outline arguments.now)) }
    {
        for argument in arguments {
            self.argument(argument)?;
        }
        Ok(())
    }

    #[cycle(types)]
    fn argument(&mut self, argument: &'a TypeArgument) -> Result<(), AllocError>
        ensures { OnOk result (told_steps self.new.list.items ≡ told_steps self.old.list.items ++ argument_outline argument.now) }
    {
        match argument {
            TypeArgument::Lifetime(_) => Ok(()),
            TypeArgument::TypeExpr(ty) => self.type_parts(ty),
        }
    }

    fn written(&mut self, ty: &'a TypeExpr) -> Result<(), AllocError>
        ensures { OnOk result (told_steps self.new.list.items ≡ told_steps self.old.list.items ++ written_outline ty.now) }
    {
        self.mention(Mention::Written(ty))?;
        self.type_parts(ty)
    }

    fn types(&mut self, types: &'a [TypeExpr]) -> Result<(), AllocError>
        ensures { OnOk result (told_steps self.new.list.items ≡ told_steps self.old.list.items ++ joined (map written_outline types.now)) }
    {
        for ty in types {
            self.written(ty)?;
        }
        Ok(())
    }

    fn turbofish(&mut self, turbofish: &'a Option<Turbofish>) -> Result<(), AllocError>
        ensures { OnOk result (told_steps self.new.list.items ≡ told_steps self.old.list.items ++ turbofish_outline turbofish.now) }
    {
        match turbofish {
            Some(turbofish) => self.types(turbofish.types.as_slice()),
            None => Ok(()),
        }
    }

    fn type_note(&mut self, note: &'a Option<TypeNote>) -> Result<(), AllocError>
        ensures { OnOk result (told_steps self.new.list.items ≡ told_steps self.old.list.items ++ note_outline note.now) }
    {
        match note {
            Some(note) => self.written(&note.ty),
            None => Ok(()),
        }
    }

    fn value(&mut self, path: &'a ExprPath) -> Result<(), AllocError>
        ensures { OnOk result (told_steps self.new.list.items ≡ told_steps self.old.list.items ++ StepOf.Mentioned (MentionOf.Value path.now) ∷ turbofish_outline path.now.turbofish) }
    {
        self.mention(Mention::Value(path))?;
        self.turbofish(&path.turbofish)
    }

    fn callee(&mut self, path: &'a ExprPath) -> Result<(), AllocError>
        ensures { OnOk result (told_steps self.new.list.items ≡ told_steps self.old.list.items ++ StepOf.Mentioned (MentionOf.Callee path.now) ∷ turbofish_outline path.now.turbofish) }
    {
        self.mention(Mention::Callee(path))?;
        self.turbofish(&path.turbofish)
    }
}

// Expressions, statements and blocks.
impl<'a> Noted<'a> {
    #[cycle(expressions)]
    fn expr(&mut self, e: &'a Expr) -> Result<(), AllocError>
        ensures { OnOk result (told_steps self.new.list.items ≡ told_steps self.old.list.items ++ expr_outline e.now) }
    {
        match e {
            Expr::Path(path) => self.value(path),
            Expr::StructLiteral { path, fields, .. } => {
                self.mention(Mention::Struct(path))?;
                self.fields(fields.as_slice())
            }
            Expr::Tuple { parts, .. } => {
                self.note(Step::Parts(parts.len()))?;
                self.exprs(parts.as_slice())
            }
            Expr::Array { elements: list, .. }
            | Expr::Print {
                arguments: list,
                ..
            } => self.exprs(list.as_slice()),
            Expr::Paren { inner: part, .. }
            | Expr::Repeat { element: part, .. }
            | Expr::Assert {
                condition: part,
                ..
            } => self.expr(part.get()),
            Expr::Block(body) => self.block(body),
            Expr::Unsafe { body, .. } | Expr::Loop { body, .. } => self.block(body),
            Expr::While {
                condition,
                body,
                ..
            } => {
                self.expr(condition.get())?;
                self.block(body)
            }
            Expr::If {
                condition,
                body,
                otherwise,
                ..
            } => {
                self.expr(condition.get())?;
                self.block(body)?;
                self.otherwise(otherwise)
            }
            Expr::Return { value, .. } => self.optional_expr(value),
            _ => self.operands(e),
        }
    }

    /// Notes what a call or an operator's expression mentions.
    #[cycle(expressions)]
    fn operands(&mut self, e: &'a Expr) -> Result<(), AllocError>
        ensures { OnOk result (told_steps self.new.list.items ≡ told_steps self.old.list.items ++ operator_outlined (outlines_in e.now)) }
    {
        match e {
            Expr::Field { base: part, .. }
            | Expr::TupleField { base: part, .. }
            | Expr::Unary { operand: part, .. }
            | Expr::Borrow { operand: part, .. } => self.expr(part.get()),
            Expr::Cast { operand, ty, .. } => {
                self.expr(operand.get())?;
                self.written(ty)
            }
            Expr::Call {
                callee,
                arguments,
                ..
            } => {
                self.callee(callee)?;
                self.exprs(arguments.as_slice())
            }
            Expr::MethodCall {
                receiver,
                turbofish,
                arguments,
                ..
            } => {
                self.expr(receiver.get())?;
                self.turbofish(turbofish)?;
                self.exprs(arguments.as_slice())
            }
            Expr::Index {
                base: left,
                index: right,
                ..
            }
            | Expr::Binary { left, right, .. }
            | Expr::Assign {
                target: left,
                value: right,
                ..
            }
            | Expr::AssignOp {
                target: left,
                value: right,
                ..
            } => {
                self.expr(left.get())?;
                self.expr(right.get())
            }
            _ => Ok(()),
        }
    }

    #[cycle(expressions)]
    fn exprs(&mut self, list: &'a [Expr]) -> Result<(), AllocError>
        ensures { OnOk result (told_steps self.new.list.items ≡ told_steps self.old.list.items ++ joined (map expr_outline list.now)) }
    {
        for e in list {
            self.expr(e)?;
        }
        Ok(())
    }

    #[cycle(expressions)]
    fn optional_expr(&mut self, e: &'a Option<Boxed<Expr>>) -> Result<(), AllocError>
        ensures { OnOk result (told_steps self.new.list.items ≡ told_steps self.old.list.items ++ if_there (option_map expr_outline e.now)) }
    {
        match e {
            Some(e) => self.expr(e.get()),
            None => Ok(()),
        }
    }

    #[cycle(expressions)]
    fn fields(&mut self, fields: &'a [FieldValue]) -> Result<(), AllocError>
        ensures { OnOk result (told_steps self.new.list.items ≡ told_steps self.old.list.items ++ joined (map field_outline fields.now)) }
    {
        for field in fields {
            self.field(field)?;
        }
        Ok(())
    }

    #[cycle(expressions)]
    fn field(&mut self, field: &'a FieldValue) -> Result<(), AllocError>
        ensures { OnOk result (told_steps self.new.list.items ≡ told_steps self.old.list.items ++ field_outline field.now) }
    {
        match field {
            FieldValue::Named { value, .. } => self.expr(value),
            FieldValue::Short { name } => self.mention(Mention::Short(name)),
        }
    }

    #[cycle(expressions)]
    fn otherwise(&mut self, otherwise: &'a Option<Else>) -> Result<(), AllocError>
        ensures { OnOk result (told_steps self.new.list.items ≡ told_steps self.old.list.items ++ if_there (option_map else_outline otherwise.now)) }
    {
        match otherwise {
            Some(Else::ElseBlock { body, .. }) => self.block(body),
            Some(Else::ElseIf { branch, .. }) => self.expr(branch.get()),
            None => Ok(()),
        }
    }

    #[cycle(expressions)]
    fn block(&mut self, block: &'a Block) -> Result<(), AllocError>
        ensures { OnOk result (told_steps self.new.list.items ≡ told_steps self.old.list.items ++ block_outline block.now) }
    {
        self.note(Step::Open)?;
        self.statements(block.statements.as_slice())?;
        self.optional_expr(&block.last)?;
        self.note(Step::Close)
    }

    #[cycle(expressions)]
    fn statements(&mut self, statements: &'a [Stmt]) -> Result<(), AllocError>
        ensures { OnOk result (told_steps self.new.list.items ≡ told_steps self.old.list.items ++ joined (map stmt_outline statements.now)) }
    {
        for statement in statements {
            self.statement(statement)?;
        }
        Ok(())
    }

    #[cycle(expressions)]
    fn statement(&mut self, statement: &'a Stmt) -> Result<(), AllocError>
        ensures { OnOk result (told_steps self.new.list.items ≡ told_steps self.old.list.items ++ stmt_outline statement.now) }
    {
        match statement {
            Stmt::Empty { .. } => Ok(()),
            Stmt::Let {
                name,
                ty,
                value,
                ..
            } => {
                self.type_note(ty)?;
                self.initializer(value)?;
                self.note(Step::Declare(name))
            }
            Stmt::Expr { expression, .. } => self.expr(expression),
            Stmt::Blocky { expression } => self.expr(expression),
        }
    }

    #[cycle(expressions)]
    fn initializer(&mut self, initializer: &'a Option<Initializer>) -> Result<(), AllocError>
        ensures { OnOk result (told_steps self.new.list.items ≡ told_steps self.old.list.items ++ if_there (option_map initializer_outline initializer.now)) }
    {
        match initializer {
            Some(initializer) => self.expr(&initializer.value),
            None => Ok(()),
        }
    }
}

// Items.
impl<'a> Noted<'a> {
    fn members(&mut self, fields: &'a [Field]) -> Result<(), AllocError>
        ensures { OnOk result (told_steps self.new.list.items ≡ told_steps self.old.list.items ++ joined (map member_outline fields.now)) }
    {
        for field in fields {
            self.written(&field.ty)?;
        }
        Ok(())
    }

    fn parameters(&mut self, parameters: &'a [Parameter]) -> Result<(), AllocError>
        ensures { OnOk result (told_steps self.new.list.items ≡ told_steps self.old.list.items ++ joined (map parameter_outline parameters.now)) }
    {
        for parameter in parameters {
            self.written(&parameter.ty)?;
        }
        Ok(())
    }

    fn result(&mut self, output: &'a Option<ResultType>) -> Result<(), AllocError>
        ensures { OnOk result (told_steps self.new.list.items ≡ told_steps self.old.list.items ++ result_outline output.now) }
    {
        match output {
            Some(output) => self.written(&output.ty),
            None => Ok(()),
        }
    }

    fn foreign(&mut self, functions: &'a [ForeignFunction]) -> Result<(), AllocError>
        ensures { OnOk result (told_steps self.new.list.items ≡ told_steps self.old.list.items ++ joined (map foreign_outline functions.now)) }
    {
        for function in functions {
            self.written(&function.result.ty)?;
        }
        Ok(())
    }

    fn declared(&mut self, parameters: &'a [Parameter]) -> Result<(), AllocError>
        ensures { OnOk result (told_steps self.new.list.items ≡ told_steps self.old.list.items ++ map declared_parameter parameters.now) }
    {
        for parameter in parameters {
            self.note(Step::Declare(&parameter.name))?;
        }
        Ok(())
    }

    fn function(&mut self, function: &'a Function) -> Result<(), AllocError>
        ensures { OnOk result (told_steps self.new.list.items ≡ told_steps self.old.list.items ++ function_outline function.now) }
    {
        self.parameters(function.parameters.as_slice())?;
        self.result(&function.result)?;
        self.note(Step::Open)?;
        self.declared(function.parameters.as_slice())?;
        self.block(&function.body)?;
        self.note(Step::Close)
    }

    fn kind(&mut self, kind: &'a ItemKind) -> Result<(), AllocError>
        ensures { OnOk result (told_steps self.new.list.items ≡ told_steps self.old.list.items ++ kind_outline kind.now) }
    {
        match kind {
            ItemKind::Use(_) => Ok(()),
            ItemKind::Struct(item) => self.members(item.fields.as_slice()),
            ItemKind::Function(function) => self.function(function),
            ItemKind::Extern(block) => self.foreign(block.functions.as_slice()),
        }
    }
}

/// An item in the order of its text: its blocks, its variables, how many parts its tuples have, and what it
/// mentions. The types in a written type follow it.
pub fn outline(alloc: Global, item: &Item) -> Result<Vec<Step<'_>>, AllocError>
    ensures steps { IfOk result (λ list. told_steps list.items ≡ item_outline item.now) }
{
    let mut noted = Noted {
        list: Vec::new(alloc),
    };
    noted.kind(&item.kind)?;
    Ok(noted.list)
}
