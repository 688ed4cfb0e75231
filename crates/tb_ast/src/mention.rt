//! The paths and written types of an item, in the order of the text.

ghost use Rattle.std.specs.Prelude.{◌≡◌, ◌++◌, ◌∷◌, [], map, OnOk, IfOk};
ghost use Rattle.std.specs.Option.{option_map};
ghost use Rattle.tb_ast.specs.Mentions.{MentionOf, told_mention, told_mentions, all_in_order, if_there, turbofish_mentions, note_mentions, operator_mentioned, mentions_in, else_mentions, expr_mentions, field_mentions, stmt_mentions, block_mentions, initializer_mentions, member_mentions, parameter_mentions, result_mentions, foreign_mentions, kind_mentions, item_mentions};

use crate::expression::{Block, Else, Expr, ExprPath, FieldValue, Initializer, Stmt};
use crate::item::{Field, ForeignFunction, Item, ItemKind, Parameter, ResultType};
use crate::leaf::{Ident, Path};
use crate::written::{Turbofish, TypeExpr, TypeNote};
use sqlite_items::Boxed;
use std::alloc::{AllocError, Global};

/// A path or a written type.
#[derive(Clone, Copy)]
pub enum Mention<'a> {
    /// A variable or another name, as a value.
    Value(&'a ExprPath),
    /// The path that is called.
    Callee(&'a ExprPath),
    /// The struct of a struct literal.
    Struct(&'a Path),
    /// A field without `:` of a struct literal, whose value is the variable of that name.
    Short(&'a Ident),
    /// A type, with the types in it.
    Written(&'a TypeExpr),
}

/// The mentions that were noted so far.
#[derive(Drop)]
struct Noted<'a> {
    list: Vec<Mention<'a>>,
}

impl<'a> Noted<'a> {
    fn note(&mut self, mention: Mention<'a>) -> Result<(), AllocError>
        ensures { OnOk result (told_mentions self.new.list.items ≡ told_mentions self.old.list.items ++ told_mention mention.entry ∷ []) }
    {
        self.list.push(mention)?;
        Ok(())
    }

    fn types(&mut self, types: &'a [TypeExpr]) -> Result<(), AllocError>
        ensures { OnOk result (told_mentions self.new.list.items ≡ told_mentions self.old.list.items ++ map MentionOf.Written types.now) }
    {
        for ty in types {
            self.note(Mention::Written(ty))?;
        }
        Ok(())
    }

    fn turbofish(&mut self, turbofish: &'a Option<Turbofish>) -> Result<(), AllocError>
        ensures { OnOk result (told_mentions self.new.list.items ≡ told_mentions self.old.list.items ++ turbofish_mentions turbofish.now) }
    {
        match turbofish {
            Some(turbofish) => self.types(turbofish.types.as_slice()),
            None => Ok(()),
        }
    }

    fn type_note(&mut self, note: &'a Option<TypeNote>) -> Result<(), AllocError>
        ensures { OnOk result (told_mentions self.new.list.items ≡ told_mentions self.old.list.items ++ note_mentions note.now) }
    {
        match note {
            Some(note) => self.note(Mention::Written(&note.ty)),
            None => Ok(()),
        }
    }

    fn value(&mut self, path: &'a ExprPath) -> Result<(), AllocError>
        ensures { OnOk result (told_mentions self.new.list.items ≡ told_mentions self.old.list.items ++ MentionOf.Value path.now ∷ turbofish_mentions path.now.turbofish) }
    {
        self.note(Mention::Value(path))?;
        self.turbofish(&path.turbofish)
    }

    fn callee(&mut self, path: &'a ExprPath) -> Result<(), AllocError>
        ensures { OnOk result (told_mentions self.new.list.items ≡ told_mentions self.old.list.items ++ MentionOf.Callee path.now ∷ turbofish_mentions path.now.turbofish) }
    {
        self.note(Mention::Callee(path))?;
        self.turbofish(&path.turbofish)
    }
}

// Expressions, statements and blocks.
impl<'a> Noted<'a> {
    #[cycle(expressions)]
    fn expr(&mut self, e: &'a Expr) -> Result<(), AllocError>
        ensures { OnOk result (told_mentions self.new.list.items ≡ told_mentions self.old.list.items ++ expr_mentions e.now) }
    {
        match e {
            Expr::Path(path) => self.value(path),
            Expr::StructLiteral { path, fields, .. } => {
                self.note(Mention::Struct(path))?;
                self.fields(fields.as_slice())
            }
            Expr::Tuple { parts: list, .. }
            | Expr::Array { elements: list, .. }
            | Expr::Print {
                arguments: list,
                ..
            } => self.exprs(list.as_slice()),
            Expr::Paren { inner: part, .. }
            | Expr::Repeat { element: part, .. }
            | Expr::Assert {
                condition: part,
                ..
            } => self.expr(part.get()),
            Expr::Block(body) => self.block(body),
            Expr::Unsafe { body, .. } | Expr::Loop { body, .. } => self.block(body),
            Expr::While {
                condition,
                body,
                ..
            } => {
                self.expr(condition.get())?;
                self.block(body)
            }
            Expr::If {
                condition,
                body,
                otherwise,
                ..
            } => {
                self.expr(condition.get())?;
                self.block(body)?;
                self.otherwise(otherwise)
            }
            Expr::Return { value, .. } => self.optional_expr(value),
            _ => self.operands(e),
        }
    }

    /// Notes what a call or an operator's expression mentions.
    #[cycle(expressions)]
    fn operands(&mut self, e: &'a Expr) -> Result<(), AllocError>
        ensures { OnOk result (told_mentions self.new.list.items ≡ told_mentions self.old.list.items ++ operator_mentioned (mentions_in e.now)) }
    {
        match e {
            Expr::Field { base: part, .. }
            | Expr::TupleField { base: part, .. }
            | Expr::Unary { operand: part, .. }
            | Expr::Borrow { operand: part, .. } => self.expr(part.get()),
            Expr::Cast { operand, ty, .. } => {
                self.expr(operand.get())?;
                self.note(Mention::Written(ty))
            }
            Expr::Call {
                callee,
                arguments,
                ..
            } => {
                self.callee(callee)?;
                self.exprs(arguments.as_slice())
            }
            Expr::MethodCall {
                receiver,
                turbofish,
                arguments,
                ..
            } => {
                self.expr(receiver.get())?;
                self.turbofish(turbofish)?;
                self.exprs(arguments.as_slice())
            }
            Expr::Index {
                base: left,
                index: right,
                ..
            }
            | Expr::Binary { left, right, .. }
            | Expr::Assign {
                target: left,
                value: right,
                ..
            }
            | Expr::AssignOp {
                target: left,
                value: right,
                ..
            } => {
                self.expr(left.get())?;
                self.expr(right.get())
            }
            _ => Ok(()),
        }
    }

    #[cycle(expressions)]
    fn exprs(&mut self, list: &'a [Expr]) -> Result<(), AllocError>
        ensures { OnOk result (told_mentions self.new.list.items ≡ told_mentions self.old.list.items ++ all_in_order (map expr_mentions list.now)) }
    {
        for e in list {
            self.expr(e)?;
        }
        Ok(())
    }

    #[cycle(expressions)]
    fn optional_expr(&mut self, e: &'a Option<Boxed<Expr>>) -> Result<(), AllocError>
        ensures { OnOk result (told_mentions self.new.list.items ≡ told_mentions self.old.list.items ++ if_there (option_map expr_mentions e.now)) }
    {
        match e {
            Some(e) => self.expr(e.get()),
            None => Ok(()),
        }
    }

    #[cycle(expressions)]
    fn fields(&mut self, fields: &'a [FieldValue]) -> Result<(), AllocError>
        ensures { OnOk result (told_mentions self.new.list.items ≡ told_mentions self.old.list.items ++ all_in_order (map field_mentions fields.now)) }
    {
        for field in fields {
            self.field(field)?;
        }
        Ok(())
    }

    #[cycle(expressions)]
    fn field(&mut self, field: &'a FieldValue) -> Result<(), AllocError>
        ensures { OnOk result (told_mentions self.new.list.items ≡ told_mentions self.old.list.items ++ field_mentions field.now) }
    {
        match field {
            FieldValue::Named { value, .. } => self.expr(value),
            FieldValue::Short { name } => self.note(Mention::Short(name)),
        }
    }

    #[cycle(expressions)]
    fn otherwise(&mut self, otherwise: &'a Option<Else>) -> Result<(), AllocError>
        ensures { OnOk result (told_mentions self.new.list.items ≡ told_mentions self.old.list.items ++ if_there (option_map else_mentions otherwise.now)) }
    {
        match otherwise {
            Some(Else::ElseBlock { body, .. }) => self.block(body),
            Some(Else::ElseIf { branch, .. }) => self.expr(branch.get()),
            None => Ok(()),
        }
    }

    #[cycle(expressions)]
    fn block(&mut self, block: &'a Block) -> Result<(), AllocError>
        ensures { OnOk result (told_mentions self.new.list.items ≡ told_mentions self.old.list.items ++ block_mentions block.now) }
    {
        self.statements(block.statements.as_slice())?;
        self.optional_expr(&block.last)
    }

    #[cycle(expressions)]
    fn statements(&mut self, statements: &'a [Stmt]) -> Result<(), AllocError>
        ensures { OnOk result (told_mentions self.new.list.items ≡ told_mentions self.old.list.items ++ all_in_order (map stmt_mentions statements.now)) }
    {
        for statement in statements {
            self.statement(statement)?;
        }
        Ok(())
    }

    #[cycle(expressions)]
    fn statement(&mut self, statement: &'a Stmt) -> Result<(), AllocError>
        ensures { OnOk result (told_mentions self.new.list.items ≡ told_mentions self.old.list.items ++ stmt_mentions statement.now) }
    {
        match statement {
            Stmt::Empty { .. } => Ok(()),
            Stmt::Let { ty, value, .. } => {
                self.type_note(ty)?;
                self.initializer(value)
            }
            Stmt::Expr { expression, .. } => self.expr(expression),
            Stmt::Blocky { expression } => self.expr(expression),
        }
    }

    #[cycle(expressions)]
    fn initializer(&mut self, initializer: &'a Option<Initializer>) -> Result<(), AllocError>
        ensures { OnOk result (told_mentions self.new.list.items ≡ told_mentions self.old.list.items ++ if_there (option_map initializer_mentions initializer.now)) }
    {
        match initializer {
            Some(initializer) => self.expr(&initializer.value),
            None => Ok(()),
        }
    }
}

// Items.
impl<'a> Noted<'a> {
    fn members(&mut self, fields: &'a [Field]) -> Result<(), AllocError>
        ensures { OnOk result (told_mentions self.new.list.items ≡ told_mentions self.old.list.items ++ all_in_order (map member_mentions fields.now)) }
    {
        for field in fields {
            self.note(Mention::Written(&field.ty))?;
        }
        Ok(())
    }

    fn parameters(&mut self, parameters: &'a [Parameter]) -> Result<(), AllocError>
        ensures { OnOk result (told_mentions self.new.list.items ≡ told_mentions self.old.list.items ++ all_in_order (map parameter_mentions parameters.now)) }
    {
        for parameter in parameters {
            self.note(Mention::Written(&parameter.ty))?;
        }
        Ok(())
    }

    fn result(&mut self, output: &'a Option<ResultType>) -> Result<(), AllocError>
        ensures { OnOk result (told_mentions self.new.list.items ≡ told_mentions self.old.list.items ++ result_mentions output.now) }
    {
        match output {
            Some(output) => self.note(Mention::Written(&output.ty)),
            None => Ok(()),
        }
    }

    fn foreign(&mut self, functions: &'a [ForeignFunction]) -> Result<(), AllocError>
        ensures { OnOk result (told_mentions self.new.list.items ≡ told_mentions self.old.list.items ++ all_in_order (map foreign_mentions functions.now)) }
    {
        for function in functions {
            self.note(Mention::Written(&function.result.ty))?;
        }
        Ok(())
    }

    fn kind(&mut self, kind: &'a ItemKind) -> Result<(), AllocError>
        ensures { OnOk result (told_mentions self.new.list.items ≡ told_mentions self.old.list.items ++ kind_mentions kind.now) }
    {
        match kind {
            ItemKind::Use(_) => Ok(()),
            ItemKind::Struct(item) => self.members(item.fields.as_slice()),
            ItemKind::Function(function) => {
                self.parameters(function.parameters.as_slice())?;
                self.result(&function.result)?;
                self.block(&function.body)
            }
            ItemKind::Extern(block) => self.foreign(block.functions.as_slice()),
        }
    }
}

/// The paths and written types of an item that names give a meaning to, in the order of the text. The
/// place in the list is the running number of a mention.
///
/// The types behind a path stand behind it, and a call's arguments behind those. The types in a type
/// have no numbers of their own. The names that an item declares, names after a dot, the words of
/// attributes and bounds, and the path of a `use` are none.
pub fn mentions(alloc: Global, item: &Item) -> Result<Vec<Mention<'_>>, AllocError>
    ensures mentions { IfOk result (λ list. told_mentions list.items ≡ item_mentions item.now) }
{
    let mut noted = Noted {
        list: Vec::new(alloc),
    };
    noted.kind(&item.kind)?;
    Ok(noted.list)
}
