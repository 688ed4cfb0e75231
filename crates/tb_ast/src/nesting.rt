//! How deep the nodes of a tree lie in one another.

ghost use Rattle.std.specs.Prelude.{◌≡◌, ◌+◌, map};
ghost use Rattle.std.specs.Option.{option_map};
ghost use Rattle.tb_ast.specs.Depth.{capped, deepest, or_none, type_depth, argument_depth, arguments_depth, turbofish_depth, note_depth, below, below_operator, depths_in, expr_depth, else_depth, field_depth, stmt_depth, block_depth, initializer_depth, member_depth, parameter_depth, result_depth, foreign_depth, kind_depth, item_depth, depth_of};

use crate::expression::{Block, Else, Expr, FieldValue, Initializer, Stmt};
use crate::item::{Field, ForeignFunction, Item, ItemKind, Parameter, ResultType, Tree};
use crate::written::{Turbofish, TypeArgument, TypeArguments, TypeExpr, TypeNote};
use sqlite_items::Boxed;

/// The depth of a node above others.
fn one_more(depth: u32) -> u32
    ensures { result ≡ capped (depth + 1) }
{
    if depth == u32::MAX { depth } else { depth + 1 }
}

/// How deep the types in a type lie in one another, itself included; like all depths 2^32 - 1 where
/// it is greater.
#[cycle(types)]
pub fn type_depth(ty: &TypeExpr) -> u32
    ensures depth { result ≡ capped (type_depth ty.now) }
{
    match ty {
        TypeExpr::Unit { .. } => 1,
        TypeExpr::Tuple { parts, .. } => one_more(types_depth(parts.as_slice())),
        TypeExpr::Slice { element: part, .. }
        | TypeExpr::Array { element: part, .. }
        | TypeExpr::Reference { target: part, .. }
        | TypeExpr::Pointer { target: part, .. } => one_more(type_depth(part.get())),
        TypeExpr::Path { arguments, .. } => one_more(optional_arguments_depth(arguments)),
    }
}

#[cycle(types)]
fn types_depth(types: &[TypeExpr]) -> u32
    ensures { result ≡ capped (deepest (map type_depth types.now)) }
{
    let mut depth = 0;
    for ty in types {
        depth = type_depth(ty).max(depth);
    }
    depth
}

#[cycle(types)]
fn optional_arguments_depth(arguments: &Option<TypeArguments>) -> u32
    ensures { result ≡ capped (or_none (option_map arguments_depth arguments.now)) }
{
    match arguments {
        Some(arguments) => arguments_depth(arguments.arguments.as_slice()),
        None => 0,
    }
}

#[cycle(types)]
fn arguments_depth(arguments: &[TypeArgument]) -> u32
    ensures { result ≡ capped (deepest (map argument_depth arguments.now)) }
{
    let mut depth = 0;
    for argument in arguments {
        depth = argument_depth(argument).max(depth);
    }
    depth
}

#[cycle(types)]
fn argument_depth(argument: &TypeArgument) -> u32
    ensures { result ≡ capped (argument_depth argument.now) }
{
    match argument {
        TypeArgument::Lifetime(_) => 0,
        TypeArgument::TypeExpr(ty) => type_depth(ty),
    }
}

fn turbofish_depth(turbofish: &Option<Turbofish>) -> u32
    ensures { result ≡ capped (turbofish_depth turbofish.now) }
{
    match turbofish {
        Some(turbofish) => types_depth(turbofish.types.as_slice()),
        None => 0,
    }
}

/// The depth of the type behind a name, or 0 where there is none.
pub fn note_depth(note: &Option<TypeNote>) -> u32
    ensures depth { result ≡ capped (note_depth note.now) }
{
    match note {
        Some(note) => type_depth(&note.ty),
        None => 0,
    }
}

/// How deep the nodes of an expression lie in one another, itself included. A bare block that stands
/// as an expression is one node.
#[cycle(expressions)]
pub fn expr_depth(e: &Expr) -> u32
    ensures depth { result ≡ capped (expr_depth e.now) }
{
    match e {
        Expr::Block(body) => block_depth(body),
        _ => one_more(depth_below(e)),
    }
}

/// The greatest depth of what lies in an expression.
#[cycle(expressions)]
fn depth_below(e: &Expr) -> u32
    ensures { result ≡ capped (below (depths_in e.now)) }
{
    match e {
        Expr::StructLiteral { fields, .. } => fields_depth(fields.as_slice()),
        Expr::Tuple { parts: list, .. }
        | Expr::Array { elements: list, .. }
        | Expr::Print {
            arguments: list,
            ..
        } => exprs_depth(list.as_slice()),
        Expr::Paren { inner: part, .. }
        | Expr::Repeat { element: part, .. }
        | Expr::Assert {
            condition: part,
            ..
        } => expr_depth(part.get()),
        Expr::Block(body) => block_depth(body),
        Expr::Unsafe { body, .. } | Expr::Loop { body, .. } => block_depth(body),
        Expr::While {
            condition,
            body,
            ..
        } => expr_depth(condition.get()).max(block_depth(body)),
        Expr::If {
            condition,
            body,
            otherwise,
            ..
        } => expr_depth(condition.get())
            .max(block_depth(body))
            .max(otherwise_depth(otherwise)),
        Expr::Return { value, .. } => optional_depth(value),
        Expr::Path(path) => turbofish_depth(&path.turbofish),
        _ => operands_depth(e),
    }
}

/// The greatest depth of what lies in a call or in an operator's expression.
#[cycle(expressions)]
fn operands_depth(e: &Expr) -> u32
    ensures { result ≡ capped (below_operator (depths_in e.now)) }
{
    match e {
        Expr::Field { base: part, .. }
        | Expr::TupleField { base: part, .. }
        | Expr::Unary { operand: part, .. }
        | Expr::Borrow { operand: part, .. } => expr_depth(part.get()),
        Expr::Cast { operand, ty, .. } => expr_depth(operand.get()).max(type_depth(ty)),
        Expr::Call {
            callee,
            arguments,
            ..
        } => turbofish_depth(&callee.turbofish).max(exprs_depth(arguments.as_slice())),
        Expr::MethodCall {
            receiver,
            turbofish,
            arguments,
            ..
        } => expr_depth(receiver.get())
            .max(turbofish_depth(turbofish))
            .max(exprs_depth(arguments.as_slice())),
        Expr::Index {
            base: left,
            index: right,
            ..
        }
        | Expr::Binary { left, right, .. }
        | Expr::Assign {
            target: left,
            value: right,
            ..
        }
        | Expr::AssignOp {
            target: left,
            value: right,
            ..
        } => expr_depth(left.get()).max(expr_depth(right.get())),
        _ => 0,
    }
}

#[cycle(expressions)]
fn exprs_depth(list: &[Expr]) -> u32
    ensures { result ≡ capped (deepest (map expr_depth list.now)) }
{
    let mut depth = 0;
    for e in list {
        depth = expr_depth(e).max(depth);
    }
    depth
}

#[cycle(expressions)]
fn optional_depth(e: &Option<Boxed<Expr>>) -> u32
    ensures { result ≡ capped (or_none (option_map expr_depth e.now)) }
{
    match e {
        Some(e) => expr_depth(e.get()),
        None => 0,
    }
}

#[cycle(expressions)]
fn fields_depth(fields: &[FieldValue]) -> u32
    ensures { result ≡ capped (deepest (map field_depth fields.now)) }
{
    let mut depth = 0;
    for field in fields {
        depth = field_depth(field).max(depth);
    }
    depth
}

#[cycle(expressions)]
fn field_depth(field: &FieldValue) -> u32
    ensures { result ≡ capped (field_depth field.now) }
{
    match field {
        FieldValue::Named { value, .. } => expr_depth(value),
        FieldValue::Short { .. } => 0,
    }
}

#[cycle(expressions)]
fn otherwise_depth(otherwise: &Option<Else>) -> u32
    ensures { result ≡ capped (or_none (option_map else_depth otherwise.now)) }
{
    match otherwise {
        Some(Else::ElseBlock { body, .. }) => block_depth(body),
        Some(Else::ElseIf { branch, .. }) => expr_depth(branch.get()),
        None => 0,
    }
}

/// How deep the nodes of a block lie in one another, itself included.
#[cycle(expressions)]
pub fn block_depth(block: &Block) -> u32
    ensures depth { result ≡ capped (block_depth block.now) }
{
    one_more(statements_depth(block.statements.as_slice()).max(optional_depth(&block.last)))
}

#[cycle(expressions)]
fn statements_depth(statements: &[Stmt]) -> u32
    ensures { result ≡ capped (deepest (map stmt_depth statements.now)) }
{
    let mut depth = 0;
    for statement in statements {
        depth = statement_depth(statement).max(depth);
    }
    depth
}

/// How deep the nodes of a statement lie in one another, itself included.
#[cycle(expressions)]
pub fn statement_depth(statement: &Stmt) -> u32
    ensures depth { result ≡ capped (stmt_depth statement.now) }
{
    match statement {
        Stmt::Empty { .. } => 1,
        Stmt::Let { ty, value, .. } => one_more(note_depth(ty).max(initializer_depth(value))),
        Stmt::Expr { expression, .. } => one_more(expr_depth(expression)),
        Stmt::Blocky { expression } => one_more(expr_depth(expression)),
    }
}

#[cycle(expressions)]
fn initializer_depth(initializer: &Option<Initializer>) -> u32
    ensures { result ≡ capped (or_none (option_map initializer_depth initializer.now)) }
{
    match initializer {
        Some(initializer) => expr_depth(&initializer.value),
        None => 0,
    }
}

fn members_depth(fields: &[Field]) -> u32
    ensures { result ≡ capped (deepest (map member_depth fields.now)) }
{
    let mut depth = 0;
    for field in fields {
        depth = type_depth(&field.ty).max(depth);
    }
    depth
}

/// The greatest depth of a parameter's type.
pub fn parameters_depth(parameters: &[Parameter]) -> u32
    ensures depth { result ≡ capped (deepest (map parameter_depth parameters.now)) }
{
    let mut depth = 0;
    for parameter in parameters {
        depth = type_depth(&parameter.ty).max(depth);
    }
    depth
}

/// The depth of a result's type, or 0 where there is none.
pub fn result_depth(output: &Option<ResultType>) -> u32
    ensures depth { result ≡ capped (result_depth output.now) }
{
    match output {
        Some(output) => type_depth(&output.ty),
        None => 0,
    }
}

fn foreign_depth(functions: &[ForeignFunction]) -> u32
    ensures { result ≡ capped (deepest (map foreign_depth functions.now)) }
{
    let mut depth = 0;
    for function in functions {
        depth = type_depth(&function.result.ty).max(depth);
    }
    depth
}

/// The greatest depth of a node of an item: of the types of fields, of a head's types, and of a
/// function's body.
pub fn kind_depth(kind: &ItemKind) -> u32
    ensures depth { result ≡ capped (kind_depth kind.now) }
{
    match kind {
        ItemKind::Use(_) => 0,
        ItemKind::Struct(item) => members_depth(item.fields.as_slice()),
        ItemKind::Function(function) => parameters_depth(function.parameters.as_slice())
            .max(result_depth(&function.result))
            .max(block_depth(&function.body)),
        ItemKind::Extern(block) => foreign_depth(block.functions.as_slice()),
    }
}

/// The greatest depth of a node of an item.
pub fn item_depth(item: &Item) -> u32
    ensures depth { result ≡ capped (item_depth item.now) }
{
    kind_depth(&item.kind)
}

/// The greatest depth of a node of a tree, or 2^32 - 1 where it is greater.
///
/// Expressions, statements, blocks and types are nodes. A node that lies in no other, as the body of
/// a function or the type of a field, has depth 1, and a node has one more than the node that it lies
/// in. A bare block is one node, and a tree without nodes has depth 0.
pub fn depth(tree: &Tree) -> u32
    ensures depth { result ≡ capped (depth_of tree.now) }
{
    let mut depth = 0;
    for item in tree.items.as_slice() {
        depth = item_depth(item).max(depth);
    }
    depth
}
