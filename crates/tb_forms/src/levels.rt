//! How tightly operators bind.
//!
//! The levels are those of the Rust Reference, section "Expression precedence", as far as this
//! language has them, from the tightest to the loosest:
//!
//! | level | forms                                                       | operands                     |
//! |-------|-------------------------------------------------------------|------------------------------|
//! | 1     | literals, paths, what closes itself, calls, `.`, `[`        | 1 before a `.` or a `[`      |
//! | 2     | `-` `!` `*` `&` before an operand                           | 2                            |
//! | 3     | `as`                                                        | 3 on the left                |
//! | 4     | `*` `/` `%`                                                 | 4 on the left, 3 on the right |
//! | 5     | `+` `-`                                                     | 5 and 4                      |
//! | 6     | `<<` `>>`                                                   | 6 and 5                      |
//! | 7     | `&`                                                         | 7 and 6                      |
//! | 8     | `^`                                                         | 8 and 7                      |
//! | 9     | `\|`                                                        | 9 and 8                      |
//! | 10    | `==` `!=` `<` `>` `<=` `>=`                                 | 9 and 9: they are not chained |
//! | 11    | `&&`                                                        | 11 and 10                    |
//! | 12    | `\|\|`                                                      | 12 and 11                    |
//! | 13    | `=`, `+=` and the like                                      | 12 on the left, 13 on the right |
//!
//! An operand may bind as tightly as its place asks or tighter. So operators of one level group to the
//! left, but for assignments.

ghost use Rattle.std.specs.Prelude.{◌≡◌};
ghost use Rattle.tb_forms.specs.Levels.{binary_level, right_level, level_of, binary_of, assign_of, mark_level, level_at, loosest_left, takes_on, goes_on};

use tb_ast::{AssignOp, BinaryOp, Expr};
use tb_lex::{Keyword, Punctuation};
use tb_syntax::Cursor;

/// Below all levels: an operand alone.
pub const OPERAND_ALONE: u32 = 0;

/// The level of what closes itself, and of `.` and `[` behind an operand.
const TIGHTEST_LEVEL: u32 = 1;

/// The level of a prefix, and of what it stands before.
pub(crate) const PREFIX_LEVEL: u32 = 2;

/// The level of `as`.
const CAST_LEVEL: u32 = 3;

/// The loosest level of what is compared.
const COMPARED_LEVEL: u32 = 9;

/// The level of comparisons.
const COMPARISON_LEVEL: u32 = 10;

/// The loosest level of what is assigned to.
const TARGET_LEVEL: u32 = 12;

/// The loosest level: an assignment.
pub const LOOSEST_LEVEL: u32 = 13;

/// The level of an operator between two operands.
pub(crate) fn binary_level(operator: BinaryOp) -> u32
    ensures { result ≡ binary_level operator }
{
    match operator {
        BinaryOp::Mul | BinaryOp::Div | BinaryOp::Rem => 4,
        BinaryOp::Add | BinaryOp::Sub => 5,
        BinaryOp::Shl | BinaryOp::Shr => 6,
        BinaryOp::BitAnd => 7,
        BinaryOp::BitXor => 8,
        BinaryOp::BitOr => 9,
        BinaryOp::Eq | BinaryOp::Ne | BinaryOp::Lt | BinaryOp::Gt | BinaryOp::Le | BinaryOp::Ge =>
            10,
        BinaryOp::And => 11,
        BinaryOp::Or => 12,
    }
}

/// The loosest level on the right of an operator: one below its own, so that it groups to the left.
pub fn right_level(operator: BinaryOp) -> u32
    ensures level { result ≡ right_level operator }
{
    binary_level(operator).saturating_sub(1)
}

/// The level of an expression.
fn level_of(e: &Expr) -> u32
    ensures { result ≡ level_of e.now }
{
    match e {
        Expr::Unary { .. } | Expr::Borrow { .. } => PREFIX_LEVEL,
        Expr::Cast { .. } => CAST_LEVEL,
        Expr::Binary { operator, .. } => binary_level(*operator),
        Expr::Assign { .. } | Expr::AssignOp { .. } => LOOSEST_LEVEL,
        _ => TIGHTEST_LEVEL,
    }
}

/// The operator between two operands that a mark is.
pub(crate) fn binary_of(mark: Punctuation) -> Option<BinaryOp>
    ensures { result ≡ binary_of mark }
{
    match mark {
        Punctuation::Star => Some(BinaryOp::Mul),
        Punctuation::Slash => Some(BinaryOp::Div),
        Punctuation::Percent => Some(BinaryOp::Rem),
        Punctuation::Plus => Some(BinaryOp::Add),
        Punctuation::Minus => Some(BinaryOp::Sub),
        Punctuation::Shl => Some(BinaryOp::Shl),
        Punctuation::Shr => Some(BinaryOp::Shr),
        Punctuation::And => Some(BinaryOp::BitAnd),
        Punctuation::Caret => Some(BinaryOp::BitXor),
        Punctuation::Or => Some(BinaryOp::BitOr),
        Punctuation::EqEq => Some(BinaryOp::Eq),
        Punctuation::Ne => Some(BinaryOp::Ne),
        Punctuation::Lt => Some(BinaryOp::Lt),
        Punctuation::Gt => Some(BinaryOp::Gt),
        Punctuation::Le => Some(BinaryOp::Le),
        Punctuation::Ge => Some(BinaryOp::Ge),
        Punctuation::AndAnd => Some(BinaryOp::And),
        Punctuation::OrOr => Some(BinaryOp::Or),
        _ => None,
    }
}

/// The operator that a mark is which computes and assigns.
pub(crate) fn assign_of(mark: Punctuation) -> Option<AssignOp>
    ensures { result ≡ assign_of mark }
{
    match mark {
        Punctuation::StarEq => Some(AssignOp::Mul),
        Punctuation::SlashEq => Some(AssignOp::Div),
        Punctuation::PercentEq => Some(AssignOp::Rem),
        Punctuation::PlusEq => Some(AssignOp::Add),
        Punctuation::MinusEq => Some(AssignOp::Sub),
        Punctuation::ShlEq => Some(AssignOp::Shl),
        Punctuation::ShrEq => Some(AssignOp::Shr),
        Punctuation::AndEq => Some(AssignOp::BitAnd),
        Punctuation::CaretEq => Some(AssignOp::BitXor),
        Punctuation::OrEq => Some(AssignOp::BitOr),
        _ => None,
    }
}

/// The level of an expression that goes on with a mark, if one does.
fn mark_level(mark: Punctuation) -> Option<u32>
    ensures { result ≡ mark_level mark }
{
    match mark {
        Punctuation::Dot | Punctuation::OpenBracket => Some(TIGHTEST_LEVEL),
        Punctuation::Eq => Some(LOOSEST_LEVEL),
        other => match binary_of(other) {
            Some(operator) => Some(binary_level(operator)),
            None => match assign_of(other) {
                Some(_) => Some(LOOSEST_LEVEL),
                None => None,
            },
        },
    }
}

/// The loosest left operand of an expression of this level: comparisons are not chained, and assignments
/// group to the right.
fn loosest_left(level: u32) -> u32
    ensures { result ≡ loosest_left level }
{
    if level == COMPARISON_LEVEL {
        return COMPARED_LEVEL;
    }
    if level == LOOSEST_LEVEL {
        return TARGET_LEVEL;
    }
    level
}

/// Whether an expression of this level is the left operand of one of the next level, up to a level.
fn takes_on(level: u32, most: u32, next: Option<u32>) -> bool
    ensures { result ≡ takes_on level most next }
{
    match next {
        Some(next) => {
            let loosest = loosest_left(next);
            next <= most && level <= loosest
        }
        None => false,
    }
}

/// The level of an expression that goes on with what comes next, if one does.
fn level_at(cursor: &Cursor<'_>) -> Option<u32>
    ensures { result ≡ level_at cursor.now }
{
    match cursor.first_mark() {
        Some((mark, _, _)) => mark_level(mark),
        None => {
            if cursor.has_keyword(Keyword::As) {
                return Some(CAST_LEVEL);
            }
            None
        }
    }
}

/// Whether this expression goes on with what comes next: with `.`, `[`, `as` or an operator that takes it as
/// its left operand, and makes an expression up to the level `most`.
#[tactic(auto, unfolding(crate::specs::Levels::goes_on))]
pub fn goes_on(e: &Expr, cursor: &Cursor<'_>, most: u32) -> bool
    ensures goes_on { result ≡ goes_on (level_of e.now) most cursor.now }
{
    let level = level_of(e);
    let next = level_at(cursor);
    takes_on(level, most, next)
}
