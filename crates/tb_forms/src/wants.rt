//! What operands and steps want to be read behind their first part.

ghost use Rattle.std.specs.Prelude.{◌≡◌};
ghost use Rattle.tb_forms.specs.Wants.{takes_values, wants, step_wants};

use crate::beginning::begins_expr;
use crate::front::Front;
use crate::levels::{LOOSEST_LEVEL, PREFIX_LEVEL, right_level};
use crate::place::Where;
use crate::step::Step;
use crate::wanted::Wanted;
use tb_ast::PrintText;
use tb_lex::Punctuation;
use tb_syntax::Cursor;

/// Whether a comma stands behind the text of a print, and so values may follow.
fn takes_values(text: &Option<PrintText>) -> bool
    ensures { result ≡ takes_values text.now }
{
    match text {
        Some(text) => text.comma.is_some(),
        None => false,
    }
}

impl Front {
    /// What an operand that begins so wants to be read next.
    ///
    /// In a condition its operand and what `return` gives stand in the condition too. `return` takes an
    /// expression where one begins.
    #[tactic(auto, unfolding(crate::specs::Wants::wants))]
    pub fn wants(&self, cursor: &Cursor<'_>, place: Where) -> Wanted
        ensures wants { result ≡ wants self.now place cursor.now }
    {
        match self {
            Front::StructLiteral { .. } => Wanted::Fields,
            Front::Call { .. } | Front::Paren { .. } => Wanted::Values {
                close: Punctuation::CloseParen,
            },
            Front::Bracket { .. } => Wanted::Values {
                close: Punctuation::CloseBracket,
            },
            Front::Block | Front::Unsafe { .. } | Front::Loop { .. } => Wanted::Body,
            Front::While { .. } => Wanted::Repeated,
            Front::If { .. } => Wanted::Chosen,
            Front::Return { .. } => {
                if begins_expr(cursor) {
                    return Wanted::One {
                        place,
                        most: LOOSEST_LEVEL,
                    };
                }
                Wanted::Nothing
            }
            Front::Print { text, .. } => {
                if takes_values(text) {
                    return Wanted::Values {
                        close: Punctuation::CloseParen,
                    };
                }
                Wanted::Nothing
            }
            Front::Assert { .. } => Wanted::One {
                place: Where::Anywhere,
                most: LOOSEST_LEVEL,
            },
            Front::Unary { .. } | Front::Borrow { .. } => Wanted::One {
                place,
                most: PREFIX_LEVEL,
            },
            _ => Wanted::Nothing,
        }
    }
}

impl Step {
    /// What a step that begins so wants to be read next, behind an operand that stands in this place.
    #[tactic(auto, unfolding(crate::specs::Wants::step_wants))]
    pub fn wants(&self, place: Where) -> Wanted
        ensures wants { result ≡ step_wants place self.now }
    {
        match self {
            Step::MethodCall { .. } => Wanted::Values {
                close: Punctuation::CloseParen,
            },
            Step::Index { .. } => Wanted::One {
                place: Where::Anywhere,
                most: LOOSEST_LEVEL,
            },
            Step::Binary { operator, .. } => Wanted::One {
                place,
                most: right_level(*operator),
            },
            Step::Assign { .. } | Step::AssignOp { .. } => Wanted::One {
                place,
                most: LOOSEST_LEVEL,
            },
            _ => Wanted::Nothing,
        }
    }
}
