//! What is wrong with a use of a variable.

ghost use Rattle.std.specs.Prelude.{◌≡◌};
ghost use Rattle.tb_moves.specs.Moves.{span_of, code_of, rank_of, key_of, earliest};

use tb_perm::{Code, Span};

/// Why a program is refused.
#[derive(Clone, Copy, Debug, PartialEq, Eq)]
pub enum MoveError {
    /// A variable is used here, and on some way it has no value.
    NotInitialised(Span),
    /// A variable is used here, and on some way the last that happened to it is that it was moved.
    UsedAfterMove(Span),
    /// A field, an element or what a pointer leads to is read here, and its type is not `Copy`.
    MoveOutOfAPart(Span),
}

impl MoveError {
    /// The code of the refusal.
    pub fn code(self) -> Code
        ensures code { result ≡ code_of self }
    {
        match self {
            MoveError::NotInitialised(_) => Code::NotInitialised,
            MoveError::UsedAfterMove(_) => Code::UsedAfterMove,
            MoveError::MoveOutOfAPart(_) => Code::MoveOutOfAPart,
        }
    }

    /// The name of the variable there, or the place that is read.
    pub fn span(self) -> Span
        ensures span { result ≡ span_of self }
    {
        match self {
            MoveError::NotInitialised(span)
            | MoveError::UsedAfterMove(span)
            | MoveError::MoveOutOfAPart(span) => span,
        }
    }

    /// Where it comes among others: by where it begins, and then by what it is.
    fn key(self) -> u64
        ensures { result ≡ key_of self }
    {
        3 * (self.span().lo as u64) + self.rank()
    }

    fn rank(self) -> u64
        ensures { result ≡ rank_of self }
    {
        match self {
            MoveError::UsedAfterMove(_) => 0,
            MoveError::NotInitialised(_) => 1,
            MoveError::MoveOutOfAPart(_) => 2,
        }
    }
}

/// The one that comes first.
pub fn earliest(one: Option<MoveError>, other: Option<MoveError>) -> Option<MoveError>
    ensures { result ≡ earliest one other }
{
    match (one, other) {
        (Some(first), Some(second)) => if second.key() < first.key() {
            other
        } else {
            one
        },
        (Some(_), None) => one,
        (None, _) => other,
    }
}
