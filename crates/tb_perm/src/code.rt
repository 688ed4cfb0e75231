//! The codes of refusals.

ghost use Rattle.std.specs.Prelude.{◌≡◌};
ghost use Rattle.tb_perm.specs.Codes.{printed, printed_pair};

/// The code of a refusal, under which a report names it.
#[derive(Clone, Copy, Debug, PartialEq, Eq)]
pub enum Code {
    /// The text is not UTF-8.
    NotUtf8,
    /// A character with which no token begins.
    UnknownCharacter,
    /// A character, byte or text literal that is empty where a character is due, has a bad escape,
    /// or does not end.
    BadLiteral,
    /// A block comment that does not end.
    UnfinishedComment,
    /// A number without a digit, with a digit outside its base, or above 2^64 - 1.
    BadNumber,
    /// A number followed by identifier characters that are no suffix.
    UnknownSuffix,
    /// A token with which nothing that is due begins or goes on.
    UnexpectedToken,
    /// The same, where from the refused token on, after some token, more than 100 more brackets were
    /// opened than closed, of all kinds together.
    TooDeeplyNested,
    /// No function `main` without parameters and result.
    NoMainFunction,
    /// A name, path or word that nothing in scope has.
    UnknownName,
    /// A name that an item, field or parameter beside it has too, or that is built in.
    NameGivenTwice,
    /// A struct that holds itself other than behind a reference or a raw pointer.
    TypeHoldsItself,
    /// More items, or parts of an item, than the limits allow.
    TooManyParts,
    /// A type other than the expected one, without a coercion.
    WrongType,
    /// The target of an assignment is no place.
    NotAPlace,
    /// What is assigned to, or borrowed with `mut`, is not mutable.
    NotMutable,
    /// An unsafe operation outside `unsafe`.
    NeedsUnsafe,
    /// Another number of arguments, parts or type arguments than is due.
    WrongNumber,
    /// A field or method that the type does not have.
    NoSuchFieldOrCall,
    /// An integer literal that its type cannot hold.
    LiteralOutOfRange,
    /// An operator that the type of its operand does not have.
    OperatorNotForType,
    /// A cast between types that have none.
    CastNotAllowed,
    /// An expression from which no type follows.
    TypeNotKnown,
    /// A `break` or `continue` that no loop is around.
    OutsideALoop,
    /// A format text whose braces do not fit its arguments.
    BadFormatText,
    /// A type that may not stand where it does.
    TypeNotAllowedHere,
    /// A type with a size, a number of parts or a number of levels beyond the limits.
    TypeTooLarge,
    /// A use of a variable that on some way has no value.
    NotInitialised,
    /// A use of a variable that on some way was moved from.
    UsedAfterMove,
    /// A move out of a field, an element or what a pointer leads to.
    MoveOutOfAPart,
    /// Another number of type arguments than the called function has type parameters.
    WrongTypeArguments,
    /// More instances of generic functions than the limits allow.
    TooManyInstances,
    /// A type argument with more nodes than the limits allow.
    TypeArgumentTooLarge,
    /// A function with more than 4,096 locals.
    TooManyLocals,
    /// The source has more than 1,048,576 bytes.
    SourceTooLong,
    /// The source is outside the part of the language that is built so far.
    NotBuilt,
}

impl Code {
    /// The code as a report prints it, as `L1`.
    pub fn name(self) -> &'static str
        ensures name { result.now ≡ (printed self).name }
    {
        self.printed().0
    }

    /// The words that a report prints behind the code.
    pub fn text(self) -> &'static str
        ensures text { result.now ≡ (printed self).text }
    {
        self.printed().1
    }

    /// The code as a report prints it, and the words behind it.
    fn printed(self) -> (&'static str, &'static str)
        ensures printed { printed_pair result.0.now result.1.now ≡ printed self }
    {
        match self {
            Code::NotUtf8 => ("L1", "not UTF-8"),
            Code::UnknownCharacter => ("L2", "unknown character"),
            Code::BadLiteral => ("L3", "bad literal"),
            Code::UnfinishedComment => ("L4", "unfinished comment"),
            Code::BadNumber => ("L5", "bad number"),
            Code::UnknownSuffix => ("L6", "unknown suffix"),
            Code::UnexpectedToken => ("P1", "unexpected token"),
            Code::TooDeeplyNested => ("P2", "nested too deeply"),
            Code::NoMainFunction => ("N1", "no main function"),
            Code::UnknownName => ("N2", "unknown name"),
            Code::NameGivenTwice => ("N3", "name given twice"),
            Code::TypeHoldsItself => ("N4", "type holds itself"),
            Code::TooManyParts => ("N5", "too many parts"),
            Code::WrongType => ("T1", "wrong type"),
            Code::NotAPlace => ("T2", "not a place"),
            Code::NotMutable => ("T3", "not mutable"),
            Code::NeedsUnsafe => ("T4", "needs unsafe"),
            Code::WrongNumber => ("T5", "wrong number"),
            Code::NoSuchFieldOrCall => ("T6", "no such field or call"),
            Code::LiteralOutOfRange => ("T7", "literal out of range"),
            Code::OperatorNotForType => ("T8", "operator not for this type"),
            Code::CastNotAllowed => ("T9", "cast not allowed"),
            Code::TypeNotKnown => ("T10", "type not known"),
            Code::OutsideALoop => ("T11", "outside a loop"),
            Code::BadFormatText => ("T12", "bad format text"),
            Code::TypeNotAllowedHere => ("T13", "type not allowed here"),
            Code::TypeTooLarge => ("T14", "type too large"),
            Code::NotInitialised => ("M1", "not initialised"),
            Code::UsedAfterMove => ("M2", "used after move"),
            Code::MoveOutOfAPart => ("M3", "move out of a part"),
            Code::WrongTypeArguments => ("G1", "wrong type arguments"),
            Code::TooManyInstances => ("G2", "too many instances"),
            Code::TypeArgumentTooLarge => ("G3", "type argument too large"),
            Code::TooManyLocals => ("S1", "too many locals"),
            Code::SourceTooLong => ("S2", "source too long"),
            Code::NotBuilt => ("U1", "not built yet"),
        }
    }
}
