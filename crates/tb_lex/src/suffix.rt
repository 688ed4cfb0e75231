//! The suffixes of integers.

ghost use Rattle.std.specs.Prelude.{◌≡◌};
ghost use Rattle.tb_lex.specs.Tables.{first_written, suffix_text, suffix_of};

use crate::character::is_text;

/// The type that an integer names behind its digits.
#[derive(Clone, Copy, Debug, PartialEq, Eq)]
pub enum Suffix {
    I8,
    I16,
    I32,
    I64,
    Isize,
    U8,
    U16,
    U32,
    U64,
    Usize,
}

/// All suffixes.
const SUFFIXES: [Suffix; 10] = [
    Suffix::I8,
    Suffix::I16,
    Suffix::I32,
    Suffix::I64,
    Suffix::Isize,
    Suffix::U8,
    Suffix::U16,
    Suffix::U32,
    Suffix::U64,
    Suffix::Usize,
];

impl Suffix {
    /// How the suffix is written.
    pub fn text(self) -> &'static str
        ensures { result.now ≡ suffix_text self }
    {
        match self {
            Suffix::I8 => "i8",
            Suffix::I16 => "i16",
            Suffix::I32 => "i32",
            Suffix::I64 => "i64",
            Suffix::Isize => "isize",
            Suffix::U8 => "u8",
            Suffix::U16 => "u16",
            Suffix::U32 => "u32",
            Suffix::U64 => "u64",
            Suffix::Usize => "usize",
        }
    }
}

/// The first of these that is written as the word.
fn first_written(suffixes: &[Suffix], word: &[char]) -> Option<Suffix>
    ensures { result ≡ first_written suffix_text suffixes.now word.now }
{
    for suffix in suffixes {
        if is_text(word, suffix.text()) {
            return Some(*suffix);
        }
    }
    None
}

/// The suffix that a word is, if it is one.
#[tactic(auto, unfolding(crate::specs::Tables::suffix_of))]
pub fn suffix_of(word: &[char]) -> Option<Suffix>
    ensures { result ≡ suffix_of word.now }
{
    first_written(&SUFFIXES, word)
}
