//! The tokens of a source.
//!
//! [`lex`] reads a text of the whole language: white space and comments, identifiers, keywords,
//! lifetimes, integers, characters, bytes, texts and punctuation, each token the longest that stands
//! at its place, or the first fault of the text with its code and place. The forms of tokens are
//! those of the Rust Reference, "Lexical structure", without floats and raw or byte texts.
#![tactic(auto)]

mod character;
mod comment;
mod decoded;
mod error;
mod keyword;
mod literal;
mod number;
mod punctuation;
mod scan;
mod source;
mod suffix;
mod token;
mod word;

pub use decoded::TextCharacter;
pub use error::LexError;
pub use keyword::Keyword;
pub use punctuation::Punctuation;
pub use source::lex;
pub use suffix::Suffix;
pub use token::{Integer, Name, Text, Token, TokenKind, Tokens};
