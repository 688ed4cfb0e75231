//! Trees as tokens.
//!
//! [`yield_of`] puts down the pieces of a tree in the order of the text, each with its place, and
//! joins those that are glued to the one before into the tokens that they are.
#![tactic(auto)]

mod expression_pieces;
mod item_pieces;
mod joining;
mod pieces;
mod written_pieces;

pub use joining::{law_apart, yield_of};
