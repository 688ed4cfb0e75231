//! Pruning: tags that no pointer can use any more are taken out of a tree.
#![tactic(auto)]

mod folded;
mod guards;
mod prunable;
mod pruned;
mod visit;

pub use folded::law_folded;
pub use guards::law_guards;
pub use prunable::Prunable;
