//! An order of the nodes of a graph in which each comes after those that it holds, or a node that reaches itself.
#![tactic(auto)]

mod marks;
mod nodes;
mod placing;
mod reach;
mod sorting;
#[cfg(test)]
mod tests;

pub use nodes::are_nodes;
pub use sorting::{Order, order_of};
