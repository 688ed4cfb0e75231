//! Tests of what lazy trees are made of: the walk of an event through a tree of tags, `tb_walk`, rows with states and
//! marks as runs, `tb_lazy_rows`, and how they meet an event, `tb_lazy_events`.
//!
//! They stand above those crates, since a crate with tests of its own is proved twice.
#![tactic(auto)]

#[cfg(test)]
mod marked;
#[cfg(test)]
mod meetings;
#[cfg(test)]
mod rows;
#[cfg(test)]
mod walks;
