//! Tests of values as bytes and of the heap over them: `tb_value`, `tb_new_tag`, `tb_store`, `tb_forest`, `tb_events`,
//! `tb_memory`.
//!
//! They stand above those crates, since a crate with tests of its own is proved twice.
#![tactic(auto)]

#[cfg(test)]
mod heaps;
#[cfg(test)]
mod retags;
#[cfg(test)]
mod types;
#[cfg(test)]
mod values;
