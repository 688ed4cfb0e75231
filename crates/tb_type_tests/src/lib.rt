//! Tests of types and their layouts: `tb_types` and `tb_layout`.
//!
//! They stand above those crates, since a crate with tests of its own is proved twice.
#![tactic(auto)]

#[cfg(test)]
mod layouts;
#[cfg(test)]
mod types;
