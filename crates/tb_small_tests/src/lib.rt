//! Tests of the reader of small programs, `tb_small`.
//!
//! They stand above that crate, since a crate with tests of its own is proved twice.
#![tactic(auto)]

#[cfg(test)]
mod small_programs;
