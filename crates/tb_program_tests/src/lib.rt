//! Tests of the middle representation and its text: `tb_program`.
//!
//! They stand above that crate, since a crate with tests of its own is proved twice.
#![tactic(auto)]

#[cfg(test)]
mod texts;
