//! Tests of lowering and of runs: `tb_mir`, `tb_eval`, `tb_lower`, `tb_retag`, `tb_run` and `tb_diag`. Whole programs are cases of
//! `tb_cases`.
//!
//! They stand above those crates, since a crate with tests of its own is proved twice.
#![tactic(auto)]

#[cfg(test)]
mod lines;
#[cfg(test)]
mod lowering;
#[cfg(test)]
mod machines;
#[cfg(test)]
mod reports;
#[cfg(test)]
mod retags;
#[cfg(test)]
mod values;
