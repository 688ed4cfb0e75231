//! Tests of the outside, the borrow core and the memory: `tb_base`, `tb_perm`, `tb_shape`, `tb_ranges`, `tb_bytes`, `tb_alloc`,
//! `tb_protect` and `tb_heap`.
//!
//! They stand above those crates, since a crate with tests of its own is proved twice.
#![tactic(auto)]

#[cfg(test)]
mod allocations;
#[cfg(test)]
mod bytes;
#[cfg(test)]
mod heaps;
#[cfg(test)]
mod keys;
#[cfg(test)]
mod outside;
#[cfg(test)]
mod permissions;
#[cfg(test)]
mod protectors;
#[cfg(test)]
mod runs;
