//! Tests of `tb_prune`: lists of events and prunes, and the tags that are left.
#![tactic(auto)]

#[cfg(test)]
mod pairs;
#[cfg(test)]
mod prunes;
