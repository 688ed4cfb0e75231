//! Tests of the rules of typing: that each call which may run out of memory gives its node where there is ample memory.
//!
//! They stand above the crates of the rules, since a crate with tests of its own is proved twice.
#![tactic(auto)]

#[cfg(test)]
mod calls;
#[cfg(test)]
mod rules;
#[cfg(test)]
mod wholes;
