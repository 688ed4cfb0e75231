//! The rules of typing for control flow, over typed parts: blocks, branches, loops, jumps, statements and prints.
#![tactic(auto)]

mod blocks;
mod branches;
mod jumps;
mod printing;
mod repeating;
mod statements;

pub use blocks::block;
pub use branches::{if_else, if_then, second_want};
pub use jumps::{break_of, continue_of, panic_of, return_of};
pub use printing::{assert_of, print_of};
pub use repeating::{endless, while_of};
pub use statements::{let_of, let_type, statement};
