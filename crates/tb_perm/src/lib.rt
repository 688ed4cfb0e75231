//! What the crates of the interpreter share: places of the source text, the codes of refusals, and
//! the rules of the borrow model: tags, permissions, the permission table, and the trait of a tree
//! of tags.
//!
//! The rules are made after Tree Borrows (Villani, Hostert, Dreyer, Jung, PLDI 2025). Each byte of
//! an allocation has, for each tag, a [`State`]; an access moves the states of all tags at its
//! bytes by [`step`], or is refused with a [`Report`].
#![tactic(auto)]

mod borrow_tree;
mod call_end;
mod code;
mod covers;
mod moves;
mod new_tag;
mod perm;
mod prune_tree;
mod report;
mod span;
mod steps;
mod table;
mod tag;

pub use borrow_tree::BorrowTree;
pub use call_end::law_call_end;
pub use code::Code;
pub use covers::{implies, law_covers};
pub use moves::{step, strength};
pub use new_tag::{CellRange, NewTag};
pub use perm::{Guard, Kind, Mark, Perm, Rel, State};
pub use prune_tree::PruneTree;
pub use report::{Access, Refusal, Report, TreeError};
pub use span::Span;
pub use steps::Steps;
pub use table::{Table, TableRow};
pub use tag::{AllocId, Prov, Tag};
