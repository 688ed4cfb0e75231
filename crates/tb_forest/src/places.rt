//! The trees of allocations, that of the one with the number n at place n - 1.
ghost use Rattle.std.specs.Prelude.{◌≡◌, ◌<◌, ◌≤◌, ◌++◌, ◌∷◌, [], length, Some, None, OnOk, OnErr};
ghost use Rattle.tb_store.specs.Store.{nth, with_nth};

use std::alloc::AllocError;
use tb_perm::{AllocId, BorrowTree};

/// Puts the tree of one more allocation. After want of memory nothing has changed.
pub fn push<T: BorrowTree>(trees: &mut Vec<Option<T>>, tree: T) -> Result<(), AllocError>
    ensures ok { OnOk result (trees.new.items ≡ trees.old.items ++ Some tree ∷ []) }
    ensures err { OnErr result (trees.new.items ≡ trees.old.items) }
{
    match trees.push(Some(tree)) {
        Ok(()) => Ok(()),
        Err(_) => Err(AllocError),
    }
}

/// Takes out the tree of an allocation.
#[tactic(auto, using(crate::proofs::Taking::taken_there, crate::proofs::Taking::taken_rest))]
pub fn take<T: BorrowTree>(trees: &mut Vec<Option<T>>, id: AllocId) -> Option<T>
    requires number { 0 < id.0 }
    requires given { id.0 ≤ length trees.old.items }
    ensures tree { result ≡ nth trees.old.items id.0 None }
    ensures trees { trees.new.items ≡ with_nth trees.old.items id.0 None }
{
    trees[(id.0 - 1) as usize].take()
}

/// Puts the tree of an allocation.
#[tactic(auto, using(crate::proofs::Taking::put_there))]
pub fn put<T: BorrowTree>(trees: &mut Vec<Option<T>>, id: AllocId, tree: T)
    requires number { 0 < id.0 }
    requires given { id.0 ≤ length trees.old.items }
    ensures { trees.new.items ≡ with_nth trees.old.items id.0 (Some tree) }
{
    trees[(id.0 - 1) as usize] = Some(tree);
}
