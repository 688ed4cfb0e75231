ghost use Rattle.std.specs.Prelude.{◌≡◌, ◌<◌, ◌≤◌, ◌++◌, ◌∷◌, [], ℕ, List, length, All, IfOk, OnOk, OnErr};
ghost use Rattle.tb_perm.specs.Rows.{Row, HasTag, IsRows, root_row, unguarded};
ghost use Rattle.tb_perm.specs.Answer.{Answers, OnBorrow, OnMemory};
ghost use Rattle.tb_perm.specs.Access.{accessed, access_report};
ghost use Rattle.tb_perm.specs.Reborrow.{AreCells, reborrowed, reborrow_report};
ghost use Rattle.tb_perm.specs.Release.{released, release_report};
ghost use Rattle.tb_perm.specs.Deallocation.{dealloc_report};
ghost use Rattle.tb_forest.specs.Forest.{tree_at, changed, felled};

use crate::places::{push, put, take};
use std::alloc::{AllocError, Global};
use std::marker::Model;
use std::sync::ledger::Ledger;
use tb_perm::{AllocId, BorrowTree, Kind, NewTag, Span, Steps, Tag, TreeError};

/// The trees of tags of all allocations. Contracts see the rows of each, and how many bytes it is for.
///
/// In each call on a tree the allocation was made, and the tag that is named has a row. A call that a tag refuses
/// changes nothing. After want of memory the tree is gone.
#[derive(Drop)]
pub struct Forest<T: BorrowTree> {
    trees: Vec<Option<T>>,
}

impl<T: BorrowTree> Model for Forest<T> {
    ghost use Rattle.std.specs.Prelude.{List, map};
    ghost use Rattle.tb_forest.specs.Forest.{TreeRows, tree_in, AreKept};

    ghost Value = { List TreeRows };

    ghost view = { λ f. map (tree_in T.rows T.extent) f.trees.items };

    ghost invariant = { λ f. AreKept T.rows T.extent T.notes f.trees.items };
}

impl<T: BorrowTree> Forest<T> {
    ghost use Rattle.tb_forest.specs.Forest.{TreeRows};

    /// No tree yet.
    pub fn new(alloc: Global) -> Forest<T>
        ensures { result ≡ [] }
    {
        Forest {
            trees: Vec::new(alloc),
        }
    }

    /// Makes the tree of the next allocation: its root alone. After want of memory nothing has changed.
    pub fn plant(
        &mut self,
        alloc: Global,
        size: u32,
        tag: Tag,
        made: Span,
    ) -> Result<(), AllocError>
        ensures ok { OnOk result (self.new ≡ self.old ++ record { size = size; rows = root_row tag.0 size made ∷ [] } ∷ []) }
        ensures err { OnErr result (self.new ≡ self.old) }
    {
        let tree = T::root(alloc, size, tag, made)?;
        push(&mut self.trees, tree)
    }

    /// Takes back the tree that was made last.
    pub fn uproot(&mut self)
        requires { 0 < length self.old }
        ensures { (front : List TreeRows) (last : TreeRows) → self.old ≡ front ++ last ∷ [] → self.new ≡ front }
    {
        let _tree = self.trees.pop();
    }

    /// An access through the tag to the bytes from `lo` to before `hi`.
    pub fn access<L: Ledger>(
        &mut self,
        id: AllocId,
        tag: Tag,
        lo: u32,
        hi: u32,
        kind: Kind,
        steps: &mut Steps<L>,
    ) -> Result<(), TreeError>
        requires number { 0 < id.0 }
        requires given { id.0 ≤ length self.old }
        requires tag { HasTag (tree_at self.old id.0).rows tag.0 }
        requires range { lo ≤ hi }
        requires end { hi ≤ (tree_at self.old id.0).size }
        ensures moved { OnOk result (self.new ≡ changed self.old id.0 (λ tree. accessed tree.rows tag.0 lo hi kind)) }
        ensures answer { Answers (access_report (tree_at self.old id.0).rows (tree_at self.old id.0).size tag.0 lo hi kind) result }
        ensures refused { OnBorrow result (self.new ≡ self.old) }
        ensures gone { OnMemory result (self.new ≡ felled self.old id.0) }
        ensures counted { steps.old ≤ steps.new }
    {
        let Some(mut tree) = take(&mut self.trees, id) else {
            unreachable!()
        };
        match tree.access(tag, lo, hi, kind, steps) {
            Ok(()) => {
                put(&mut self.trees, id, tree);
                Ok(())
            }
            Err(TreeError::Borrow(report)) => {
                put(&mut self.trees, id, tree);
                Err(TreeError::Borrow(report))
            }
            Err(TreeError::Memory) => Err(TreeError::Memory),
        }
    }

    /// A reborrow: a read through the parent at the bytes of the range that are not Cell, and then the new tag's row.
    /// The new tag is above all tags of the tree.
    pub fn retag<L: Ledger>(
        &mut self,
        id: AllocId,
        new: NewTag,
        steps: &mut Steps<L>,
    ) -> Result<(), TreeError>
        requires number { 0 < id.0 }
        requires given { id.0 ≤ length self.old }
        requires parent { HasTag (tree_at self.old id.0).rows new.parent.0 }
        requires above { All (λ (row : Row). row.tag < new.tag.0) (tree_at self.old id.0).rows }
        requires range { new.lo ≤ new.hi }
        requires end { new.hi ≤ (tree_at self.old id.0).size }
        requires cells { AreCells new.lo new.hi new.cells }
        ensures moved { OnOk result (self.new ≡ changed self.old id.0 (λ tree. reborrowed tree.rows tree.size new)) }
        ensures answer { Answers (reborrow_report (tree_at self.old id.0).rows (tree_at self.old id.0).size new) result }
        ensures refused { OnBorrow result (self.new ≡ self.old) }
        ensures gone { OnMemory result (self.new ≡ felled self.old id.0) }
        ensures counted { steps.old ≤ steps.new }
    {
        let Some(mut tree) = take(&mut self.trees, id) else {
            unreachable!()
        };
        match tree.retag(new, steps) {
            Ok(()) => {
                put(&mut self.trees, id, tree);
                Ok(())
            }
            Err(TreeError::Borrow(report)) => {
                put(&mut self.trees, id, tree);
                Err(TreeError::Borrow(report))
            }
            Err(TreeError::Memory) => Err(TreeError::Memory),
        }
    }

    /// The tag's accesses at the end of the call that guards it. Its guard stays.
    pub fn release<L: Ledger>(
        &mut self,
        id: AllocId,
        tag: Tag,
        steps: &mut Steps<L>,
    ) -> Result<(), TreeError>
        requires number { 0 < id.0 }
        requires given { id.0 ≤ length self.old }
        requires tag { HasTag (tree_at self.old id.0).rows tag.0 }
        ensures moved { OnOk result (self.new ≡ changed self.old id.0 (λ tree. released tree.rows tag.0)) }
        ensures answer { Answers (release_report (tree_at self.old id.0).rows (tree_at self.old id.0).size tag.0) result }
        ensures refused { OnBorrow result (self.new ≡ self.old) }
        ensures gone { OnMemory result (self.new ≡ felled self.old id.0) }
        ensures counted { steps.old ≤ steps.new }
    {
        let Some(mut tree) = take(&mut self.trees, id) else {
            unreachable!()
        };
        match tree.release(tag, steps) {
            Ok(()) => {
                put(&mut self.trees, id, tree);
                Ok(())
            }
            Err(TreeError::Borrow(report)) => {
                put(&mut self.trees, id, tree);
                Err(TreeError::Borrow(report))
            }
            Err(TreeError::Memory) => Err(TreeError::Memory),
        }
    }

    /// The tag's guard becomes Free.
    pub fn unguard(&mut self, id: AllocId, tag: Tag)
        requires number { 0 < id.0 }
        requires given { id.0 ≤ length self.old }
        requires tag { HasTag (tree_at self.old id.0).rows tag.0 }
        ensures { self.new ≡ changed self.old id.0 (λ tree. unguarded tree.rows tag.0) }
    {
        let Some(mut tree) = take(&mut self.trees, id) else {
            unreachable!()
        };
        tree.unguard(tag);
        put(&mut self.trees, id, tree);
    }

    /// A deallocation through the tag, after which the tree is gone.
    pub fn fell<L: Ledger>(
        &mut self,
        id: AllocId,
        tag: Tag,
        steps: &mut Steps<L>,
    ) -> Result<(), TreeError>
        requires number { 0 < id.0 }
        requires given { id.0 ≤ length self.old }
        requires tag { HasTag (tree_at self.old id.0).rows tag.0 }
        ensures done { OnOk result (self.new ≡ felled self.old id.0) }
        ensures answer { Answers (dealloc_report (tree_at self.old id.0).rows (tree_at self.old id.0).size tag.0) result }
        ensures refused { OnBorrow result (self.new ≡ self.old) }
        ensures gone { OnMemory result (self.new ≡ felled self.old id.0) }
        ensures counted { steps.old ≤ steps.new }
    {
        let Some(mut tree) = take(&mut self.trees, id) else {
            unreachable!()
        };
        match tree.dealloc(tag, steps) {
            Ok(()) => Ok(()),
            Err(TreeError::Borrow(report)) => {
                put(&mut self.trees, id, tree);
                Err(TreeError::Borrow(report))
            }
            Err(TreeError::Memory) => Err(TreeError::Memory),
        }
    }

    /// The tree is gone, if there is one.
    pub fn clear(&mut self, id: AllocId)
        requires number { 0 < id.0 }
        requires given { id.0 ≤ length self.old }
        ensures { self.new ≡ felled self.old id.0 }
    {
        let _tree = take(&mut self.trees, id);
    }

    /// The rows of each tree are those of an allocation with so many bytes.
    pub fn law_forest(&self)
        ensures { (number t : ℕ) → HasTag (tree_at self.now number).rows t → IsRows (tree_at self.now number).size (tree_at self.now number).rows }
    {
        let _ = &self.trees;
    }
}
