use crate::new_tag::NewTag;
use crate::perm::Kind;
use crate::report::TreeError;
use crate::span::Span;
use crate::steps::Steps;
use crate::tag::Tag;
use std::alloc::{AllocError, Global};
use std::sync::ledger::Ledger;

/// The tags of one allocation and their states, which the events of the borrow model move.
///
/// In each call the tag that is named has a row. A call that a tag refuses changes nothing. After
/// running out of memory each byte's state of every earlier tag is the old or the new one, and the tree is
/// good to be dropped.
pub trait BorrowTree: Drop {
    ghost use Rattle.std.specs.Prelude.{◌≡◌, ℕ, ◌≤◌, ◌<◌, List, [], ◌∷◌, OnOk, IfOk, All, false};
    ghost use Rattle.tb_perm.specs.Rows.{Row, HasTag, root_row, unguarded};
    ghost use Rattle.tb_perm.specs.Answer.{Answers, OnBorrow, OnMemory, Between, BetweenOrMade};
    ghost use Rattle.tb_perm.specs.Calls.{IsTree, Continues};
    ghost use Rattle.tb_perm.specs.Access.{accessed, access_report};
    ghost use Rattle.tb_perm.specs.Reborrow.{AreCells, reborrowed, reborrowed_rows, reborrow_report, new_row};
    ghost use Rattle.tb_perm.specs.Release.{released, release_report};
    ghost use Rattle.tb_perm.specs.Deallocation.{deallocated, dealloc_report};
    ghost use Rattle.tb_perm.specs.Pruning.{is_noted};

    /// The rows of its tags.
    ghost rows: { Self → List Row };

    /// How many bytes the allocation has.
    ghost extent: { Self → ℕ };

    /// The tags that are noted for the next pruning. Each of them has a row.
    ghost notes: { Self → List ℕ };

    /// The tree of a new allocation: its root alone, Active and accessed at every byte.
    fn root(alloc: Global, size: u32, tag: Tag, made: Span) -> Result<Self, AllocError>
        ensures rows { IfOk result (λ tree. rows tree ≡ root_row tag.0 size made ∷ []) }
        ensures extent { IfOk result (λ tree. extent tree ≡ size) }
        ensures notes { IfOk result (λ tree. notes tree ≡ []) }
        ensures sound { IfOk result (λ tree. IsTree (extent tree) (rows tree) (notes tree)) };

    /// An access through the tag to the bytes from `lo` on, and up to before `hi`: every tag moves
    /// at each of these bytes by the permission table, or the access is refused.
    fn access<L: Ledger>(
        &mut self,
        tag: Tag,
        lo: u32,
        hi: u32,
        kind: Kind,
        steps: &mut Steps<L>,
    ) -> Result<(), TreeError>
        requires tag { HasTag (rows self.old) tag.0 }
        requires range { lo ≤ hi }
        requires end { hi ≤ extent self.old }

        ensures moved { OnOk result (rows self.new ≡ accessed (rows self.old) tag.0 lo hi kind) }
        ensures answer { Answers (access_report (rows self.old) (extent self.old) tag.0 lo hi kind) result }
        ensures refused { OnBorrow result (rows self.new ≡ rows self.old) }
        ensures torn { OnMemory result (Between (rows self.old) (accessed (rows self.old) tag.0 lo hi kind) (rows self.new)) }

        ensures continues { Continues rows extent notes self.old self.new }
        ensures counted { steps.old ≤ steps.new };

    /// A reborrow: a read through the parent at the bytes of the range that are not Cell, and then
    /// the new tag's row. The new tag is above all tags of the tree, and is not noted.
    fn retag<L: Ledger>(&mut self, new: NewTag, steps: &mut Steps<L>) -> Result<(), TreeError>
        requires parent { HasTag (rows self.old) new.parent.0 }
        requires above { All (λ (row : Row). row.tag < new.tag.0) (rows self.old) }
        requires range { new.lo ≤ new.hi }
        requires end { new.hi ≤ extent self.old }
        requires cells { AreCells new.lo new.hi new.cells }

        ensures moved { OnOk result (rows self.new ≡ reborrowed (rows self.old) (extent self.old) new) }
        ensures answer { Answers (reborrow_report (rows self.old) (extent self.old) new) result }
        ensures refused { OnBorrow result (rows self.new ≡ rows self.old) }
        ensures torn { OnMemory result (BetweenOrMade (rows self.old) (reborrowed_rows (rows self.old) new) (new_row (extent self.old) new) (rows self.new)) }
        ensures fresh { OnOk result (is_noted (notes self.new) new.tag.0 ≡ false) }

        ensures continues { Continues rows extent notes self.old self.new }
        ensures counted { steps.old ≤ steps.new };

    /// The tag's accesses at the end of the call that guards it: at each byte that it has accessed
    /// and that is not Cell, a write where it is Active there and else a read. The tags below it do
    /// not see them. Its guard stays.
    fn release<L: Ledger>(&mut self, tag: Tag, steps: &mut Steps<L>) -> Result<(), TreeError>
        requires { HasTag (rows self.old) tag.0 }

        ensures moved { OnOk result (rows self.new ≡ released (rows self.old) tag.0) }
        ensures answer { Answers (release_report (rows self.old) (extent self.old) tag.0) result }
        ensures refused { OnBorrow result (rows self.new ≡ rows self.old) }
        ensures torn { OnMemory result (Between (rows self.old) (released (rows self.old) tag.0) (rows self.new)) }

        ensures continues { Continues rows extent notes self.old self.new }
        ensures counted { steps.old ≤ steps.new };

    /// The tag's guard becomes Free.
    fn unguard(&mut self, tag: Tag)
        requires { HasTag (rows self.old) tag.0 }
        ensures rows { rows self.new ≡ unguarded (rows self.old) tag.0 }
        ensures continues { Continues rows extent notes self.old self.new };

    /// A deallocation through the tag: a write to all bytes, and then a strongly guarded tag
    /// refuses where it had accessed a byte that is not Cell.
    fn dealloc<L: Ledger>(&mut self, tag: Tag, steps: &mut Steps<L>) -> Result<(), TreeError>
        requires { HasTag (rows self.old) tag.0 }

        ensures moved { OnOk result (rows self.new ≡ deallocated (rows self.old) (extent self.old) tag.0) }
        ensures answer { Answers (dealloc_report (rows self.old) (extent self.old) tag.0) result }
        ensures refused { OnBorrow result (rows self.new ≡ rows self.old) }
        ensures torn { OnMemory result (Between (rows self.old) (deallocated (rows self.old) (extent self.old) tag.0) (rows self.new)) }

        ensures continues { Continues rows extent notes self.old self.new }
        ensures counted { steps.old ≤ steps.new };
}
