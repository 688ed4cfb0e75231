use crate::pruned::prune_tree;
use tb_perm::{AllocId, BorrowTree, PruneTree, Tag};
use tb_plain::PlainTree;
use tb_protect::Protectors;

/// A tree of tags that can be pruned: tags that pointers still have are noted, and then every tag goes that
/// nothing can tell from being there. No call takes memory, and none can be refused.
pub trait Prunable: BorrowTree {
    ghost use Rattle.std.specs.Prelude.{◌≡◌, ◌≢◌, ℕ, [], length, true};
    ghost use Rattle.tb_perm.specs.Rows.{HasTag, tags};
    ghost use Rattle.tb_perm.specs.Calls.{IsTree};
    ghost use Rattle.tb_perm.specs.Pruning.{is_noted};
    ghost use Rattle.tb_stands.specs.Folded.{Prunes, folded};
    ghost use Rattle.tb_prune.specs.Guards.{GuardsAre};

    /// Notes a tag that is reached.
    fn note_reached(&mut self, tag: Tag)
        requires { HasTag (Self.rows self.old) tag.0 }
        ensures rows { Self.rows self.new ≡ Self.rows self.old }
        ensures extent { Self.extent self.new ≡ Self.extent self.old }
        ensures noted { is_noted (Self.notes self.new) tag.0 ≡ true }
        ensures others { (other : ℕ) → other ≢ tag.0 → is_noted (Self.notes self.new) other ≡ is_noted (Self.notes self.old) other }
        ensures sound { IsTree (Self.extent self.new) (Self.rows self.new) (Self.notes self.new) };

    /// Takes out every tag but the root, the noted and the guarded ones, and those above them that cannot be
    /// left out. The notes are forgotten. The answer is how many tags stay.
    ///
    /// The tree is sound, as each call leaves it, and its guards are those of the running calls.
    fn prune(&mut self, alloc: AllocId, protectors: &Protectors) -> u64
        requires sound { IsTree (Self.extent self.old) (Self.rows self.old) (Self.notes self.old) }
        requires guards { GuardsAre protectors.now alloc (Self.rows self.old) }
        ensures left { Prunes (Self.extent self.old) (Self.notes self.old) (Self.rows self.old) (Self.rows self.new) }
        ensures tags { tags (Self.rows self.new) ≡ folded (Self.extent self.old) (Self.rows self.old) (Self.notes self.old) }
        ensures extent { Self.extent self.new ≡ Self.extent self.old }
        ensures notes { Self.notes self.new ≡ [] }
        ensures count { result ≡ length (Self.rows self.new) }
        ensures sound { IsTree (Self.extent self.new) (Self.rows self.new) (Self.notes self.new) };
}

impl Prunable for PlainTree {
    fn note_reached(&mut self, tag: Tag) {
        self.note(tag);
    }

    fn prune(&mut self, alloc: AllocId, protectors: &Protectors) -> u64 {
        prune_tree(self, alloc, protectors)
    }
}
