use crate::borrow_tree::BorrowTree;
use crate::tag::Tag;

/// A tree of tags that can be pruned. Tags that pointers still name are noted. A tag that is not
/// noted can then be taken out where it is a leaf, or where its only child covers it at every byte.
///
/// No call changes how many bytes the tree has.
pub trait PruneTree: BorrowTree {
    ghost use Rattle.std.specs.Prelude.{◌≡◌, ◌≢◌, ◌≤◌, ◌<◌, ◌↔◌, ◌⊎◌, ℕ, [], All, IfSome, IfNone, IsSome, IsTrue, length, None, true};
    ghost use Rattle.tb_perm.specs.Rows.{Row, HasTag};
    ghost use Rattle.tb_perm.specs.Calls.{IsTree};
    ghost use Rattle.tb_perm.specs.Pruning.{is_noted, parent_in, IsLeaf, IsOnlyChild, Folds, removed, forgotten};

    /// Notes a tag for the next pruning.
    fn note(&mut self, tag: Tag)
        requires { HasTag (Self.rows self.old) tag.0 }
        ensures rows { Self.rows self.new ≡ Self.rows self.old }
        ensures extent { Self.extent self.new ≡ Self.extent self.old }
        ensures noted { is_noted (Self.notes self.new) tag.0 ≡ true }
        ensures others { (other : ℕ) → other ≢ tag.0 → is_noted (Self.notes self.new) other ≡ is_noted (Self.notes self.old) other }
        ensures sound { IsTree (Self.extent self.new) (Self.rows self.new) (Self.notes self.new) };

    /// Whether a tag is noted.
    fn noted(&self, tag: Tag) -> bool
        requires { HasTag (Self.rows self.now) tag.0 }
        ensures { result ≡ is_noted (Self.notes self.now) tag.0 };

    /// Forgets all notes.
    fn clear_notes(&mut self)
        ensures rows { Self.rows self.new ≡ Self.rows self.old }
        ensures extent { Self.extent self.new ≡ Self.extent self.old }
        ensures notes { Self.notes self.new ≡ [] }
        ensures sound { IsTree (Self.extent self.new) (Self.rows self.new) (Self.notes self.new) };

    /// The greatest tag.
    fn greatest(&self) -> Tag
        ensures there { HasTag (Self.rows self.now) result.0 }
        ensures greatest { All (λ (row : Row). row.tag ≤ result.0) (Self.rows self.now) };

    /// The greatest tag less than this one; none for the root alone, which is the least.
    fn below(&self, tag: Tag) -> Option<Tag>
        requires { HasTag (Self.rows self.now) tag.0 }
        ensures there { IfSome result (λ found. HasTag (Self.rows self.now) found.0) }
        ensures less { IfSome result (λ found. found.0 < tag.0) }
        ensures greatest { IfSome result (λ found. All (λ (row : Row). row.tag < tag.0 → row.tag ≤ found.0) (Self.rows self.now)) }
        ensures child { IfSome result (λ found. IsSome (parent_in (Self.rows self.now) tag.0)) }
        ensures root { IfNone result (parent_in (Self.rows self.now) tag.0 ≡ None) }
        ensures least { IfNone result (All (λ (row : Row). tag.0 ≤ row.tag) (Self.rows self.now)) };

    /// How many tags there are.
    fn count(&self) -> u64
        ensures { result ≡ length (Self.rows self.now) };

    /// Whether no tag has this one as its parent.
    fn is_leaf(&self, tag: Tag) -> bool
        requires { HasTag (Self.rows self.now) tag.0 }
        ensures { IsTrue result ↔ IsLeaf (Self.rows self.now) tag.0 };

    /// The one tag that has this one as its parent; none where there is no such tag or more than one.
    fn only_child(&self, tag: Tag) -> Option<Tag>
        requires { HasTag (Self.rows self.now) tag.0 }
        ensures only { IfSome result (λ child. IsOnlyChild (Self.rows self.now) tag.0 child.0) }
        ensures none { IfNone result ((child : ℕ) → ¬ IsOnlyChild (Self.rows self.now) tag.0 child) };

    /// Whether at every byte the child's permission, with this guard, covers the tag's.
    fn folds(&self, tag: Tag, child: Tag, guarded: bool) -> bool
        requires tag { HasTag (Self.rows self.now) tag.0 }
        requires child { HasTag (Self.rows self.now) child.0 }
        ensures { IsTrue result ↔ Folds (Self.rows self.now) (Self.extent self.now) tag.0 child.0 guarded };

    /// Takes out a tag that has a parent, and no child or one, which becomes its parent's child.
    fn remove(&mut self, tag: Tag)
        requires below { IsSome (parent_in (Self.rows self.old) tag.0) }
        requires alone { IsLeaf (Self.rows self.old) tag.0 ⊎ ((child : ℕ) × IsOnlyChild (Self.rows self.old) tag.0 child) }
        ensures rows { Self.rows self.new ≡ removed (Self.rows self.old) tag.0 }
        ensures extent { Self.extent self.new ≡ Self.extent self.old }
        ensures notes { Self.notes self.new ≡ forgotten (Self.notes self.old) tag.0 }
        ensures sound { IsTree (Self.extent self.new) (Self.rows self.new) (Self.notes self.new) };
}
