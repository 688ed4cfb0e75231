ghost use Rattle.std.specs.Prelude.{◌≡◌, ◌≤◌, ℕ, List, Option, None, true, false};
ghost use Rattle.tb_perm.specs.declared.perm.Kind.{Kind};
ghost use Rattle.tb_perm.specs.declared.perm.Mark.{Mark};
ghost use Rattle.tb_perm.specs.declared.perm.Rel.TheVariants.{Foreign};
ghost use Rattle.tb_perm.specs.Marked.{level};
ghost use Rattle.tb_perm.specs.Event.{moved_state, refusal_of};
ghost use Rattle.tb_shape.specs.Tree.{Keys, IsKeys, HasKey, IsPath, with_child};
ghost use Rattle.tb_marks.specs.Marks.{AtByte, AreSound};
ghost use Rattle.tb_marks.specs.Event.{contains, leaves_at, visited, IsShut, IsVisit};
ghost use Rattle.tb_marks.specs.Stages.{IsStage};
ghost use Rattle.tb_marks.specs.Changes.{IsWithin, IsLesser, IsMade};

/// Where marks are sound, an event can pass by a tag that is shut off: it would change nothing there, and the tag
/// would not refuse it.
pub fn law_shut()
    ensures still { (tree : Keys) (path : List ℕ) (kind : Option Kind) (tags : AtByte) (key : ℕ) → AreSound tree tags → IsShut tree path kind tags key → moved_state kind (tags.guarded key) Foreign (tags.state key) ≡ tags.state key }
    ensures silent { (tree : Keys) (path : List ℕ) (kind : Option Kind) (tags : AtByte) (key : ℕ) → AreSound tree tags → IsShut tree path kind tags key → refusal_of kind (tags.guarded key) Foreign (tags.state key) ≡ None }
{}

/// An event leaves marks that are sound again, and that shut off all that it has visited off its way.
pub fn law_visited()
    ensures sound { (tree : Keys) (path keys : List ℕ) (kind : Option Kind) (tags : AtByte) → AreSound tree tags → IsVisit tree path keys kind tags → AreSound tree (visited path keys kind tags) }
    ensures raised { (tree : Keys) (path keys : List ℕ) (kind : Option Kind) (tags : AtByte) (key : ℕ) → IsVisit tree path keys kind tags → contains keys key ≡ true → leaves_at kind ((visited path keys kind tags).mark key) ≡ true }
    ensures never_less { (path keys : List ℕ) (kind : Option Kind) (tags : AtByte) (key : ℕ) → contains path key ≡ false → level (tags.mark key) ≤ level ((visited path keys kind tags).mark key) }
{}

/// Marks are also sound where an event had to be broken off.
pub fn law_broken_off()
    ensures { (tree : Keys) (path keys : List ℕ) (kind : Option Kind) (tags now : AtByte) → AreSound tree tags → IsVisit tree path keys kind tags → IsStage tree path keys kind tags now → AreSound tree now }
{}

/// Marks stay sound where marks promise less, guards go, or the tree has less above each tag, as when tags are taken
/// out of it.
pub fn law_lesser()
    ensures { (tree now_tree : Keys) (tags now : AtByte) → AreSound tree tags → IsWithin now_tree tree → IsLesser tags now → AreSound now_tree now }
{}

/// Marks stay sound when a tag is made, if none of its ancestors promises more than holds of the new tag.
pub fn law_made()
    ensures { (tree : Keys) (root parent key : ℕ) (path : List ℕ) (floor : Mark) (tags now : AtByte) → IsKeys tree root → (HasKey tree key → ⊥) → AreSound tree tags → IsPath tree parent path → IsMade path key floor tags now → AreSound (with_child parent key tree) now }
{}
