ghost use Rattle.std.specs.Prelude.{◌≡◌, ◌<◌, ℕ, cond, List, Option, None, true, false, length};
ghost use Rattle.std.specs.List.{AllByRecursion};
ghost use Rattle.tb_perm.specs.declared.perm.Kind.{Kind};
ghost use Rattle.tb_perm.specs.declared.perm.Rel.TheVariants.{Local, Foreign};
ghost use Rattle.tb_perm.specs.Event.{moved_state, refusal_of};
ghost use Rattle.tb_perm.specs.Marked.{leaves_alone, Marked};
ghost use Rattle.tb_plain.specs.Plain.{IsPlain};
ghost use Rattle.tb_lazy_rows.specs.declared.row.LazyRow.{LazyRow};
ghost use Rattle.tb_lazy_events.specs.Seen.{plain_rows, seen_in};
ghost use Rattle.tb_shape.specs.Tree.{Keys, HasKey, IsPath};
ghost use Rattle.tb_marks.specs.Marks.{AtByte, AreSound};
ghost use Rattle.tb_marks.specs.Stages.{IsStage};
ghost use Rattle.tb_marks.specs.Event.{contains, visited, IsVisit};
ghost use Rattle.tb_walk.specs.Walk.{IsWalk, IsShutOff, IsPassedBy};
ghost use Rattle.tb_lazy_rows.specs.Kinds.{kind_at};
ghost use Rattle.tb_lazy_events.specs.Phases.{IsLowering, IsMoving, IsRaising};
ghost use Rattle.tb_lazy_events.specs.Rows.{Met, AreRising, IsSized, HasRows, tags_at, is_shut_in, refused_in};

/// A walk in which no tag refuses visits enough at every byte: marks that are sound before the event are sound after
/// it, and also where it had to be broken off.
pub fn law_visit()
    ensures { (tree : Keys) (t byte : ℕ) (path from keys : List ℕ) (met : Met) → AllByRecursion (IsSized (length met.kinds)) met.rows → HasRows tree met.rows → byte < length met.kinds → IsPath tree t path → IsWalk tree path from (is_shut_in met) keys → ((key : ℕ) → contains path key ≡ true → refused_in met Local key ≡ None) → ((key : ℕ) → contains keys key ≡ true → refused_in met Foreign key ≡ None) → IsVisit tree path keys (kind_at met.kinds byte) (tags_at met.rows byte) }
{}

/// Where marks are sound, a tag that is shut off neither moves at any byte nor refuses.
pub fn law_passed_by()
    ensures still { (tree : Keys) (byte key : ℕ) (path : List ℕ) (met : Met) → AllByRecursion (IsSized (length met.kinds)) met.rows → byte < length met.kinds → AreSound tree (tags_at met.rows byte) → IsShutOff tree path (is_shut_in met) key → moved_state (kind_at met.kinds byte) ((tags_at met.rows byte).guarded key) Foreign ((tags_at met.rows byte).state key) ≡ (tags_at met.rows byte).state key }
    ensures silent { (tree : Keys) (byte key : ℕ) (path : List ℕ) (met : Met) → AllByRecursion (IsSized (length met.kinds)) met.rows → byte < length met.kinds → AreSound tree (tags_at met.rows byte) → IsShutOff tree path (is_shut_in met) key → refusal_of (kind_at met.kinds byte) ((tags_at met.rows byte).guarded key) Foreign ((tags_at met.rows byte).state key) ≡ None }
{}

/// Where marks are sound, a walk leaves every tag of the tree as the event asks: the state of each is moved, as local on
/// the way and as foreign off it, whether the tag was visited or not, but for the tags that the event passes by; and where
/// no tag of the way and no visited tag refuses, none does.
pub fn law_whole()
    ensures moved { (tree : Keys) (byte key : ℕ) (path from keys : List ℕ) (met : Met) → AllByRecursion (IsSized (length met.kinds)) met.rows → byte < length met.kinds → IsWalk tree path from (is_shut_in met) keys → AreSound tree (tags_at met.rows byte) → HasKey tree key → (IsPassedBy tree path from key → ⊥) → (visited path keys (kind_at met.kinds byte) (tags_at met.rows byte)).state key ≡ moved_state (kind_at met.kinds byte) ((tags_at met.rows byte).guarded key) (cond (contains path key) Local Foreign) ((tags_at met.rows byte).state key) }
    ensures silent { (tree : Keys) (byte key : ℕ) (path from keys : List ℕ) (met : Met) → AllByRecursion (IsSized (length met.kinds)) met.rows → byte < length met.kinds → IsWalk tree path from (is_shut_in met) keys → AreSound tree (tags_at met.rows byte) → HasKey tree key → (IsPassedBy tree path from key → ⊥) → HasRows tree met.rows → ((k : ℕ) → contains path k ≡ true → refused_in met Local k ≡ None) → ((k : ℕ) → contains keys k ≡ true → refused_in met Foreign k ≡ None) → refusal_of (kind_at met.kinds byte) ((tags_at met.rows byte).guarded key) (cond (contains path key) Local Foreign) ((tags_at met.rows byte).state key) ≡ None }
{}

/// An event that is carried out in three phases can be broken off anywhere: first marks on its way are lowered, then
/// states are moved, then marks of the visited tags off the way are raised.
pub fn law_phases()
    ensures lowering { (tree : Keys) (t : ℕ) (path keys : List ℕ) (kind : Option Kind) (old now : AtByte) → IsPath tree t path → IsLowering path kind old now → IsStage tree path keys kind old now }
    ensures moving { (tree : Keys) (t : ℕ) (path keys : List ℕ) (kind : Option Kind) (old now : AtByte) → IsPath tree t path → IsMoving path keys kind old now → IsStage tree path keys kind old now }
    ensures raising { (tree : Keys) (t : ℕ) (path keys : List ℕ) (kind : Option Kind) (old now : AtByte) → IsPath tree t path → IsRaising path keys kind old now → IsStage tree path keys kind old now }
{}

/// A mark of a tag, where marks are sound, says that the subtree of the tag is marked: foreign accesses of each kind that
/// the mark leaves alone change nothing there, and no tag there refuses them.
pub fn law_marked()
    ensures { (tree : Keys) (size byte tag : ℕ) (kind : Kind) (rows : List LazyRow) → IsPlain tree (plain_rows rows) size → AreRising rows → AreSound tree (tags_at rows byte) → leaves_alone ((tags_at rows byte).mark tag) kind ≡ true → Marked (seen_in tree rows) tag byte kind }
{}
