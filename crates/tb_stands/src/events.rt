ghost use Rattle.std.specs.Prelude.{◌≡◌, ℕ, ◌<◌, List, ◌∷◌, None, All};
ghost use Rattle.std.specs.List.{AllByRecursion};
ghost use Rattle.tb_perm.specs.declared.perm.Kind.{Kind};
ghost use Rattle.tb_perm.specs.declared.new_tag.NewTag.{NewTag};
ghost use Rattle.tb_perm.specs.Rows.{Row, HasTag, IsRows, unguarded};
ghost use Rattle.tb_perm.specs.Access.{accessed, access_report};
ghost use Rattle.tb_perm.specs.Reborrow.{reborrowed, reborrow_report};
ghost use Rattle.tb_perm.specs.Release.{released, release_report};
ghost use Rattle.tb_perm.specs.Deallocation.{deallocated, dealloc_report};
ghost use Rattle.tb_perm.specs.declared.tag.Prov.{Prov};
ghost use Rattle.tb_perm.specs.CallEnd.{AllocRows, call_end};
ghost use Rattle.tb_stands.specs.Stands.{Stands};
ghost use Rattle.tb_stands.specs.Allocs.{StandAll, AreNumbered, IsKnown, EndsAlike};

/// All rows stand for themselves, and any own tags may count as the reached ones.
pub fn law_start()
    ensures start { (size : ℕ) (rows : List Row) (reached : List ℕ) → IsRows size rows → AllByRecursion (HasTag rows) reached → Stands size rows rows reached }
    ensures reached { (size : ℕ) (own rows : List Row) (reached now : List ℕ) → Stands size own rows reached → AllByRecursion (HasTag own) now → Stands size own rows now }
{}

/// An access through an own tag has the same report on own rows as on the rows that they stand for. Where no
/// tag refuses it, they stand for these again.
pub fn law_access()
    ensures report { (size : ℕ) (own rows : List Row) (reached : List ℕ) (t lo hi : ℕ) (kind : Kind) → Stands size own rows reached → HasTag own t → access_report own size t lo hi kind ≡ access_report rows size t lo hi kind }
    ensures stands { (size : ℕ) (own rows : List Row) (reached : List ℕ) (t lo hi : ℕ) (kind : Kind) → Stands size own rows reached → HasTag own t → access_report own size t lo hi kind ≡ None → Stands size (accessed own t lo hi kind) (accessed rows t lo hi kind) reached }
{}

/// The same of a reborrow from an own tag. The new tag is above all eager ones, and is an own tag afterwards.
pub fn law_reborrow()
    ensures report { (size : ℕ) (own rows : List Row) (reached : List ℕ) (new : NewTag) → Stands size own rows reached → HasTag own new.parent.0 → reborrow_report own size new ≡ reborrow_report rows size new }
    ensures stands { (size : ℕ) (own rows : List Row) (reached : List ℕ) (new : NewTag) → Stands size own rows reached → HasTag own new.parent.0 → All (λ (row : Row). row.tag < new.tag.0) rows → reborrow_report own size new ≡ None → Stands size (reborrowed own size new) (reborrowed rows size new) (new.tag.0 ∷ reached) }
{}

/// The same of a release.
pub fn law_release()
    ensures report { (size : ℕ) (own rows : List Row) (reached : List ℕ) (t : ℕ) → Stands size own rows reached → HasTag own t → release_report own size t ≡ release_report rows size t }
    ensures stands { (size : ℕ) (own rows : List Row) (reached : List ℕ) (t : ℕ) → Stands size own rows reached → HasTag own t → release_report own size t ≡ None → Stands size (released own t) (released rows t) reached }
{}

/// Where a guard goes from both, they stand again.
pub fn law_unguard()
    ensures { (size : ℕ) (own rows : List Row) (reached : List ℕ) (t : ℕ) → Stands size own rows reached → Stands size (unguarded own t) (unguarded rows t) reached }
{}

/// The same as of an access of a deallocation, with its look for strong guards.
pub fn law_dealloc()
    ensures report { (size : ℕ) (own rows : List Row) (reached : List ℕ) (t : ℕ) → Stands size own rows reached → HasTag own t → dealloc_report own size t ≡ dealloc_report rows size t }
    ensures stands { (size : ℕ) (own rows : List Row) (reached : List ℕ) (t : ℕ) → Stands size own rows reached → HasTag own t → dealloc_report own size t ≡ None → Stands size (deallocated own size t) (deallocated rows size t) reached }
{}

/// The end of a call is the same on own rows and on eager rows of all allocations: the same tag refuses with
/// the same report, or none does; and what is left stands again.
pub fn law_ended()
    ensures { (reached ps : List Prov) (owns eagers : List AllocRows) → StandAll reached owns eagers → AreNumbered owns → AllByRecursion (IsKnown owns) ps → EndsAlike reached (call_end ps owns) (call_end ps eagers) }
{}
