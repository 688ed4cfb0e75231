ghost use Rattle.std.specs.Prelude.{◌≡◌, ℕ, ◌<◌, ◌≤◌, List, Some, find};
ghost use Rattle.std.specs.List.{AllByRecursion};
ghost use Rattle.tb_perm.specs.declared.tag.Prov.{Prov};
ghost use Rattle.tb_perm.specs.Rows.{Row};
ghost use Rattle.tb_perm.specs.CallEnd.{AllocRows, is_live, with_rows};
ghost use Rattle.tb_stands.specs.Stands.{Stands};
ghost use Rattle.tb_stands.specs.Points.{StandsInPoints};
ghost use Rattle.tb_stands.specs.Allocs.{reached_in, StandFor, IsKnown};

/// Standing by the kept tags, and standing point by point as two lists of rows say it, are the same.
pub fn law_points()
    ensures points { (size : ℕ) (own rows : List Row) (reached : List ℕ) → Stands size own rows reached → StandsInPoints size own rows reached }
    ensures stands { (size : ℕ) (own rows : List Row) (reached : List ℕ) → StandsInPoints size own rows reached → Stands size own rows reached }
{}

/// Where the allocations of a state stand for eager ones, each live one does; where one changes and stands again, so
/// does the state, with a next tag that is above the new ones; and any known tags may count as the reached ones.
pub fn law_allocs()
    ensures found { (reached : List Prov) (next id : ℕ) (owns eagers : List AllocRows) → StandFor reached next owns eagers → (own : AllocRows) → find (is_live id) owns ≡ Some own → (eager : AllocRows) × (find (is_live id) eagers ≡ Some eager) × (own.size ≡ eager.size) × Stands own.size own.rows eager.rows (reached_in reached own.id) }
    ensures changed { (reached : List Prov) (next now id : ℕ) (f g : List Row → List Row) (owns eagers : List AllocRows) → StandFor reached next owns eagers → next ≤ now → (own eager : AllocRows) → find (is_live id) owns ≡ Some own → find (is_live id) eagers ≡ Some eager → Stands own.size (f own.rows) (g eager.rows) (reached_in reached own.id) → AllByRecursion (λ (row : Row). row.tag < now) (g eager.rows) → StandFor reached now (with_rows id f owns) (with_rows id g eagers) }
    ensures reached { (reached now : List Prov) (next : ℕ) (owns eagers : List AllocRows) → StandFor reached next owns eagers → AllByRecursion (IsKnown owns) now → StandFor now next owns eagers }
{}
