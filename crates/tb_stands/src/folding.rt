ghost use Rattle.std.specs.Prelude.{◌≡◌, ℕ, Bool, ◌||◌, not, List};
ghost use Rattle.std.specs.List.{list_any};
ghost use Rattle.tb_perm.specs.Rows.{Row, is_tag, tags, HasTag, IsRows};
ghost use Rattle.tb_perm.specs.Pruning.{is_noted};
ghost use Rattle.tb_stands.specs.Stands.{Stands};
ghost use Rattle.tb_stands.specs.Folded.{IsFolded, Prunes, folded};

/// Which tags stay at a prune is fixed, and can be worked out; and so is what is left of the rows.
pub fn law_folded()
    ensures computes { (size : ℕ) (rows : List Row) (reached : List ℕ) → IsRows size rows → IsFolded size rows reached (λ t. is_noted (folded size rows reached) t || not (list_any (is_tag t) rows)) }
    ensures one { (size : ℕ) (rows : List Row) (reached : List ℕ) (a b : ℕ → Bool) → IsRows size rows → IsFolded size rows reached a → IsFolded size rows reached b → (t : ℕ) → HasTag rows t → a t ≡ b t }
    ensures left { (size : ℕ) (rows a b : List Row) (reached : List ℕ) → IsRows size rows → Prunes size reached rows a → Prunes size reached rows b → a ≡ b }
    ensures list { (size : ℕ) (rows left : List Row) (reached : List ℕ) → IsRows size rows → Prunes size reached rows left → tags left ≡ folded size rows reached }
{}

/// A prune of own rows is one of the rows that they stand for: the same tags stay, what is left of the one is
/// left of the other, and stands for all rows again.
pub fn law_pruned()
    ensures rows { (size : ℕ) (own rows : List Row) (reached : List ℕ) → Stands size own rows reached → IsRows size own }
    ensures tags { (size : ℕ) (own rows : List Row) (reached : List ℕ) → Stands size own rows reached → folded size own reached ≡ folded size rows reached }
    ensures same { (size : ℕ) (own rows left : List Row) (reached : List ℕ) → Stands size own rows reached → Prunes size reached own left → Prunes size reached rows left }
    ensures stands { (size : ℕ) (own rows left : List Row) (reached : List ℕ) → Stands size own rows reached → Prunes size reached own left → Stands size left rows reached }
{}
