//! The provenances of all frames in one list, the bottom frame's first, and where each frame's begin.

ghost use Rattle.std.specs.Prelude.{◌≡◌, ℕ, List, ◌∷◌, length, drop, reverse};
ghost use Rattle.tb_protect.specs.Kept.{ArePlaces};

use tb_perm::Prov;

/// The provenances of the top frame.
pub fn top_provs<'a>(provs: &'a [Prov], starts: &[usize]) -> &'a [Prov]
    requires { ArePlaces (reverse starts.now) (length provs.now) }
    ensures { (start : ℕ) (older : List ℕ) → reverse starts.now ≡ start ∷ older → result.now ≡ drop start provs.now }
{
    match starts.last() {
        Some(start) => &provs[*start..],
        None => &[],
    }
}
