ghost use Rattle.std.specs.Prelude.{◌≡◌, ◌↔◌, ◌≤◌, Bool, true, false, IsTrue};
ghost use Rattle.tb_perm.specs.Covers.{Covers, Keeps, order_of};
ghost use Rattle.tb_perm.specs.declared.perm.Perm.{Perm};

use crate::perm::Perm;

/// Whether a tag with permission `p` can be left out above a tag with permission `c`: `c` refuses
/// whatever `p` refuses, now and after any accesses, also once the guard of `c` is gone.
///
/// In the order Cell, ReservedIm, Reserved and Conflicted alike, Active, Frozen, Disabled this is
/// so exactly where `p` does not stand behind `c`.
pub fn implies(p: Perm, c: Perm, c_protected: bool) -> bool
    ensures { IsTrue result ↔ Covers p c c_protected }
{
    order(p) <= order(c)
}

/// The laws of the relation: it meets its own three conditions, every relation that meets them lies
/// within it, it is the order of the permissions, and it can be chained.
pub fn law_covers(p: Perm, q: Perm, c: Perm, guarded: bool)
    ensures meets { Keeps Covers }
    ensures greatest { (R : Perm → Perm → Bool → Bool) → Keeps (λ a b g. R a b g ≡ true) → R p c guarded ≡ true → Covers p c guarded }
    ensures order { Covers p c guarded ↔ (order_of p ≤ order_of c) }
    ensures chain { Covers p q false → Covers q c guarded → Covers p c guarded }
{}

/// The place of a permission in the order.
fn order(perm: Perm) -> u8
    ensures { result ≡ order_of perm }
{
    match perm {
        Perm::Cell => 0,
        Perm::ReservedIm => 1,
        Perm::Reserved | Perm::Conflicted => 2,
        Perm::Active => 3,
        Perm::Frozen => 4,
        Perm::Disabled => 5,
    }
}
