//! What a new reference may do.
ghost use Rattle.std.specs.Prelude.{◌≡◌};
ghost use Rattle.tb_new_tag.specs.NewTags.{unique_perm, perm_of, outside_of};

use tb_perm::{Guard, Perm};

/// What a unique reference may do: with interior mutability, and where it is not guarded, others may write while it is
/// reserved.
fn unique_perm(freeze: bool, guard: Guard) -> Perm
    ensures { result ≡ unique_perm freeze guard }
{
    if freeze {
        return Perm::Reserved;
    }
    match guard {
        Guard::Free => Perm::ReservedIm,
        Guard::Weak | Guard::Strong => Perm::Reserved,
    }
}

/// What a new reference may do at the bytes that it points to and that do not lie in cells.
pub fn perm_of(unique: bool, freeze: bool, guard: Guard) -> Perm
    ensures { result ≡ perm_of unique freeze guard }
{
    if unique {
        unique_perm(freeze, guard)
    } else {
        Perm::Frozen
    }
}

/// What it may do at the bytes that it does not point to.
pub fn outside_of(unique: bool, freeze: bool, guard: Guard) -> Perm
    ensures { result ≡ outside_of unique freeze guard }
{
    if unique {
        return unique_perm(freeze, guard);
    }
    if freeze { Perm::Frozen } else { Perm::Cell }
}
