//! The guards of running calls, among their frames and in the trees.
ghost use Rattle.std.specs.Prelude.{◌≡◌, ◌≢◌, ◌<◌, cond, length, OnOk, OnErr};
ghost use Rattle.std.specs.List.{AllByRecursion};
ghost use Rattle.tb_perm.specs.declared.tag.Prov.{Prov};
ghost use Rattle.tb_perm.specs.declared.perm.Guard.TheVariants.{Free as NoGuard};
ghost use Rattle.tb_protect.specs.Frames.{kind_of, is_prov};
ghost use Rattle.tb_events.specs.Calls.{with_guard, without_guard, without_guards};
ghost use Rattle.tb_events.specs.Guarding.{IsThere};

use std::alloc::AllocError;
use tb_alloc::Allocs;
use tb_forest::Forest;
use tb_perm::{BorrowTree, Guard, Prov};
use tb_protect::Protectors;

/// The running call guards a provenance so, unless it is free. Out of memory leaves all as it was.
#[tactic(auto, using(crate::proofs::Counting::same_calls))]
pub fn guard_made(frames: &mut Protectors, prov: Prov, guard: Guard) -> Result<(), AllocError>
    requires frame { guard ≢ NoGuard → 0 < length frames.old }
    requires fresh { kind_of frames.old prov ≡ NoGuard }
    ensures ok { OnOk result (frames.new ≡ with_guard prov guard frames.old) }
    ensures kinds { OnOk result ((asked : Prov) → kind_of frames.new asked ≡ cond (is_prov asked prov) guard (kind_of frames.old asked)) }
    ensures err { OnErr result (frames.new ≡ frames.old) }
    ensures calls { length frames.new ≡ length frames.old }
{
    match guard {
        Guard::Free => Ok(()),
        Guard::Weak => frames.protect(prov, Guard::Weak),
        Guard::Strong => frames.protect(prov, Guard::Strong),
    }
}

/// A tag's guard goes, where its allocation is live.
fn unguard<T: BorrowTree>(forest: &mut Forest<T>, table: &Allocs, prov: Prov)
    requires { IsThere table.now forest.old prov }
    ensures { forest.new ≡ without_guard table.now prov forest.old }
{
    if table.live_of(Some(prov)).is_some() {
        forest.unguard(prov.alloc, prov.tag);
    }
}

/// The guards of tags go, where their allocations are live.
pub fn unguard_all<T: BorrowTree>(forest: &mut Forest<T>, table: &Allocs, provs: &[Prov])
    requires { AllByRecursion (IsThere table.now forest.old) provs.now }
    ensures { forest.new ≡ without_guards table.now provs.now forest.old }
{
    for prov in provs {
        unguard(forest, table, *prov);
    }
}
