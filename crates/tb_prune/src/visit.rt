ghost use Rattle.std.specs.Prelude.{◌≡◌, ◌↔◌, IsSome, IsTrue, false};
ghost use Rattle.tb_perm.specs.Rows.{HasTag, guard_in};
ghost use Rattle.tb_perm.specs.Table.{is_guarded};
ghost use Rattle.tb_perm.specs.Calls.{IsTree};
ghost use Rattle.tb_perm.specs.Pruning.{parent_in, Folds};
ghost use Rattle.tb_prune.specs.Guards.{GuardsAre};
ghost use Rattle.tb_prune.specs.Visits.{is_busy, MayGo, Visits};

use tb_perm::{AllocId, Guard, Prov, PruneTree, Tag};
use tb_protect::Protectors;

/// Takes out a tag that is not the root's, if nothing can tell.
pub fn visit<T: PruneTree>(tree: &mut T, tag: Tag, alloc: AllocId, protectors: &Protectors)
    requires sound { IsTree (T.extent tree.old) (T.rows tree.old) (T.notes tree.old) }
    requires tag { HasTag (T.rows tree.old) tag.0 }
    requires below { IsSome (parent_in (T.rows tree.old) tag.0) }
    requires guards { GuardsAre protectors.now alloc (T.rows tree.old) }
    ensures visits { Visits (T.extent tree.old) (T.rows tree.old) (T.notes tree.old) tag.0 (T.rows tree.new) (T.notes tree.new) }
    ensures extent { T.extent tree.new ≡ T.extent tree.old }
    ensures sound { IsTree (T.extent tree.new) (T.rows tree.new) (T.notes tree.new) }
{
    if busy(tree, tag, alloc, protectors) {
        return;
    }
    if may_go(tree, tag, alloc, protectors) {
        tree.remove(tag);
    }
}

/// Whether the tag is noted or guarded.
fn busy<T: PruneTree>(tree: &T, tag: Tag, alloc: AllocId, protectors: &Protectors) -> bool
    requires tag { HasTag (T.rows tree.now) tag.0 }
    requires guards { GuardsAre protectors.now alloc (T.rows tree.now) }
    ensures { result ≡ is_busy (T.rows tree.now) (T.notes tree.now) tag.0 }
{
    tree.noted(tag) || guarded(tree, tag, alloc, protectors)
}

/// Whether the tag is guarded.
fn guarded<T: PruneTree>(tree: &T, tag: Tag, alloc: AllocId, protectors: &Protectors) -> bool
    requires tag { HasTag (T.rows tree.now) tag.0 }
    requires guards { GuardsAre protectors.now alloc (T.rows tree.now) }
    ensures { result ≡ is_guarded (guard_in (T.rows tree.now) tag.0) }
{
    is_protecting(protectors.kind_of(Prov { alloc, tag }))
}

fn is_protecting(guard: Guard) -> bool
    ensures { result ≡ is_guarded guard }
{
    guard != Guard::Free
}

/// Whether the tag has no child, or one alone, which covers it.
fn may_go<T: PruneTree>(tree: &T, tag: Tag, alloc: AllocId, protectors: &Protectors) -> bool
    requires tag { HasTag (T.rows tree.now) tag.0 }
    requires guards { GuardsAre protectors.now alloc (T.rows tree.now) }
    ensures yes { IsTrue result → MayGo (T.extent tree.now) (T.rows tree.now) tag.0 }
    ensures not { result ≡ false → ¬ MayGo (T.extent tree.now) (T.rows tree.now) tag.0 }
{
    if tree.is_leaf(tag) {
        return true;
    }
    let Some(child) = tree.only_child(tag) else {
        return false;
    };
    covers(tree, tag, child, alloc, protectors)
}

/// Whether a tag's child covers it, with the guard that the child has.
fn covers<T: PruneTree>(
    tree: &T,
    tag: Tag,
    child: Tag,
    alloc: AllocId,
    protectors: &Protectors,
) -> bool
    requires tag { HasTag (T.rows tree.now) tag.0 }
    requires child { HasTag (T.rows tree.now) child.0 }
    requires guards { GuardsAre protectors.now alloc (T.rows tree.now) }
    ensures { IsTrue result ↔ Folds (T.rows tree.now) (T.extent tree.now) tag.0 child.0 (is_guarded (guard_in (T.rows tree.now) child.0)) }
{
    let held = guarded(tree, child, alloc, protectors);
    tree.folds(tag, child, held)
}
