ghost use Rattle.std.specs.Prelude.{◌≡◌, [], length};
ghost use Rattle.tb_perm.specs.Rows.{tags};
ghost use Rattle.tb_perm.specs.Calls.{IsTree};
ghost use Rattle.tb_stands.specs.Folded.{Prunes, folded};
ghost use Rattle.tb_prune.specs.Guards.{GuardsAre};

use crate::visit::visit;
use tb_perm::{AllocId, PruneTree};
use tb_protect::Protectors;

/// Prunes a tree. What is below a tag is greater, so the tags are visited from the greatest to the least.
pub fn prune_tree<T: PruneTree>(tree: &mut T, alloc: AllocId, protectors: &Protectors) -> u64
    requires sound { IsTree (T.extent tree.old) (T.rows tree.old) (T.notes tree.old) }
    requires guards { GuardsAre protectors.now alloc (T.rows tree.old) }
    ensures left { Prunes (T.extent tree.old) (T.notes tree.old) (T.rows tree.old) (T.rows tree.new) }
    ensures tags { tags (T.rows tree.new) ≡ folded (T.extent tree.old) (T.rows tree.old) (T.notes tree.old) }
    ensures extent { T.extent tree.new ≡ T.extent tree.old }
    ensures notes { T.notes tree.new ≡ [] }
    ensures count { result ≡ length (T.rows tree.new) }
    ensures sound { IsTree (T.extent tree.new) (T.rows tree.new) (T.notes tree.new) }
{
    let mut tag = tree.greatest();
    while let Some(next) = tree.below(tag) {
        visit(tree, tag, alloc, protectors);
        tag = next;
    }
    tree.clear_notes();
    tree.count()
}
