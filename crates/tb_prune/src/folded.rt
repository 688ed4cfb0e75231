ghost use Rattle.std.specs.Prelude.{◌≡◌, map};
ghost use Rattle.tb_perm.specs.declared.tag.Tag.{Tag};
ghost use Rattle.tb_stands.specs.Stands.{Stands};
ghost use Rattle.tb_stands.specs.Folded.{folded};

use tb_perm::Tag;
use tb_plain::PlainTree;

/// Where the rows of one tree stand for those of another, with these tags as the reached ones, the same tags stay at
/// a prune of either.
pub fn law_folded(own: &PlainTree, eager: &PlainTree, reached: &[Tag])
    ensures { Stands own.now.size own.now.rows eager.now.rows (map (λ (t : Tag). t.0) reached.now) → folded own.now.size own.now.rows (map (λ (t : Tag). t.0) reached.now) ≡ folded own.now.size eager.now.rows (map (λ (t : Tag). t.0) reached.now) }
{}
