ghost use Rattle.std.specs.Prelude.{◌≡◌, ◌<◌, ℕ, List, All, cond};
ghost use Rattle.tb_perm.specs.declared.tag.AllocId.{AllocId};
ghost use Rattle.tb_perm.specs.declared.tag.Prov.{Prov};
ghost use Rattle.tb_perm.specs.declared.perm.Guard.TheVariants.{Free};
ghost use Rattle.tb_perm.specs.declared.new_tag.NewTag.{NewTag};
ghost use Rattle.tb_perm.specs.Rows.{Row};
ghost use Rattle.tb_perm.specs.Event.{Event, after};
ghost use Rattle.tb_perm.specs.Reborrow.{reborrowed};
ghost use Rattle.tb_protect.specs.Frames.{Frames, kind_of, is_prov};
ghost use Rattle.tb_stands.specs.Folded.{Prunes};
ghost use Rattle.tb_prune.specs.Guards.{GuardsAre};

/// The guards of a tree go on being those of the running calls: after an event, after a reborrow whose new tag is
/// guarded in the calls as in the tree, and after a prune.
pub fn law_guards()
    ensures event { (frames : Frames) (alloc : AllocId) (event : Event) (rows : List Row) → GuardsAre frames alloc rows → GuardsAre frames alloc (after event rows) }
    ensures made { (frames now : Frames) (alloc : AllocId) (size : ℕ) (rows : List Row) (new : NewTag) → GuardsAre frames alloc rows → All (λ (row : Row). row.tag < new.tag.0) rows → ((asked : Prov) → kind_of now asked ≡ cond (is_prov asked (record { alloc = alloc; tag = new.tag })) new.guard (kind_of frames asked)) → GuardsAre now alloc (reborrowed rows size new) }
    ensures free { (frames : Frames) (alloc : AllocId) (size : ℕ) (rows : List Row) (new : NewTag) → GuardsAre frames alloc rows → All (λ (row : Row). row.tag < new.tag.0) rows → new.guard ≡ Free → kind_of frames (record { alloc = alloc; tag = new.tag }) ≡ Free → GuardsAre frames alloc (reborrowed rows size new) }
    ensures pruned { (frames : Frames) (alloc : AllocId) (size : ℕ) (rows left : List Row) (reached : List ℕ) → GuardsAre frames alloc rows → Prunes size reached rows left → GuardsAre frames alloc left }
{}
