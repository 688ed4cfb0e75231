ghost use Rattle.std.specs.Prelude.{◌≡◌, List, [], ◌++◌, None, find};
ghost use Rattle.std.specs.List.{AllByRecursion};
ghost use Rattle.tb_perm.specs.declared.tag.Prov.{Prov};
ghost use Rattle.tb_perm.specs.CallEnd.{AllocRows, Ended, Ends, is_live, and_then, release_one, release_all, unguard_all, call_end, left_by, KeepsTrees, IsFreeAt};

/// The laws of the end of a call: tags can be released in several parts, one after another; the tag
/// of a dead allocation is passed over; whatever comes of it, every tag keeps its place in its tree;
/// and where no tag refuses, all tags of the call are free afterwards.
pub fn law_call_end()
    ensures parts { (ps qs : List Prov) (allocs : List AllocRows) → release_all (ps ++ qs) allocs ≡ and_then (release_all ps allocs) (release_all qs) }
    ensures dead { (p : Prov) (allocs : List AllocRows) → find (is_live p.alloc.0) allocs ≡ None → release_one p allocs ≡ Ends allocs }
    ensures keeps { (ps : List Prov) (allocs : List AllocRows) → KeepsTrees allocs (left_by (call_end ps allocs)) }
    ensures freed { (ps : List Prov) (allocs after : List AllocRows) → call_end ps allocs ≡ Ends after → AllByRecursion (IsFreeAt after) ps }
{}
