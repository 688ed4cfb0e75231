//! That a file has one answer.

ghost use Rattle.std.specs.Prelude.{◌≡◌};
ghost use Rattle.tb_ast.specs.declared.item.Tree.{Tree};
ghost use Rattle.tb_resolve.specs.declared.names.Names.{Names};
ghost use Rattle.tb_resolve.specs.Resolved.{Fault, IsRefused, IsAccepted, AreNames, MeanSame};

/// A file has one first fault or none, and its names have one meaning.
pub fn law_one_answer()
    ensures names { (tree : Tree) (one other : Names) → AreNames tree.items one → AreNames tree.items other → MeanSame tree.items one other }
    ensures fault { (tree : Tree) (found other : Fault) → IsRefused tree found → IsRefused tree other → found ≡ other }
    ensures either { (tree : Tree) (found : Fault) → IsRefused tree found → IsAccepted tree → ⊥ }
{}
