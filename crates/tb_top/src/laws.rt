//! What holds of programs.
ghost use Rattle.std.specs.Prelude.{◌≡◌};
ghost use Rattle.tb_top.specs.Program.{IsProgram};

use tb_mir::Mir;
use tb_small::SmallTree;

/// A source has one program: two programs that are what a tree is lowered to, with their retags at their places, are
/// equal.
#[tactic(auto, using(crate::proofs::Programs::one_program))]
pub fn law_one_mir(tree: &SmallTree, a: &Mir, b: &Mir)
    requires first { IsProgram tree.now a.now }
    requires second { IsProgram tree.now b.now }
    ensures { a.now ≡ b.now }
{}
