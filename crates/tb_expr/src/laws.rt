//! That there is one way to read, and that a tree has the pieces of its place.

ghost use Rattle.std.specs.Prelude.{◌≡◌, ◌≤◌, ℕ, Bool, map};
ghost use Rattle.tb_ast.specs.declared.expression.Expr.{Expr};
ghost use Rattle.tb_ast.specs.declared.expression.Block.{Block};
ghost use Rattle.tb_ast.specs.Expressions.{expr_pieces, block_pieces};
ghost use Rattle.tb_syntax.specs.State.{State, Stands};
ghost use Rattle.tb_forms.specs.declared.place.Where.{Where};
ghost use Rattle.tb_forms.specs.Levels.{prefix_level};
ghost use Rattle.tb_expr.specs.declared.lines.Line.{Line};
ghost use Rattle.tb_expr.specs.Grammar.{IsExprAt, IsWholeAt, IsBlockAt, IsLineAt};

/// No place has two expressions of a level, two blocks or two lines.
pub fn law_one_way()
    ensures expression { (place : Where) (most : ℕ) (state : State) (e : Expr) (rest : State) (other : Expr) (after : State) → prefix_level ≤ most → IsWholeAt place most state e rest → IsWholeAt place most state other after → (e ≡ other) × (rest ≡ after) }
    ensures block { (state : State) (block : Block) (rest : State) (other : Block) (after : State) → IsBlockAt state block rest → IsBlockAt state other after → (block ≡ other) × (rest ≡ after) }
    ensures line { (state : State) (line : Line) (rest : State) (other : Line) (after : State) → IsLineAt state line rest → IsLineAt state other after → (line ≡ other) × (rest ≡ after) }
{}

/// An expression or a block that stands at a place is written there with its pieces.
pub fn law_written()
    ensures expression { (place : Where) (state : State) (e : Expr) (rest : State) → IsExprAt place state e rest → Stands (expr_pieces e) state rest }
    ensures block { (state : State) (block : Block) (rest : State) → IsBlockAt state block rest → Stands (block_pieces block) state rest }
{}
