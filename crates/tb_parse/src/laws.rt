//! That no tokens have two trees, and none two refused tokens.

ghost use Rattle.std.specs.Prelude.{◌≡◌, ℕ, List};
ghost use Rattle.tb_lex.specs.declared.token.Token.{Token};
ghost use Rattle.tb_lex.specs.declared.token.Tokens.{Tokens};
ghost use Rattle.tb_ast.specs.declared.item.Tree.{Tree};
ghost use Rattle.tb_ast.specs.Joined.{tokens_of};
ghost use Rattle.tb_parse.specs.Trees.{IsTreeOf};
ghost use Rattle.tb_parse.specs.Fronts.{IsRefusedAt};

/// No tokens have two trees, whatever their depth, and each tree has its own tokens alone.
pub fn law_one_tree()
    ensures one { (tokens : Tokens) (tree other : Tree) → IsTreeOf tokens tree → IsTreeOf tokens other → tree ≡ other }
    ensures tokens { (tokens : Tokens) (tree : Tree) → IsTreeOf tokens tree → tokens_of tree ≡ tokens }
{}

/// No tokens have two refused tokens; where they have no tree, `parse` tells the one that they have.
pub fn law_one_refused()
    ensures one { (tokens : List Token) (place other : ℕ) → IsRefusedAt tokens place → IsRefusedAt tokens other → place ≡ other }
{}
