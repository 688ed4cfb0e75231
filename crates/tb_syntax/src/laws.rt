//! What is read stands there, and what stands there is read.

ghost use Rattle.std.specs.Prelude.{◌≡◌, ℕ, true, false, List, ◌∷◌, map, Option, Some};
ghost use Rattle.std.specs.List.{AllByRecursion};
ghost use Rattle.tb_lex.specs.declared.keyword.Keyword.{Keyword};
ghost use Rattle.tb_lex.specs.declared.punctuation.Punctuation.{Punctuation};
ghost use Rattle.tb_lex.specs.declared.punctuation.Punctuation.TheVariants.{PathSep, Pound};
ghost use Rattle.tb_perm.specs.declared.span.Span.{Span};
ghost use Rattle.tb_ast.specs.declared.piece.Piece.{Piece};
ghost use Rattle.tb_ast.specs.declared.leaf.Mark.{Mark};
ghost use Rattle.tb_ast.specs.declared.leaf.Ident.{Ident};
ghost use Rattle.tb_ast.specs.declared.leaf.Path.{Path};
ghost use Rattle.tb_ast.specs.declared.written.Turbofish.{Turbofish};
ghost use Rattle.tb_ast.specs.declared.written.TypeNote.{TypeNote};
ghost use Rattle.tb_ast.specs.declared.item.Attribute.{Attribute};
ghost use Rattle.tb_ast.specs.declared.item.InnerAttribute.{InnerAttribute};
ghost use Rattle.tb_ast.specs.declared.item.Use.{Use};
ghost use Rattle.tb_ast.specs.declared.item.Struct.{Struct};
ghost use Rattle.tb_ast.specs.declared.item.ExternBlock.{ExternBlock};
ghost use Rattle.tb_ast.specs.Pieces.{mark, keyword, ident, path_pieces, in_order};
ghost use Rattle.tb_ast.specs.Types.{note_pieces, turbofish_pieces};
ghost use Rattle.tb_ast.specs.Files.{inner_row, attribute_row, use_row, struct_row, extern_row};
ghost use Rattle.tb_ast.specs.Joined.{joined_before};
ghost use Rattle.tb_syntax.specs.declared.heads.FunctionHead.{FunctionHead};
ghost use Rattle.tb_syntax.specs.State.{State, IsState, Begins, Stands, AreTight};
ghost use Rattle.tb_syntax.specs.Marks.{mark_at, has_mark};
ghost use Rattle.tb_syntax.specs.Leaves.{keyword_at, name_at};
ghost use Rattle.tb_syntax.specs.Paths.{goes_on, path_at, IsPath};
ghost use Rattle.tb_syntax.specs.Notes.{note_at, turbofish_at, IsNote, NoteEnds, IsTurbofish, TurbofishEnds, ResultEnds};
ghost use Rattle.tb_syntax.specs.Attributes.{has_inner, inners_at, attributes_at, IsInner, IsAttribute};
ghost use Rattle.tb_syntax.specs.Items.{use_at, struct_at, head_at, extern_at, IsUse, IsStruct, head_row, IsHead, IsExtern};

/// Pieces that stand at the front of what is still to be read are joined before the rest, and joined
/// pieces stand there where those that are one token lie side by side.
pub fn law_pieces()
    ensures joined { (pieces : List Piece) (state rest : State) → IsState state → Stands pieces state rest → (state ≡ joined_before pieces rest) × IsState rest }
    ensures stands { (pieces : List Piece) (rest : State) → AreTight pieces rest → Stands pieces (joined_before pieces rest) rest }
{}

/// Marks, keywords and names.
pub fn law_tokens()
    ensures mark_sound { (wanted : Punctuation) (state : State) (m : Mark) (rest : State) → mark_at wanted state ≡ Some (m, rest) → Begins (mark wanted m) state rest }
    ensures mark_complete { (wanted : Punctuation) (state : State) (m : Mark) (rest : State) → Begins (mark wanted m) state rest → mark_at wanted state ≡ Some (m, rest) }
    ensures keyword_sound { (word : Keyword) (state : State) (span : Span) (rest : State) → keyword_at word state ≡ Some (span, rest) → Begins (keyword word span) state rest }
    ensures keyword_complete { (word : Keyword) (state : State) (span : Span) (rest : State) → Begins (keyword word span) state rest → keyword_at word state ≡ Some (span, rest) }
    ensures name_sound { (state : State) (name : Ident) (rest : State) → name_at state ≡ Some (name, rest) → Begins (ident name) state rest }
    ensures name_complete { (state : State) (name : Ident) (rest : State) → Begins (ident name) state rest → name_at state ≡ Some (name, rest) }
{}

/// Paths, and types behind `:` and `::`.
pub fn law_paths()
    ensures path_sound { (state : State) (path : Path) (rest : State) → path_at state ≡ Some (path, rest) → Stands (path_pieces path) state rest × IsPath path × (goes_on PathSep rest ≡ false) }
    ensures path_complete { (state : State) (path : Path) (rest : State) → IsPath path → goes_on PathSep rest ≡ false → Stands (path_pieces path) state rest → path_at state ≡ Some (path, rest) }
    ensures note_sound { (depth : ℕ) (state : State) (y : Option TypeNote × State) → note_at depth state ≡ Some y → Stands (note_pieces y.0) state y.1 × IsNote depth y.0 × NoteEnds y.0 y.1 }
    ensures note_complete { (depth : ℕ) (state : State) (note : Option TypeNote) (rest : State) → IsNote depth note → NoteEnds note rest → Stands (note_pieces note) state rest → note_at depth state ≡ Some (note, rest) }
    ensures turbofish_sound { (depth : ℕ) (state : State) (y : Option Turbofish × State) → turbofish_at depth state ≡ Some y → Stands (turbofish_pieces y.0) state y.1 × IsTurbofish depth y.0 × TurbofishEnds y.0 y.1 }
    ensures turbofish_complete { (depth : ℕ) (state : State) (turbofish : Option Turbofish) (rest : State) → IsTurbofish depth turbofish → TurbofishEnds turbofish rest → Stands (turbofish_pieces turbofish) state rest → turbofish_at depth state ≡ Some (turbofish, rest) }
{}

/// Attributes of the file and of items.
pub fn law_attributes()
    ensures sound { (state : State) (list : List Attribute) (rest : State) → attributes_at state ≡ Some (list, rest) → Stands (in_order (map attribute_row list)) state rest × AllByRecursion IsAttribute list × (has_mark Pound rest ≡ false) }
    ensures complete { (state : State) (list : List Attribute) (rest : State) → AllByRecursion IsAttribute list → has_mark Pound rest ≡ false → Stands (in_order (map attribute_row list)) state rest → attributes_at state ≡ Some (list, rest) }
    ensures inner_sound { (state : State) (list : List InnerAttribute) (rest : State) → inners_at state ≡ Some (list, rest) → Stands (in_order (map inner_row list)) state rest × AllByRecursion IsInner list × (has_inner rest ≡ false) }
    ensures inner_complete { (state : State) (list : List InnerAttribute) (rest : State) → AllByRecursion IsInner list → has_inner rest ≡ false → Stands (in_order (map inner_row list)) state rest → inners_at state ≡ Some (list, rest) }
{}

/// `use` items, structs, heads of functions and `extern` blocks.
pub fn law_items()
    ensures use_sound { (state : State) (item : Use) (rest : State) → use_at state ≡ Some (item, rest) → Stands (use_row item) state rest × IsUse item }
    ensures use_complete { (state : State) (item : Use) (rest : State) → IsUse item → Stands (use_row item) state rest → use_at state ≡ Some (item, rest) }
    ensures struct_sound { (depth : ℕ) (state : State) (item : Struct) (rest : State) → struct_at depth state ≡ Some (item, rest) → Stands (struct_row item) state rest × IsStruct depth item }
    ensures struct_complete { (depth : ℕ) (state : State) (item : Struct) (rest : State) → IsStruct depth item → Stands (struct_row item) state rest → struct_at depth state ≡ Some (item, rest) }
    ensures head_sound { (depth : ℕ) (state : State) (y : FunctionHead × State) → head_at depth state ≡ Some y → Stands (head_row y.0) state y.1 × IsHead depth y.0 × ResultEnds y.0.result y.1 }
    ensures head_complete { (depth : ℕ) (state : State) (head : FunctionHead) (rest : State) → IsHead depth head → ResultEnds head.result rest → Stands (head_row head) state rest → head_at depth state ≡ Some (head, rest) }
    ensures extern_sound { (depth : ℕ) (state : State) (block : ExternBlock) (rest : State) → extern_at depth state ≡ Some (block, rest) → Stands (extern_row block) state rest × IsExtern depth block }
    ensures extern_complete { (depth : ℕ) (state : State) (block : ExternBlock) (rest : State) → IsExtern depth block → Stands (extern_row block) state rest → extern_at depth state ≡ Some (block, rest) }
{}
