//! Putting down pieces one behind another.

ghost use Rattle.std.specs.Prelude.{◌≡◌, ◌++◌, ◌∷◌, [], slice_get, OnOk};
ghost use Rattle.tb_ast.specs.Pieces.{piece, punct, mark, keyword, word, ident, lifetime, path_pieces, optional_mark, optional_keyword, named, number, text_piece, text_pieces, literal};
ghost use Rattle.tb_lex.specs.declared.token.TokenKind.TheVariants as kind;

use sqlite_items::Items;
use std::alloc::{AllocError, Global};
use tb_ast::{Ident, IntLiteral, Lifetime, Literal, Mark, Path, Piece, TextLiteral};
use tb_lex::{Integer, Keyword, Name, Punctuation, Text, TokenKind};
use tb_perm::Span;

/// The pieces that were put down so far.
#[derive(Debug, Drop)]
pub struct Pieces {
    alloc: Global,
    pub list: Vec<Piece>,
}

impl Pieces {
    pub fn new(alloc: Global) -> Pieces
        ensures { result.list.items ≡ [] }
    {
        Pieces {
            alloc,
            list: Vec::new(alloc),
        }
    }

    /// Puts down a token.
    pub fn token(&mut self, kind: TokenKind, span: Span) -> Result<(), AllocError>
        ensures { OnOk result (self.new.list.items ≡ self.old.list.items ++ piece kind span ∷ []) }
    {
        self.list.push(Piece {
            kind,
            span,
            glued: false,
        })?;
        Ok(())
    }

    pub fn mark(&mut self, punctuation: Punctuation, span: Span) -> Result<(), AllocError>
        ensures { OnOk result (self.new.list.items ≡ self.old.list.items ++ punct punctuation span ∷ []) }
    {
        self.token(TokenKind::Punctuation(punctuation), span)
    }

    /// Puts down a mark that may be glued.
    pub fn glue(&mut self, punctuation: Punctuation, at: Mark) -> Result<(), AllocError>
        ensures { OnOk result (self.new.list.items ≡ self.old.list.items ++ mark punctuation at ∷ []) }
    {
        self.list.push(Piece {
            kind: TokenKind::Punctuation(punctuation),
            span: at.span,
            glued: at.glued,
        })?;
        Ok(())
    }

    pub fn keyword(&mut self, word: Keyword, span: Span) -> Result<(), AllocError>
        ensures { OnOk result (self.new.list.items ≡ self.old.list.items ++ keyword word span ∷ []) }
    {
        self.token(TokenKind::Keyword(word), span)
    }

    /// Puts down an identifier that the grammar reads as a word.
    pub fn word(&mut self, text: &str, span: Span) -> Result<(), AllocError>
        ensures { OnOk result (self.new.list.items ≡ self.old.list.items ++ word text.now span ∷ []) }
    {
        let bytes = Items::from_slice(self.alloc, text.as_bytes())?;
        self.token(TokenKind::Name(Name { bytes }), span)
    }

    pub fn ident(&mut self, name: &Ident) -> Result<(), AllocError>
        ensures { OnOk result (self.new.list.items ≡ self.old.list.items ++ ident name.now ∷ []) }
    {
        let bytes = Items::from_slice(self.alloc, name.name.bytes.as_slice())?;
        self.token(TokenKind::Name(Name { bytes }), name.span)
    }

    pub fn lifetime(&mut self, name: &Lifetime) -> Result<(), AllocError>
        ensures { OnOk result (self.new.list.items ≡ self.old.list.items ++ lifetime name.now ∷ []) }
    {
        let bytes = Items::from_slice(self.alloc, name.name.bytes.as_slice())?;
        self.token(TokenKind::Lifetime(Name { bytes }), name.span)
    }

    pub fn text(&mut self, text: &TextLiteral) -> Result<(), AllocError>
        ensures { OnOk result (self.new.list.items ≡ self.old.list.items ++ text_piece text.now ∷ []) }
    {
        let source = Items::from_slice(self.alloc, text.text.source.as_slice())?;
        self.token(TokenKind::Text(Text { source }), text.span)
    }

    pub fn number(&mut self, literal: IntLiteral) -> Result<(), AllocError>
        ensures { OnOk result (self.new.list.items ≡ self.old.list.items ++ number literal ∷ []) }
    {
        self.token(TokenKind::Integer(literal.integer), literal.span)
    }

    pub fn optional_text(&mut self, text: &Option<TextLiteral>) -> Result<(), AllocError>
        ensures { OnOk result (self.new.list.items ≡ self.old.list.items ++ text_pieces text.now) }
    {
        match text {
            Some(text) => self.text(text),
            None => Ok(()),
        }
    }

    pub fn literal(&mut self, value: Literal) -> Result<(), AllocError>
        ensures { OnOk result (self.new.list.items ≡ self.old.list.items ++ literal value ∷ []) }
    {
        match value {
            Literal::Int(int) => self.number(int),
            Literal::Char(character) => {
                let c = character.value;
                self.token(TokenKind::Character(c), character.span)
            }
            Literal::Byte(byte) => self.token(TokenKind::Byte(byte.value), byte.span),
            Literal::Bool(boolean) => {
                if boolean.value {
                    self.keyword(Keyword::True, boolean.span)
                } else {
                    self.keyword(Keyword::False, boolean.span)
                }
            }
        }
    }

    /// Puts down a keyword that may be left out.
    pub fn optional_keyword(&mut self, word: Keyword, span: Option<Span>) -> Result<(), AllocError>
        ensures { OnOk result (self.new.list.items ≡ self.old.list.items ++ optional_keyword word span) }
    {
        match span {
            Some(span) => self.keyword(word, span),
            None => Ok(()),
        }
    }

    /// Puts down a mark that may be left out.
    pub fn optional_mark(
        &mut self,
        punctuation: Punctuation,
        span: Option<Span>,
    ) -> Result<(), AllocError>
        ensures { OnOk result (self.new.list.items ≡ self.old.list.items ++ optional_mark punctuation span) }
    {
        match span {
            Some(span) => self.mark(punctuation, span),
            None => Ok(()),
        }
    }

    /// Puts down the mark behind the value of a list at an index, if there is one.
    pub fn mark_at(
        &mut self,
        punctuation: Punctuation,
        spans: &[Span],
        at: usize,
    ) -> Result<(), AllocError>
        ensures { OnOk result (self.new.list.items ≡ self.old.list.items ++ optional_mark punctuation (slice_get spans.now at)) }
    {
        let span = span_at(spans, at);
        self.optional_mark(punctuation, span)
    }

    /// Puts down identifiers with a mark between them, and maybe one behind them.
    pub fn idents(
        &mut self,
        names: &[Ident],
        punctuation: Punctuation,
        marks: &[Span],
    ) -> Result<(), AllocError>
        ensures { OnOk result (self.new.list.items ≡ self.old.list.items ++ named punctuation names.now marks.now) }
    {
        for (at, name) in names.iter().enumerate() {
            self.ident(name)?;
            self.mark_at(punctuation, marks, at)?;
        }
        Ok(())
    }

    pub fn path(&mut self, path: &Path) -> Result<(), AllocError>
        ensures { OnOk result (self.new.list.items ≡ self.old.list.items ++ path_pieces path.now) }
    {
        self.idents(
            path.segments.as_slice(),
            Punctuation::PathSep,
            path.separators.as_slice(),
        )
    }
}

/// The mark that stands behind the value of a list at an index, if there is one.
fn span_at(spans: &[Span], at: usize) -> Option<Span>
    ensures { result ≡ slice_get spans.now at }
{
    spans.get(at).copied()
}
