//! Attributes.

ghost use Rattle.std.specs.Prelude.{◌≡◌};
ghost use Rattle.tb_lex.specs.declared.punctuation.Punctuation.TheVariants.{Pound};
ghost use Rattle.tb_syntax.specs.Reading.{Gives};
ghost use Rattle.tb_syntax.specs.Marks.{has_mark};
ghost use Rattle.tb_syntax.specs.Attributes.{is_word, has_word, words_at, repr_at, meta_at, inner_at, attribute_at, has_inner, inners_at, attributes_at};

use crate::cursor::Cursor;
use crate::elements::{Element, Repeated, list, many};
use crate::error::ReadError;
use crate::types::from_to;
use sqlite_items::Items;
use std::alloc::Global;
use tb_ast::{Attribute, InnerAttribute, Meta, Repr, WordList};
use tb_lex::{Punctuation, TokenKind};

fn is_word(word: &str, kind: &TokenKind) -> bool
    ensures { result ≡ is_word word.now kind.now }
{
    match kind {
        TokenKind::Name(name) => name.bytes.as_slice() == word.as_bytes(),
        _ => false,
    }
}

impl<'a> Cursor<'a> {
    /// Whether an identifier comes next that is read as this word.
    #[tactic(auto, unfolding(crate::specs::Attributes::has_word))]
    pub fn has_word(&self, word: &str) -> bool
        ensures { result ≡ has_word word.now self.now }
    {
        match self.kind() {
            Some(kind) => is_word(word, kind),
            None => false,
        }
    }

    /// This word, and words in parentheses.
    #[tactic(auto, unfolding(crate::specs::Attributes::words_at))]
    fn words(self, alloc: Global, word: &str) -> Result<(WordList, Cursor<'a>), ReadError>
        ensures { Gives (λ x. x) result (words_at word.now self.entry) }
    {
        let (word, rest) = self.word(word)?;
        let (opening, rest) = rest.punct(Punctuation::OpenParen)?;
        let (names, commas, rest) = list(alloc, 0, Punctuation::CloseParen, rest)?;
        let (closing, rest) = rest.punct(Punctuation::CloseParen)?;
        let words = WordList {
            word,
            opening,
            names,
            commas,
            closing,
        };
        Ok((words, rest))
    }

    #[tactic(auto, unfolding(crate::specs::Attributes::repr_at))]
    fn repr(self, alloc: Global) -> Result<(Repr, Cursor<'a>), ReadError>
        ensures { Gives (λ x. x) result (repr_at self.entry) }
    {
        let (word, rest) = self.word("repr")?;
        let (opening, rest) = rest.punct(Punctuation::OpenParen)?;
        let (name, rest) = rest.name(alloc)?;
        let (closing, rest) = rest.punct(Punctuation::CloseParen)?;
        let repr = Repr {
            word,
            opening,
            name,
            closing,
        };
        Ok((repr, rest))
    }

    /// What an attribute says.
    #[tactic(auto, unfolding(crate::specs::Attributes::meta_at))]
    fn meta(self, alloc: Global) -> Result<(Meta, Cursor<'a>), ReadError>
        ensures { Gives (λ x. x) result (meta_at self.entry) }
    {
        if self.has_word("allow") {
            let (words, rest) = self.words(alloc, "allow")?;
            return Ok((Meta::Allow(words), rest));
        }
        if self.has_word("derive") {
            let (words, rest) = self.words(alloc, "derive")?;
            return Ok((Meta::Derive(words), rest));
        }
        let (repr, rest) = self.repr(alloc)?;
        Ok((Meta::Repr(repr), rest))
    }

    /// An attribute of the whole file, and what follows it.
    #[tactic(auto, unfolding(crate::specs::Attributes::inner_at))]
    pub fn inner_attribute(self, alloc: Global) -> Result<(InnerAttribute, Cursor<'a>), ReadError>
        ensures { Gives (λ x. x) result (inner_at self.entry) }
    {
        let (pound, rest) = self.punct(Punctuation::Pound)?;
        let (bang, rest) = rest.punct(Punctuation::Not)?;
        let (opening, rest) = rest.punct(Punctuation::OpenBracket)?;
        let (allow, rest) = rest.words(alloc, "allow")?;
        let (closing, rest) = rest.punct(Punctuation::CloseBracket)?;
        let inner = InnerAttribute {
            span: from_to(pound, closing),
            pound,
            bang,
            opening,
            allow,
            closing,
        };
        Ok((inner, rest))
    }

    /// An attribute of an item, and what follows it.
    #[tactic(auto, unfolding(crate::specs::Attributes::attribute_at))]
    pub fn attribute(self, alloc: Global) -> Result<(Attribute, Cursor<'a>), ReadError>
        ensures { Gives (λ x. x) result (attribute_at self.entry) }
    {
        let (pound, rest) = self.punct(Punctuation::Pound)?;
        let (opening, rest) = rest.punct(Punctuation::OpenBracket)?;
        let (meta, rest) = rest.meta(alloc)?;
        let (closing, rest) = rest.punct(Punctuation::CloseBracket)?;
        let attribute = Attribute {
            span: from_to(pound, closing),
            pound,
            opening,
            meta,
            closing,
        };
        Ok((attribute, rest))
    }

    /// Whether `#!` comes next.
    #[tactic(auto, unfolding(crate::specs::Attributes::has_inner))]
    pub fn has_inner(&self) -> bool
        ensures { result ≡ has_inner self.now }
    {
        match self.next_mark(Punctuation::Pound) {
            Some((_, rest)) => rest.has_mark(Punctuation::Not),
            None => false,
        }
    }

    /// The attributes of the whole file, and what follows them.
    #[tactic(auto, unfolding(crate::specs::Attributes::inners_at))]
    pub fn inner_attributes(
        self,
        alloc: Global,
    ) -> Result<(Items<InnerAttribute>, Cursor<'a>), ReadError>
        ensures { Gives (λ x. x) result (inners_at self.entry) }
    {
        many(alloc, 0, self)
    }

    /// The attributes of an item, and what follows them.
    #[tactic(auto, unfolding(crate::specs::Attributes::attributes_at))]
    pub fn attributes(self, alloc: Global) -> Result<(Items<Attribute>, Cursor<'a>), ReadError>
        ensures { Gives (λ x. x) result (attributes_at self.entry) }
    {
        many(alloc, 0, self)
    }
}

impl Element for InnerAttribute {
    ghost one = { λ depth. inner_at };

    fn read(
        alloc: Global,
        depth: u32,
        cursor: Cursor<'_>,
    ) -> Result<(InnerAttribute, Cursor<'_>), ReadError> {
        cursor.inner_attribute(alloc)
    }
}

impl Repeated for InnerAttribute {
    ghost begins = { has_inner };

    fn begins(cursor: &Cursor<'_>) -> bool {
        cursor.has_inner()
    }
}

impl Element for Attribute {
    ghost one = { λ depth. attribute_at };

    fn read(
        alloc: Global,
        depth: u32,
        cursor: Cursor<'_>,
    ) -> Result<(Attribute, Cursor<'_>), ReadError> {
        cursor.attribute(alloc)
    }
}

impl Repeated for Attribute {
    ghost begins = { has_mark Pound };

    fn begins(cursor: &Cursor<'_>) -> bool {
        cursor.has_mark(Punctuation::Pound)
    }
}
