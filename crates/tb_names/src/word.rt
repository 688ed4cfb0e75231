//! Names as keys.

ghost use Rattle.std.specs.Prelude.{◌≡◌, IfOk};
ghost use Rattle.std.specs.Cmp.{partial_equiv_from_equiv, unsigned_Decides};
ghost use Rattle.std.specs.Cmp.Lexicographic.{nat_list_eq_equiv};
ghost use Rattle.std.specs.Hash as fed;
ghost use Rattle.std.specs.Hash.{items_Alike, same_Alike};
ghost use Rattle.std.specs.Str.{bytes_eq};

use indexmap::Equivalent;
use std::alloc::{AllocError, Global};
use std::hash::{Hash, Hasher};
use std::marker::Model;

/// A name of its own. Contracts see its bytes.
#[derive(Debug, Drop)]
pub struct Word {
    bytes: Vec<u8>,
}

impl Model for Word {
    ghost use Rattle.std.specs.Prelude.{List, ℕ};
    ghost use Rattle.std.specs.Coded.{coded_list, coded_ℕ};

    ghost Value = { List ℕ };

    ghost coded = { coded_list coded_ℕ };

    ghost view = { λ word. word.bytes.items };
}

impl Word {
    /// The name of these bytes. It answers with an error where it is out of memory.
    pub fn new(alloc: Global, bytes: &[u8]) -> Result<Word, AllocError>
        ensures { IfOk result (λ word. word ≡ bytes.now) }
    {
        match Vec::from_slice(alloc, bytes) {
            Ok(bytes) => Ok(Word { bytes }),
            Err(_) => Err(AllocError),
        }
    }
}

impl PartialEq for Word {
    ghost eq = { bytes_eq };

    ghost laws = { partial_equiv_from_equiv nat_list_eq_equiv };

    fn eq(&self, other: &Word) -> bool {
        self.bytes.as_slice() == other.bytes.as_slice()
    }
}

impl Eq for Word {
    ghost laws = { nat_list_eq_equiv };
}

impl Hash for Word {
    ghost hash_input = { λ word. fed.slice fed.u8 word };

    ghost respects_eq = { (items_Alike (same_Alike fed.u8 unsigned_Decides)).fed };

    fn hash<H: Hasher>(&self, state: &mut H) {
        self.bytes.as_slice().hash(state);
    }
}

/// Bytes stand for the name that has them.
impl Equivalent<Word> for &[u8] {
    ghost equivalent = { λ name word. bytes_eq name.now word };

    ghost respects_hash = { λ name word. (items_Alike (same_Alike fed.u8 unsigned_Decides)).fed name.now word };

    ghost respects_eq = { λ name one other. nat_list_eq_equiv.congr name.now one other };

    fn equivalent(&self, key: &Word) -> bool {
        *self == key.bytes.as_slice()
    }
}
