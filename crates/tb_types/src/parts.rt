ghost use Rattle.std.specs.Prelude.{◌≡◌};
ghost use Rattle.std.proofs.Common.{rules};
ghost use Rattle.std.specs.Cmp.{partial_equiv_from_equiv};
ghost use Rattle.std.specs.Cmp.Lexicographic.{lists_equiv};
ghost use Rattle.std.specs.Cmp.Rules.{comparing, hashing};
ghost use Rattle.std.specs.Hash as fed;
ghost use Rattle.std.specs.Hash.{items_Alike};
ghost use Rattle.tb_types.specs.Same.{ty_eq, ty_equiv, parts_eq, ty_input, ty_alike};

use crate::shape::Ty;
use std::alloc::Global;
use std::hash::{Hash, Hasher};
use std::marker::Model;

/// The types of the parts of a tuple, in order. Contracts see them as a list.
#[derive(Debug, Drop)]
pub struct Parts {
    types: Vec<Ty>,
}

impl Model for Parts {
    ghost use Rattle.std.specs.Prelude.{List};
    ghost use Rattle.tb_types.specs.declared.shape.Ty.{Ty};

    ghost Value = { List Ty };

    ghost view = { λ parts. parts.types.items };
}

impl Parts {
    pub fn from_vec(types: Vec<Ty>) -> Parts
        ensures { result ≡ types.items }
    {
        Parts { types }
    }

    pub fn as_slice(&self) -> &[Ty]
        ensures { result.now ≡ self.now }
    {
        self.types.as_slice()
    }
}

impl PartialEq for Parts {
    ghost eq = { parts_eq };

    ghost laws = { partial_equiv_from_equiv (lists_equiv ty_equiv) };

    fn eq(&self, other: &Parts) -> bool {
        self.types.as_slice() == other.types.as_slice()
    }
}

impl Eq for Parts {
    ghost laws = { lists_equiv ty_equiv };
}

impl Hash for Parts {
    ghost hash_input = { λ parts. fed.slice ty_input parts };

    ghost respects_eq = { (items_Alike ty_alike).fed };

    fn hash<H: Hasher>(&self, state: &mut H) {
        self.types.as_slice().hash(state);
    }
}
