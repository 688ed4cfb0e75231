ghost use Rattle.std.specs.Prelude.{◌≡◌, ◌+◌, ℕ, [], ◌∷◌, ◌++◌, List, Option, length};
ghost use Rattle.tb_perm.specs.declared.perm.Rel.TheVariants.{Local};
ghost use Rattle.tb_walk.specs.Blame.{IsBlamed};
ghost use Rattle.tb_walk.specs.Steps.{is_before};

use crate::event_tags::EventTags;
use std::sync::ledger::Ledger;
use tb_perm::{Rel, Steps};

/// A tag that refuses an event, and the first byte at which it does.
#[derive(Clone, Copy, Debug, PartialEq, Eq)]
pub struct Blame {
    pub byte: u32,
    pub key: u64,
}

/// The blame among the tags of the way: on the least byte at which one refuses, and there on the nearest tag. A step
/// is counted for each tag.
pub fn blame_on_way<T: EventTags, L: Ledger>(
    path: &[u64],
    tags: &T,
    steps: &mut Steps<L>,
) -> Option<Blame>
    ensures blame { IsBlamed (T.refused tags.now Local) Local path.now result }
    ensures counted { steps.new ≡ steps.old + length path.now }
{
    let mut best = None;
    for key in path.iter() {
        steps.tick();
        best = better(Rel::Local, best, tags.first_refusal(Rel::Local, *key), *key);
    }
    best
}

/// The blame once a further tag is asked.
pub fn better(rel: Rel, best: Option<Blame>, found: Option<u32>, key: u64) -> Option<Blame>
    ensures { (refused : ℕ → Option ℕ) (keys : List ℕ) → refused key ≡ found → IsBlamed refused rel keys best → IsBlamed refused rel (keys ++ key ∷ []) result }
{
    let Some(byte) = found else {
        return best;
    };
    let Some(blame) = best else {
        return Some(Blame { byte, key });
    };
    if is_before(rel, byte, key, blame) {
        return Some(Blame { byte, key });
    }
    Some(blame)
}

/// Whether a refusal at this byte by this tag comes before the blame so far.
fn is_before(rel: Rel, byte: u32, key: u64, blame: Blame) -> bool
    ensures { result ≡ is_before rel byte key blame }
{
    if byte != blame.byte {
        return byte < blame.byte;
    }
    match rel {
        Rel::Local => key > blame.key,
        Rel::Foreign => key < blame.key,
    }
}
