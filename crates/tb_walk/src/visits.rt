ghost use Rattle.std.specs.Prelude.{◌≡◌, ◌≤◌, ◌<◌, ◌+◌, ℕ, Bool, [], ◌∷◌, ◌++◌, cond, not, filter, length, drop, take, IfOk, OnOk, Option};
ghost use Rattle.tb_perm.specs.declared.perm.Rel.TheVariants.{Foreign};
ghost use Rattle.tb_shape.specs.Tree.{IsKeys, IsPath};
ghost use Rattle.tb_walk.specs.Walk.{IsWalk, AreOpened, is_left_out, counted};
ghost use Rattle.tb_walk.specs.Steps.{before, Adds};
ghost use Rattle.tb_walk.specs.Blame.{IsBlamed};

use crate::blame::{Blame, better};
use crate::event_tags::EventTags;
use std::alloc::{AllocError, Global};
use std::sync::ledger::Ledger;
use tb_perm::{Rel, Steps};
use tb_shape::Shape;

/// The tags that an event visits off its way, and the blame among them: on the least byte at which one refuses, and
/// there on the least tag.
#[derive(Drop)]
pub struct Walked {
    pub keys: Vec<u64>,
    pub blame: Option<Blame>,
}

/// Walks from the way of an event into the tree: to the children of the tags of the way from the place `from` on,
/// and from each visited tag that is not shut to its children. A step is counted for each visited tag.
pub fn walk<T: EventTags, L: Ledger>(
    alloc: Global,
    shape: &Shape,
    path: &[u64],
    from: usize,
    tags: &T,
    steps: &mut Steps<L>,
) -> Result<Walked, AllocError>
    requires tree { (root : ℕ) × IsKeys shape.now root }
    requires way { (key : ℕ) × IsPath shape.now key path.now }
    ensures walk { IfOk result (λ found. IsWalk shape.now path.now (drop from path.now) (T.shut tags.now) found.keys.items) }
    ensures blame { IfOk result (λ found. IsBlamed (T.refused tags.now Foreign) Foreign found.keys.items found.blame) }
    ensures steps { IfOk result (λ found. steps.new ≡ steps.old + length found.keys.items) }
    ensures counted { steps.new + length path.now ≤ steps.old + counted shape.now path.now (T.shut tags.now) }
{
    let mut keys = Vec::new(alloc);
    seed(shape, path, from, &mut keys)?;
    let blame = spread(shape, path, from, tags, &mut keys, steps)?;
    Ok(Walked { keys, blame })
}

/// Puts the children of the tags of the way, from the place `from` on, that are not themselves on the way.
fn seed(shape: &Shape, path: &[u64], from: usize, keys: &mut Vec<u64>) -> Result<(), AllocError>
    requires way { (key : ℕ) × IsPath shape.now key path.now }
    requires empty { keys.old.items ≡ [] }
    ensures { OnOk result ((shut : ℕ → Bool) → AreOpened shape.now path.now (drop from path.now) shut [] keys.new.items) }
{
    for at in from..path.len() {
        add_children(shape.children(path[at]), key_before(path, at), keys)?;
    }
    Ok(())
}

/// The key before a place of a list.
fn key_before(path: &[u64], at: usize) -> Option<u64>
    requires { at < length path.now }
    ensures { result ≡ before path.now at }
{
    if at == 0 {
        return None;
    }
    Some(path[at - 1])
}

/// Adds children to the keys, but for one that is left out.
fn add_children(
    children: &[u64],
    left_out: Option<u64>,
    keys: &mut Vec<u64>,
) -> Result<(), AllocError>
    ensures { OnOk result (keys.new.items ≡ keys.old.items ++ filter (λ child. not (is_left_out left_out child)) children.now) }
{
    for child in children.iter() {
        if left_out != Some(*child) {
            add(keys, *child)?;
        }
    }
    Ok(())
}

fn add(keys: &mut Vec<u64>, key: u64) -> Result<(), AllocError>
    ensures { OnOk result (keys.new.items ≡ keys.old.items ++ key ∷ []) }
{
    match keys.push(key) {
        Ok(()) => Ok(()),
        Err(_) => Err(AllocError),
    }
}

/// Visits the keys one after another, and adds the children of each that is not shut.
fn spread<T: EventTags, L: Ledger>(
    shape: &Shape,
    path: &[u64],
    from: usize,
    tags: &T,
    keys: &mut Vec<u64>,
    steps: &mut Steps<L>,
) -> Result<Option<Blame>, AllocError>
    requires tree { (root : ℕ) × IsKeys shape.now root }
    requires way { (key : ℕ) × IsPath shape.now key path.now }
    requires seeded { AreOpened shape.now path.now (drop from path.now) (T.shut tags.now) [] keys.old.items }
    ensures walk { OnOk result (AreOpened shape.now path.now (drop from path.now) (T.shut tags.now) keys.new.items keys.new.items) }
    ensures blame { IfOk result (λ blame. IsBlamed (T.refused tags.now Foreign) Foreign keys.new.items blame) }
    ensures steps { OnOk result (steps.new ≡ steps.old + length keys.new.items) }
    ensures counted { steps.new + length path.now ≤ steps.old + counted shape.now path.now (T.shut tags.now) }
{
    let mut best = None;
    let mut at = 0;
    while at < keys.len() {
        let key = keys[at];
        steps.tick();
        best = better(
            Rel::Foreign,
            best,
            tags.first_refusal(Rel::Foreign, key),
            key,
        );
        add_opened(shape, tags, key, keys)?;
        at += 1;
    }
    Ok(best)
}

/// Adds the children of a tag that is not shut.
fn add_opened<T: EventTags>(
    shape: &Shape,
    tags: &T,
    key: u64,
    keys: &mut Vec<u64>,
) -> Result<(), AllocError>
    ensures { OnOk result (Adds shape.now (T.shut tags.now) key keys.old.items keys.new.items) }
{
    if tags.is_shut(key) {
        return Ok(());
    }
    add_children(shape.children(key), None, keys)
}
