//! What an event does at each tag and byte.

ghost use Rattle.std.specs.Prelude.{◌≡◌, ◌<◌, ◌≤◌, length, map, slice_index_or, vec_capacity, None};
ghost use Rattle.tb_plain.specs.Sweep.{contains, met, rel_in, swept, strong_in, refusal_by};
ghost use Rattle.tb_perm.specs.Event.{moved_state, moved_states, refusal_of};
ghost use Rattle.tb_perm.specs.Table.{is_guarded};

use crate::row::PlainRow;
use sqlite_items::Items;
use tb_perm::{Guard, Kind, Perm, Refusal, Rel, State, step};

/// An event as the rows meet it: it is local for the tags of `path` and foreign for the others,
/// passes by the tags of `hidden`, and does `kinds` at the bytes. Where `strong` is set it asks for
/// strong guards alone, as a deallocation does in the end.
#[derive(Drop)]
pub struct Sweep {
    pub path: Items<u64>,
    pub hidden: Items<u64>,
    pub kinds: Items<Option<Kind>>,
    pub strong: bool,
}

/// Moves all rows by an event that none of them refuses.
pub fn sweep_rows(rows: &mut Vec<PlainRow>, sweep: &Sweep)
    ensures rows { rows.new.items ≡ map (swept sweep.now) rows.old.items }
    ensures capacity { vec_capacity rows.new ≡ vec_capacity rows.old }
{
    for at in 0..rows.len() {
        sweep_row(&mut rows[at], sweep);
    }
}

fn sweep_row(row: &mut PlainRow, sweep: &Sweep)
    ensures { row.new ≡ swept sweep.now row.old }
{
    if has(sweep.hidden.as_slice(), row.tag.0) {
        return;
    }
    let rel = relation(sweep, row.tag.0);
    let protected = is_protected(row.guard);
    move_states(&mut row.states, sweep, protected, rel);
}

fn move_states(states: &mut Items<State>, sweep: &Sweep, protected: bool, rel: Rel)
    ensures { states.new ≡ moved_states (λ byte. slice_index_or sweep.now.kinds byte None) protected rel 0 states.old }
{
    for at in 0..states.len() {
        let state = state_in(states.as_slice(), at);
        states.set(at, move_state(state, kind_in(sweep, at), protected, rel));
    }
}

fn state_in(states: &[State], at: usize) -> State
    requires { at < length states.now }
    ensures { result ≡ slice_index_or states.now at result }
{
    states[at]
}

fn move_state(state: State, kind: Option<Kind>, protected: bool, rel: Rel) -> State
    ensures { result ≡ moved_state kind protected rel state }
{
    match kind {
        Some(kind) => match step(state, protected, rel, kind) {
            Ok(moved) => moved,
            Err(_) => state,
        },
        None => state,
    }
}

/// Why a tag refuses the event at a byte, if it does.
pub fn refusal(row: &PlainRow, sweep: &Sweep, byte: usize) -> Option<Refusal>
    requires { byte < length row.now.states }
    ensures { result ≡ refusal_by sweep.now row.now byte }
{
    let state = row.states.as_slice()[byte];
    if sweep.strong {
        return strong_refusal(row.guard, state);
    }
    table_refusal(
        kind_at(sweep, row.tag.0, byte),
        is_protected(row.guard),
        relation(sweep, row.tag.0),
        state,
    )
}

fn table_refusal(kind: Option<Kind>, protected: bool, rel: Rel, state: State) -> Option<Refusal>
    ensures { result ≡ refusal_of kind protected rel state }
{
    match kind {
        Some(kind) => match step(state, protected, rel, kind) {
            Ok(_) => None,
            Err(refusal) => Some(refusal),
        },
        None => None,
    }
}

fn strong_refusal(guard: Guard, state: State) -> Option<Refusal>
    ensures { result ≡ strong_in guard state }
{
    match (guard, state.accessed, state.perm) {
        (Guard::Strong, true, Perm::Cell) => None,
        (Guard::Strong, true, _) => Some(Refusal::StrongDealloc),
        _ => None,
    }
}

/// The kind of access that a tag meets at a byte.
fn kind_at(sweep: &Sweep, tag: u64, byte: usize) -> Option<Kind>
    ensures { result ≡ met sweep.now tag byte }
{
    if has(sweep.hidden.as_slice(), tag) {
        return None;
    }
    kind_in(sweep, byte)
}

fn kind_in(sweep: &Sweep, byte: usize) -> Option<Kind>
    ensures { result ≡ slice_index_or sweep.now.kinds byte None }
{
    let kinds = sweep.kinds.as_slice();
    if byte < kinds.len() {
        return kinds[byte];
    }
    None
}

/// How a tag meets the event.
fn relation(sweep: &Sweep, tag: u64) -> Rel
    ensures { result ≡ rel_in sweep.now tag }
{
    if has(sweep.path.as_slice(), tag) {
        return Rel::Local;
    }
    Rel::Foreign
}

/// Whether a guard protects, weakly or strongly.
fn is_protected(guard: Guard) -> bool
    ensures { result ≡ is_guarded guard }
{
    match guard {
        Guard::Free => false,
        Guard::Weak | Guard::Strong => true,
    }
}

/// Whether a key is among others.
pub fn has(keys: &[u64], key: u64) -> bool
    ensures { result ≡ contains keys.now key }
{
    keys.contains(&key)
}
