ghost use Rattle.std.specs.Prelude.{◌≡◌, ◌≤◌, ℕ, length, OnOk, OnErr, Some};
ghost use Rattle.tb_perm.specs.Table.{is_guarded};
ghost use Rattle.tb_perm.specs.Event.{moved_state};
ghost use Rattle.tb_marks.specs.Marks.{lowered, raised};
ghost use Rattle.tb_marks.specs.Event.{leaves_at};
ghost use Rattle.tb_lazy_rows.specs.Kinds.{AreChanged, AreChangedBelow, first_refusal, are_left_alone};

use crate::by_kind::{Lowers, Moves, Raises};
use crate::refusals::first_refused;
use crate::values::change;
use std::alloc::AllocError;
use tb_perm::{Guard, Kind, Mark, Rel, Span, State, Tag};
use tb_ranges::Runs;

/// One tag with a state and a mark for each byte, as runs. Its parent stands in the tree of tags.
#[derive(Drop)]
pub struct LazyRow {
    pub tag: Tag,
    pub guard: Guard,
    pub made: Span,
    pub noted: bool,
    pub states: Runs<State>,
    pub marks: Runs<Mark>,
}

impl LazyRow {
    /// Moves the state at each byte by what the byte meets; a state that refuses stays. After running out of memory
    /// the states below some byte are moved, and the others are as they were.
    pub fn move_states(&mut self, rel: Rel, kinds: &Runs<Option<Kind>>) -> Result<(), AllocError>
        requires { length kinds.now ≡ length self.old.states }
        ensures moved { OnOk result (AreChanged (λ kind s. moved_state (Some kind) (is_guarded self.old.guard) rel s) kinds.now self.old.states self.new.states) }
        ensures torn { OnErr result ((end : ℕ) × AreChangedBelow (λ kind s. moved_state (Some kind) (is_guarded self.old.guard) rel s) kinds.now end self.old.states self.new.states) }
        ensures bytes { length self.new.states ≡ length self.old.states }
        ensures rest { self.new ≡ record self.old { states = self.new.states } }
    {
        let protected = is_protected(self.guard);
        change(&mut self.states, kinds, &Moves { protected, rel })
    }

    /// Lowers the mark at each byte by what goes through the tag there. After running out of memory the marks below
    /// some byte are lowered, and the others are as they were.
    pub fn lower_marks(&mut self, kinds: &Runs<Option<Kind>>) -> Result<(), AllocError>
        requires { length kinds.now ≡ length self.old.marks }
        ensures lowered { OnOk result (AreChanged lowered kinds.now self.old.marks self.new.marks) }
        ensures torn { OnErr result ((end : ℕ) × AreChangedBelow lowered kinds.now end self.old.marks self.new.marks) }
        ensures bytes { length self.new.marks ≡ length self.old.marks }
        ensures rest { self.new ≡ record self.old { marks = self.new.marks } }
    {
        change(&mut self.marks, kinds, &Lowers)
    }

    /// Raises the mark at each byte by what the tag and all tags below it have met there. After running out of memory
    /// the marks below some byte are raised, and the others are as they were.
    pub fn raise_marks(&mut self, kinds: &Runs<Option<Kind>>) -> Result<(), AllocError>
        requires { length kinds.now ≡ length self.old.marks }
        ensures raised { OnOk result (AreChanged raised kinds.now self.old.marks self.new.marks) }
        ensures torn { OnErr result ((end : ℕ) × AreChangedBelow raised kinds.now end self.old.marks self.new.marks) }
        ensures bytes { length self.new.marks ≡ length self.old.marks }
        ensures rest { self.new ≡ record self.old { marks = self.new.marks } }
    {
        change(&mut self.marks, kinds, &Raises)
    }

    /// Whether the mark at each byte leaves alone what the byte meets.
    pub fn is_shut(&self, kinds: &Runs<Option<Kind>>) -> bool
        ensures { result ≡ are_left_alone kinds.now self.now.marks }
    {
        self.marks.all_with(kinds, |mark, kind| leaves(mark, kind))
    }

    /// The first byte at which the tag refuses what the byte meets.
    pub fn first_refusal(&self, rel: Rel, kinds: &Runs<Option<Kind>>) -> Option<u32>
        requires { length kinds.now ≡ length self.now.states }
        ensures { result ≡ first_refusal kinds.now (is_guarded self.now.guard) rel self.now.states }
    {
        first_refused(&self.states, is_protected(self.guard), rel, kinds)
    }
}

/// Whether a guard protects, weakly or strongly.
fn is_protected(guard: Guard) -> bool
    ensures { result ≡ is_guarded guard }
{
    match guard {
        Guard::Free => false,
        Guard::Weak | Guard::Strong => true,
    }
}

/// Whether a mark leaves alone what its byte meets.
fn leaves(mark: Mark, kind: Option<Kind>) -> bool
    ensures { result ≡ leaves_at kind mark }
{
    match kind {
        Some(kind) => mark.leaves_alone(kind),
        None => true,
    }
}
