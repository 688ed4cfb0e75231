ghost use Rattle.std.specs.Prelude.{◌≡◌, ◌<◌, ◌-◌, ◌^◌, IfOk, map};
ghost use Rattle.tb_eval.specs.Step.{first_slot};
ghost use Rattle.tb_mir.specs.declared.mir.Local.{Local};

use crate::carry::carry;
use sqlite_items::Items;
use std::alloc::{AllocError, Global};
use std::marker::Model;
use std::sync::ledger::Ledger;
use tb_base::{Sink, put_all};
use tb_eval::{Frame, Outcome, Slot};
use tb_heap::Heap;
use tb_mir::{Local, LocalKind, Mir};
use tb_perm::{BorrowTree, Steps};

/// What a step comes to.
#[derive(Clone, Copy, Debug, PartialEq, Eq)]
pub enum Turn {
    /// There is a next step.
    Goes,
    /// The run has ended.
    Ended(Outcome),
}

/// A run of a program, between two steps: its memory, with a tree of tags for each allocation, and
/// its frame.
#[derive(Drop)]
pub struct Machine<T: BorrowTree> {
    alloc: Global,
    heap: Heap<T>,
    frame: Frame,
    steps: u64,
}

impl<T: BorrowTree> Model for Machine<T> {
    ghost use Rattle.tb_run.specs.Held.{Held};

    ghost Value = { Held };

    ghost view = { λ m. record { state = record { memory = m.heap; frame = m.frame }; steps = m.steps } };
}

/// What a local has before the first step.
fn first(local: &Local) -> Slot
    ensures { result ≡ first_slot local.now.kind }
{
    match local.kind {
        LocalKind::Variable => Slot::Dead,
        LocalKind::Temp | LocalKind::PlaceTemp => Slot::Empty,
    }
}

/// What the locals have before the first step.
fn first_of(alloc: Global, locals: &[Local]) -> Result<Items<Slot>, AllocError>
    ensures { IfOk result (λ slots. slots ≡ map (λ (local : Local). first_slot local.kind) locals.now) }
{
    let mut slots = Vec::new(alloc);
    for local in locals {
        slots.push(first(local))?;
    }
    Ok(Items::from_vec(slots))
}

impl<T: BorrowTree> Machine<T> {
    ghost use Rattle.std.specs.Prelude.{◌≡◌};
    ghost use Rattle.tb_eval.specs.Sound.{IsSoundState};
    ghost use Rattle.tb_eval.specs.Step.{first_state, step_of};
    ghost use Rattle.tb_run.specs.Stepped.{Answers};
    ghost use Rattle.tb_run.specs.declared.machine.Turn.TheVariants as turn;

    /// A machine before the first line of the first function, which is `main`.
    pub fn start(alloc: Global, mir: &Mir) -> Result<Machine<T>, AllocError>
        ensures first { IfOk result (λ machine. machine ≡ record { state = first_state mir.now; steps = 0 }) }
        ensures sound { IfOk result (λ machine. IsSoundState machine.state) }
    {
        let Ok(locals) = first_of(alloc, mir.locals(0)) else {
            return Err(AllocError);
        };
        Ok(Machine {
            alloc,
            heap: Heap::new(alloc),
            frame: Frame {
                func: 0,
                block: 0,
                at: 0,
                locals,
            },
            steps: 0,
        })
    }

    /// Carries out the next line. What a print puts goes out within its step. It is not called after
    /// the run has ended.
    pub fn step<O: Sink, L: Ledger>(&mut self, mir: &Mir, out: &mut O, steps: &mut Steps<L>) -> Turn
        requires out { O.faults out.old < 2 ^ 64 - 1 }
        requires steps { self.old.steps < 2 ^ 64 - 1 }
        requires sound { IsSoundState self.old.state }
        ensures answers { Answers (step_of mir.now self.old.state) self.old self.new
            (record { bytes = O.bytes out.old; faults = O.faults out.old }) (record { bytes = O.bytes out.new; faults = O.faults out.new }) result }
        ensures sound { result ≡ turn.Goes → IsSoundState self.new.state }
    {
        let frame = &mut self.frame;
        let Some(line) = mir.line(frame.func, frame.block, frame.at) else {
            return Turn::Ended(Outcome::Finished);
        };
        let types = mir.locals(frame.func);
        let heap = &mut self.heap;
        let bytes = match carry(self.alloc, heap, &mut frame.locals, types, line, steps) {
            Ok(bytes) => bytes,
            Err(outcome) => return Turn::Ended(outcome),
        };
        if put_all(out, &bytes).is_err() {
            return Turn::Ended(Outcome::WriteFault);
        }
        self.frame.at += 1;
        self.steps += 1;
        Turn::Goes
    }
}
