//! What one line does to memory and the locals, and what it prints.
ghost use Rattle.std.specs.Prelude.{◌≡◌, [], slice_set, slice_get};
ghost use Rattle.tb_eval.specs.Sound.{KnowsSlots};
ghost use Rattle.tb_eval.specs.Step.{effect_of, given, load_at, store_at, retag_as, cleared, is_unique_local};
ghost use Rattle.tb_eval.specs.Print.{printed};
ghost use Rattle.tb_eval.specs.Value.{operand_value, place_pointer, rvalue_value};
ghost use Rattle.tb_heap.specs.Sound.{IsSound};
ghost use Rattle.tb_run.specs.Carried.{Carries, Acts, Tells, silent_effect, stopped_by};

use sqlite_items::Items;
use std::alloc::Global;
use std::sync::ledger::Ledger;
use tb_eval::{
    EvalError, Outcome, PrintError, Slot, operand, place, pointer, print_text, rvalue, variable,
};
use tb_heap::{Heap, Stop, Value};
use tb_mir::{Line, Local, MirLine, Operand, Place, RefKind, Rvalue, Ty};
use tb_perm::{BorrowTree, Span, Steps};

/// Gives a local another slot. A local that is not there has none.
fn set(locals: &mut Items<Slot>, local: u32, slot: Slot)
    ensures { locals.new ≡ slice_set locals.old local slot }
{
    if (local as usize) < locals.len() {
        locals.set(local as usize, slot);
    }
}

/// How a run ends where this stops it.
fn stopped(stop: Stop, span: Span) -> Outcome
    ensures { result ≡ stopped_by stop span }
{
    match stop {
        Stop::Memory => Outcome::Memory,
        Stop::Dangling | Stop::Borrow(_, _) | Stop::Uninit => Outcome::Undefined(stop, span),
    }
}

/// Begins the life of a variable.
fn bear<T: BorrowTree>(
    heap: &mut Heap<T>,
    locals: &mut Items<Slot>,
    types: &[Local],
    variable: u32,
    span: Span,
) -> Result<(), Outcome>
    ensures { Acts (effect_of types.now (Line.Live variable) span heap.old locals.old) heap.new locals.new result }
{
    let size = match types.get(variable as usize) {
        Some(local) => local.ty.size(),
        None => 0,
    };
    match heap.local_live(size, span) {
        Ok(prov) => {
            set(locals, variable, Slot::Live(prov));
            Ok(())
        }
        Err(stop) => Err(stopped(stop, span)),
    }
}

/// Ends the life of a variable.
#[tactic(auto, using(crate::proofs::Brought::brought_laws))]
fn bury<T: BorrowTree, L: Ledger>(
    heap: &mut Heap<T>,
    locals: &mut Items<Slot>,
    of: u32,
    span: Span,
    steps: &mut Steps<L>,
) -> Result<(), Outcome>
    requires locals { KnowsSlots heap.old locals.old }
    ensures { Acts (effect_of [] (Line.Dead of) span heap.old locals.old) heap.new locals.new result }
{
    let pointer = variable(locals.as_slice(), of);
    match heap.local_dead(pointer, steps) {
        Ok(()) => {
            set(locals, of, Slot::Dead);
            Ok(())
        }
        Err(stop) => Err(stopped(stop, span)),
    }
}

/// Loads a place into a temporary.
fn load<T: BorrowTree, L: Ledger>(
    heap: &mut Heap<T>,
    locals: &mut Items<Slot>,
    temp: u32,
    from: Place,
    span: Span,
    steps: &mut Steps<L>,
) -> Result<(), Outcome>
    requires locals { KnowsSlots heap.old locals.old }
    ensures { Acts (load_at heap.old locals.old temp span (place_pointer locals.old from)) heap.new locals.new result }
{
    let pointer = match place(locals.as_slice(), from) {
        Ok(pointer) => pointer,
        Err(stop) => return Err(stopped(stop, span)),
    };
    match heap.load(pointer, steps) {
        Ok(value) => {
            set(locals, temp, Slot::Holds(value));
            Ok(())
        }
        Err(stop) => Err(stopped(stop, span)),
    }
}

/// Stores an operand to a place.
#[tactic(auto, using(crate::proofs::Brought::brought_laws))]
fn store<T: BorrowTree, L: Ledger>(
    heap: &mut Heap<T>,
    locals: &Items<Slot>,
    to: Place,
    of: Operand,
    span: Span,
    steps: &mut Steps<L>,
) -> Result<(), Outcome>
    requires locals { KnowsSlots heap.old locals.now }
    ensures { Acts (store_at heap.old locals.now span (operand_value locals.now of) (place_pointer locals.now to)) heap.new locals.now result }
{
    let value = match operand(locals.as_slice(), of) {
        Ok(value) => value,
        Err(stop) => return Err(stopped(stop, span)),
    };
    let pointer = match place(locals.as_slice(), to) {
        Ok(pointer) => pointer,
        Err(stop) => return Err(stopped(stop, span)),
    };
    match heap.store(pointer, value, steps) {
        Ok(()) => Ok(()),
        Err(stop) => Err(stopped(stop, span)),
    }
}

/// Whether a retag of this local makes a unique reference or a shared one; none where it is no
/// reference.
fn uniqueness(types: &[Local], temp: u32) -> Option<bool>
    ensures { result ≡ is_unique_local (slice_get types.now temp) }
{
    match types.get(temp as usize)?.ty {
        Ty::Pointer(RefKind::Shared) => Some(false),
        Ty::Pointer(RefKind::Mut) => Some(true),
        Ty::Pointer(RefKind::RawConst | RefKind::RawMut) | Ty::Unit | Ty::Int32 => None,
    }
}

/// Gives the reference in a temporary a tag of its own.
#[tactic(auto, using(crate::proofs::Brought::brought_laws))]
fn retag<T: BorrowTree, L: Ledger>(
    heap: &mut Heap<T>,
    locals: &mut Items<Slot>,
    temp: u32,
    unique: Option<bool>,
    span: Span,
    steps: &mut Steps<L>,
) -> Result<(), Outcome>
    requires sound { IsSound heap.old }
    requires locals { KnowsSlots heap.old locals.old }
    ensures { Acts (retag_as heap.old locals.old temp span unique) heap.new locals.new result }
{
    let Some(unique) = unique else {
        return Ok(());
    };
    let value = match operand(locals.as_slice(), Operand::Temp(temp)) {
        Ok(value) => value,
        Err(stop) => return Err(stopped(stop, span)),
    };
    let to = match pointer(value) {
        Ok(to) => to,
        Err(stop) => return Err(stopped(stop, span)),
    };
    match heap.retag(to, unique, span, steps) {
        Ok(prov) => {
            set(locals, temp, Slot::Holds(Value::Pointer(Some(prov))));
            Ok(())
        }
        Err(stop) => Err(stopped(stop, span)),
    }
}

/// Gives a temporary the value of a right side.
fn give<T: BorrowTree>(
    heap: &Heap<T>,
    locals: &mut Items<Slot>,
    temp: u32,
    of: Rvalue,
    span: Span,
) -> Result<(), Outcome>
    ensures { Acts (given heap.now locals.old temp span (rvalue_value locals.old of)) heap.now locals.new result }
{
    match rvalue(locals.as_slice(), of) {
        Ok(value) => {
            set(locals, temp, Slot::Holds(value));
            Ok(())
        }
        Err(EvalError::Stop(stop)) => Err(Outcome::Undefined(stop, span)),
        Err(EvalError::Panic(panic)) => Err(Outcome::Panic(panic, span)),
    }
}

/// Takes the values of temporaries away.
fn clear(locals: &mut Items<Slot>, temps: &[u32])
    ensures { locals.new ≡ cleared locals.old temps.now }
{
    for temp in temps {
        set(locals, *temp, Slot::Empty);
    }
}

/// What a print puts.
fn tell(
    alloc: Global,
    locals: &[Slot],
    span: Span,
    newline: bool,
    text: &[u8],
    operands: &[Operand],
) -> Result<Vec<u8>, Outcome>
    ensures { Tells (printed newline text.now locals.now operands.now) span result }
{
    match print_text(alloc, locals, newline, text, operands) {
        Ok(bytes) => Ok(bytes),
        Err(PrintError::Stop(stop)) => Err(stopped(stop, span)),
        Err(PrintError::Memory) => Err(Outcome::Memory),
    }
}

/// Carries out a line that prints nothing, or returns how it ends the run.
fn act<T: BorrowTree, L: Ledger>(
    heap: &mut Heap<T>,
    locals: &mut Items<Slot>,
    types: &[Local],
    line: &Line,
    span: Span,
    steps: &mut Steps<L>,
) -> Result<(), Outcome>
    requires sound { IsSound heap.old }
    requires locals { KnowsSlots heap.old locals.old }
    ensures { Acts (silent_effect types.now line.now span heap.old locals.old) heap.new locals.new result }
{
    match line {
        Line::Live(variable) => bear(heap, locals, types, *variable, span),
        Line::Dead(variable) => bury(heap, locals, *variable, span, steps),
        Line::Load(temp, from) => load(heap, locals, *temp, *from, span, steps),
        Line::Store(to, of) => store(heap, locals, *to, *of, span, steps),
        Line::Set(temp, of) => give(heap, locals, *temp, *of, span),
        Line::Retag(temp) => retag(heap, locals, *temp, uniqueness(types, *temp), span, steps),
        Line::Clear(temps) => {
            clear(locals, temps.as_slice());
            Ok(())
        }
        Line::Return => Err(Outcome::Finished),
        Line::Print(_, _, _) => Ok(()),
    }
}

/// Carries out a line: returns the bytes that it prints, or how it ends the run.
#[tactic(auto, using(crate::proofs::Brought::line_ends))]
pub fn carry<T: BorrowTree, L: Ledger>(
    alloc: Global,
    heap: &mut Heap<T>,
    locals: &mut Items<Slot>,
    types: &[Local],
    line: &MirLine,
    steps: &mut Steps<L>,
) -> Result<Vec<u8>, Outcome>
    requires sound { IsSound heap.old }
    requires locals { KnowsSlots heap.old locals.old }
    ensures { Carries (effect_of types.now line.now.line line.now.span heap.old locals.old) heap.new locals.new result }
{
    match &line.line {
        Line::Print(newline, text, operands) => {
            let locals = locals.as_slice();
            let operands = operands.as_slice();
            tell(
                alloc,
                locals,
                line.span,
                *newline,
                text.as_slice(),
                operands,
            )
        }
        other => match act(heap, locals, types, other, line.span, steps) {
            Ok(()) => Ok(Vec::new(alloc)),
            Err(outcome) => Err(outcome),
        },
    }
}
