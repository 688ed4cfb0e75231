ghost use Rattle.std.specs.Prelude.{◌≡◌, ◌<◌};

use sqlite_items::Items;
use std::alloc::{AllocError, Global};
use std::marker::Brand;
use std::process::Abort;
use std::sync::ledger::{Blank, Ledger};
use std::test::Fail;
use tb_base::MemSink;
use tb_eval::{Outcome, Panic};
use tb_heap::Stop;
use tb_mir::{
    Base, BinOp, Block, Constant, Func, Line, Local, LocalKind, Mir, MirLine, Operand, Place,
    RefKind, Rvalue, Ty,
};
use tb_perm::{Access, AllocId, Perm, Refusal, Report, Span, Steps, Tag};
use tb_plain::PlainTree;
use tb_run::{Machine, Turn, run};

/// The variable of the programs here. Local 0 is the result.
const X: Place = Place {
    base: Base::Variable(1),
};

const MOST: Operand = Operand::Const(Constant::Int(2_147_483_647));

/// The span of the line at this place.
const fn at(line: u32) -> Span {
    Span {
        lo: line,
        hi: line.wrapping_add(1),
    }
}

/// What the pointer in a temporary points to.
const fn pointee(temp: u32) -> Place {
    Place {
        base: Base::Deref(temp),
    }
}

/// The only function of a program.
fn main_of(alloc: Global, blocks: Vec<Block>, locals: Vec<Local>) -> Result<Func, AllocError> {
    Ok(Func {
        name: Items::from_slice(alloc, b"main")?,
        params: Items::new(alloc),
        locals: Items::from_vec(locals),
        blocks: Items::from_vec(blocks),
    })
}

/// A variable, two temporaries for integers, one for each kind of pointer.
fn locals(alloc: Global) -> Result<Vec<Local>, AllocError> {
    let mut locals = Vec::new(alloc);
    for (kind, ty) in [
        (LocalKind::Temp, Ty::Unit),
        (LocalKind::Variable, Ty::Int32),
        (LocalKind::Temp, Ty::Int32),
        (LocalKind::Temp, Ty::Pointer(RefKind::RawMut)),
        (LocalKind::Temp, Ty::Pointer(RefKind::Mut)),
        (LocalKind::Temp, Ty::Pointer(RefKind::Shared)),
    ] {
        locals.push(Local { kind, ty })?;
    }
    Ok(locals)
}

/// A program of these lines.
fn program(alloc: Global, lines: Vec<MirLine>) -> Result<Mir, AllocError> {
    let mut blocks = Vec::new(alloc);
    blocks.push(Block {
        lines: Items::from_vec(lines),
    })?;
    let mut funcs = Vec::new(alloc);
    funcs.push(main_of(alloc, blocks, locals(alloc)?)?)?;
    Ok(Mir {
        funcs: Items::from_vec(funcs),
    })
}

/// Runs a program for at most so many steps, and compares how it ends and its output.
fn ends_from<L: Ledger>(
    blank: Blank,
    rt: &impl Abort,
    alloc: Global,
    mir: &Mir,
    bound: u64,
    wanted: Outcome,
    bytes: &[u8],
) -> Result<(), Fail>
    requires name { blank.name ≡ L.name }
    requires parts { blank.parts ≡ L.parts }
    requires some { 0 < L.parts }
{
    let mut steps: Steps<L> = Steps::new(blank);
    let out = MemSink::new(alloc, 64, 1, Vec::new(alloc));
    let mut out = out.ok().ok_or("memory")?;
    let mut machine: Machine<PlainTree> = Machine::start(alloc, mir)?;
    let end = run(&mut machine, mir, bound, &mut out, &mut steps);
    assert_eq!(rt; end, wanted);
    assert_eq!(rt; out.bytes(), bytes);
    Ok(())
}

/// The same of a program of these lines.
fn ends(
    rt: &impl Abort,
    alloc: Global,
    lines: Vec<MirLine>,
    bound: u64,
    wanted: Outcome,
    bytes: &[u8],
) -> Result<(), Fail> {
    let mir = program(alloc, lines)?;
    ends_from::<Brand>(Blank::new(1), rt, alloc, &mir, bound, wanted, bytes)
}

/// Adds a line, whose span tells its place.
fn add(lines: &mut Vec<MirLine>, line: Line) -> Result<(), AllocError> {
    let span = at(u32::try_from(lines.len()).unwrap_or(0));
    lines.push(MirLine { line, span })?;
    Ok(())
}

/// The same of a program of one line.
fn one(
    rt: &impl Abort,
    alloc: Global,
    line: Line,
    bound: u64,
    wanted: Outcome,
    bytes: &[u8],
) -> Result<(), Fail> {
    let mut lines = Vec::new(alloc);
    add(&mut lines, line)?;
    ends(rt, alloc, lines, bound, wanted, bytes)
}

#[test]
fn one_line(rt: HostRuntime) -> Result<(), Fail> {
    let alloc = rt.alloc();
    let sum = Rvalue::Binary(BinOp::Add, MOST, MOST);
    let text = Items::from_slice(alloc, b"a\\n")?;
    let print = Line::Print(true, text, Items::new(alloc));
    let dangling = Outcome::Undefined(Stop::Dangling, at(0));
    let uninit = Outcome::Undefined(Stop::Uninit, at(0));
    let overflow = Outcome::Panic(Panic::Overflow, at(0));
    one(&rt, alloc, Line::Return, 1, Outcome::Finished, b"")?;
    one(&rt, alloc, Line::Return, 0, Outcome::StepLimit, b"")?;
    one(&rt, alloc, Line::Live(1), 1, Outcome::StepLimit, b"")?;
    one(&rt, alloc, Line::Live(1), 2, Outcome::Finished, b"")?;
    one(&rt, alloc, Line::Dead(1), 2, dangling, b"")?;
    one(&rt, alloc, Line::Load(2, X), 2, dangling, b"")?;
    one(&rt, alloc, Line::Load(2, pointee(3)), 2, uninit, b"")?;
    one(&rt, alloc, Line::Store(X, MOST), 2, dangling, b"")?;
    one(&rt, alloc, Line::Set(2, sum), 2, overflow, b"")?;
    one(&rt, alloc, Line::Retag(3), 2, Outcome::Finished, b"")?;
    one(&rt, alloc, Line::Retag(4), 2, uninit, b"")?;
    one(&rt, alloc, print, 2, Outcome::Finished, b"a\n\n")
}

/// A variable with a value.
fn variable(alloc: Global) -> Result<Vec<MirLine>, AllocError> {
    let mut lines = Vec::new(alloc);
    add(&mut lines, Line::Live(1))?;
    add(&mut lines, Line::Store(X, MOST))?;
    Ok(lines)
}

/// A unique reference to the variable, by way of a raw pointer.
fn unique(alloc: Global) -> Result<Vec<MirLine>, AllocError> {
    let mut lines = variable(alloc)?;
    add(&mut lines, Line::Set(3, Rvalue::Ref(RefKind::RawMut, X)))?;
    add(
        &mut lines,
        Line::Set(4, Rvalue::Ref(RefKind::Mut, pointee(3))),
    )?;
    add(&mut lines, Line::Retag(4))?;
    Ok(lines)
}

/// How a run ends where the tag of that reference refuses, in the line at this place.
fn refused(refusal: Refusal, access: Access, perm: Perm, line: u32) -> Outcome {
    let report = Report {
        refusal,
        access,
        through: Tag(2),
        byte: 0,
        tag: Tag(2),
        perm,
        made: at(4),
    };
    Outcome::Undefined(Stop::Borrow(AllocId(1), report), at(line))
}

// A write through the raw pointer takes the variable from the reference.
#[test]
fn write_through_the_parent(rt: HostRuntime) -> Result<(), Fail> {
    let alloc = rt.alloc();
    let mut lines = unique(alloc)?;
    add(&mut lines, Line::Store(pointee(3), MOST))?;
    add(&mut lines, Line::Load(2, pointee(4)))?;
    let end = refused(Refusal::ReadForbidden, Access::Read, Perm::Disabled, 6);
    ends(&rt, alloc, lines, 9, end, b"")
}

// A reserved reference survives a read of the variable, and an active one is frozen by it.
#[test]
fn reads_of_the_variable(rt: HostRuntime) -> Result<(), Fail> {
    let alloc = rt.alloc();
    let mut lines = unique(alloc)?;
    add(&mut lines, Line::Load(2, X))?;
    add(&mut lines, Line::Store(pointee(4), MOST))?;
    add(&mut lines, Line::Load(2, X))?;
    add(&mut lines, Line::Store(pointee(4), MOST))?;
    let end = refused(Refusal::WriteForbidden, Access::Write, Perm::Frozen, 8);
    ends(&rt, alloc, lines, 12, end, b"")
}

// The end of the variable's life asks no leave of the reference.
#[test]
fn end_of_life(rt: HostRuntime) -> Result<(), Fail> {
    let alloc = rt.alloc();
    let mut lines = unique(alloc)?;
    add(&mut lines, Line::Dead(1))?;
    add(&mut lines, Line::Load(2, pointee(4)))?;
    let end = Outcome::Undefined(Stop::Dangling, at(6));
    ends(&rt, alloc, lines, 12, end, b"")
}

/// One step of a program of one line.
fn goes_from<L: Ledger>(blank: Blank, alloc: Global, mir: &Mir) -> Result<Turn, Fail>
    requires name { blank.name ≡ L.name }
    requires parts { blank.parts ≡ L.parts }
    requires some { 0 < L.parts }
{
    let mut steps: Steps<L> = Steps::new(blank);
    let out = MemSink::new(alloc, 64, 1, Vec::new(alloc));
    let mut out = out.ok().ok_or("memory")?;
    let mut machine: Machine<PlainTree> = Machine::start(alloc, mir)?;
    Ok(machine.step(mir, &mut out, &mut steps))
}

#[test]
fn one_step(rt: HostRuntime) -> Result<(), Fail> {
    let mir = program(rt.alloc(), variable(rt.alloc())?)?;
    let turn = goes_from::<Brand>(Blank::new(1), rt.alloc(), &mir)?;
    assert_eq!(rt; turn, Turn::Goes);
    Ok(())
}
