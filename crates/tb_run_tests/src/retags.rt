use sqlite_items::Items;
use std::alloc::{AllocError, Global};
use std::test::Fail;
use tb_mir::{
    Base, BinOp, Block, Constant, Func, Line, Local, LocalKind, Mir, MirLine, Operand, Place,
    RefKind, Rvalue, Ty,
};
use tb_perm::Span;
use tb_retag::place;

/// Locals of every kind: 0 `()`, 1 a variable with a reference, 2 `i32`, 3 to 6 one of each kind of pointer, and
/// 7 a reference for a place.
const LOCALS: [(LocalKind, Ty); 8] = [
    (LocalKind::Temp, Ty::Unit),
    (LocalKind::Variable, Ty::Pointer(RefKind::Mut)),
    (LocalKind::Temp, Ty::Int32),
    (LocalKind::Temp, Ty::Pointer(RefKind::Shared)),
    (LocalKind::Temp, Ty::Pointer(RefKind::Mut)),
    (LocalKind::Temp, Ty::Pointer(RefKind::RawConst)),
    (LocalKind::Temp, Ty::Pointer(RefKind::RawMut)),
    (LocalKind::PlaceTemp, Ty::Pointer(RefKind::Mut)),
];

const fn variable(local: u32) -> Place {
    Place {
        base: Base::Variable(local),
    }
}

const fn pointee(temp: u32) -> Place {
    Place {
        base: Base::Deref(temp),
    }
}

const ZERO: Operand = Operand::Const(Constant::Int(0));

/// A line of each kind, by a number.
fn line_of(alloc: Global, number: u32) -> Result<Line, AllocError> {
    Ok(match number {
        0 => Line::Live(1),
        1 => Line::Load(2, pointee(7)),
        2 => Line::Load(3, variable(1)),
        3 => Line::Load(4, variable(1)),
        4 => Line::Load(5, variable(1)),
        5 => Line::Load(6, variable(1)),
        6 => Line::Load(7, variable(1)),
        7 => Line::Set(3, Rvalue::Ref(RefKind::Shared, pointee(7))),
        8 => Line::Set(4, Rvalue::Ref(RefKind::Mut, variable(1))),
        9 => Line::Set(5, Rvalue::Ref(RefKind::RawConst, variable(1))),
        10 => Line::Set(6, Rvalue::Ref(RefKind::RawMut, pointee(7))),
        11 => Line::Set(4, Rvalue::Use(ZERO)),
        12 => Line::Set(2, Rvalue::Binary(BinOp::Add, ZERO, ZERO)),
        13 => Line::Store(pointee(7), ZERO),
        14 => Line::Print(
            true,
            Items::from_slice(alloc, b"{}")?,
            Items::from_slice(alloc, &[ZERO])?,
        ),
        15 => Line::Clear(Items::from_slice(alloc, &[3, 4])?),
        16 => Line::Dead(1),
        17 => Line::Retag(4),
        18 => Line::Load(9, variable(1)),
        _ => Line::Return,
    })
}

/// A program of one function with one block for each of these lists of lines, whose spans begin at ten times their
/// place.
fn program(alloc: Global, blocks: &[&[u32]]) -> Result<Mir, AllocError> {
    let mut list = Vec::new(alloc);
    for numbers in blocks {
        let mut lines = Vec::new(alloc);
        let mut lo = 0;
        for number in *numbers {
            let line = line_of(alloc, *number)?;
            let span = Span { lo, hi: 900 };
            lines.push(MirLine { line, span })?;
            lo = lo.saturating_add(10);
        }
        list.push(Block {
            lines: Items::from_vec(lines),
        })?;
    }
    let mut locals = Vec::new(alloc);
    for (kind, ty) in LOCALS {
        locals.push(Local { kind, ty })?;
    }
    let mut funcs = Vec::new(alloc);
    funcs.push(Func {
        name: Items::from_slice(alloc, b"main")?,
        params: Items::new(alloc),
        locals: Items::from_vec(locals),
        blocks: Items::from_vec(list),
    })?;
    Ok(Mir {
        funcs: Items::from_vec(funcs),
    })
}

/// For each line of a block the start of its span, and behind `r` the temporary of a retag.
fn shown(alloc: Global, mir: &Mir, block: u32) -> Result<Vec<u8>, AllocError> {
    let mut out = Vec::new(alloc);
    for line in mir.lines(0, block) {
        let text = match line.line {
            Line::Retag(temp) => format!(in alloc; "{}r{temp} ", line.span.lo),
            _ => format!(in alloc; "{} ", line.span.lo),
        };
        out.extend_from_slice(text?.as_bytes())?;
    }
    Ok(out)
}

#[test]
fn retags_at_their_places(rt: HostRuntime) -> Result<(), Fail> {
    let rows: [(&[u32], &[u8]); 6] = [
        (&[], b""),
        (&[0, 1, 13, 16, 19], b"0 10 20 30 40 "),
        (&[2, 3, 4, 5, 6, 19], b"0 0r3 10 10r4 20 30 40 50 "),
        (
            &[7, 8, 9, 10, 11, 12, 14, 15, 19],
            b"0 0r3 10 10r4 20 30 40 50 60 70 80 ",
        ),
        (&[17, 8, 17, 17, 8, 19], b"10 10r4 40 40r4 50 "),
        (&[18, 19], b"0 10 "),
    ];
    for (numbers, wanted) in rows {
        let mut mir = program(rt.alloc(), &[&[19], numbers])?;
        for _ in 0..2 {
            place(rt.alloc(), &mut mir)?;
            let (first, found) = (shown(rt.alloc(), &mir, 0)?, shown(rt.alloc(), &mir, 1)?);
            assert_eq!(rt; first.as_slice(), b"0 ".as_slice());
            assert_eq!(rt; found.as_slice(), wanted);
            assert_eq!(rt; mir.locals(0).len(), 8);
        }
    }
    Ok(())
}
