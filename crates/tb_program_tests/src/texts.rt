use sqlite_items::Items;
use std::alloc::{AllocError, Global};
use tb_perm::Span;
use tb_program::{
    Base, Block, Constant, Func, Line, Local, LocalKind, Mir, MirLine, Operand, Place, RefKind,
    Rvalue, text,
};
use tb_rules::{Scalars, intern};
use tb_types::{IntKind, Name, Ty, TyShape, Types};

const SPAN: Span = Span { lo: 0, hi: 1 };

fn place(alloc: Global, base: Base) -> Place {
    Place {
        base,
        parts: Items::new(alloc),
    }
}

fn int(value: i128) -> Operand {
    Operand::Const(Constant::Int(value, IntKind::I32))
}

/// The lines of a function that writes to a variable through a reference, and prints it.
fn lines(alloc: Global) -> Result<[Line; 12], AllocError> {
    let written = Items::from_slice(alloc, b"{}")?;
    let printed = Items::from_slice(alloc, &[Operand::Temp(3)])?;
    let reference = Items::from_slice(alloc, &[2])?;
    let loaded = Items::from_slice(alloc, &[3])?;
    Ok([
        Line::Live(1),
        Line::Store(place(alloc, Base::Variable(1)), int(1)),
        Line::Set(
            2,
            Rvalue::Ref(RefKind::Mut, place(alloc, Base::Variable(1))),
        ),
        Line::Retag(2),
        Line::Store(place(alloc, Base::Deref(2)), int(-2)),
        Line::Clear(reference),
        Line::Load(3, place(alloc, Base::Variable(1))),
        Line::Print(true, written, printed),
        Line::Clear(loaded),
        Line::Dead(1),
        Line::Set(0, Rvalue::Use(Operand::Const(Constant::Unit))),
        Line::Return,
    ])
}

fn block(alloc: Global) -> Result<Block, AllocError> {
    let mut list = Items::new(alloc);
    for line in lines(alloc)? {
        list.push(MirLine { line, span: SPAN })?;
    }
    Ok(Block { lines: list })
}

/// A program of this function.
fn program(alloc: Global, types: Types, locals: &[Local]) -> Result<Mir, AllocError> {
    let mut blocks = Items::new(alloc);
    blocks.push(block(alloc)?)?;
    let mut funcs = Items::new(alloc);
    funcs.push(Func {
        name: Name::new(alloc, "main")?,
        params: Items::new(alloc),
        locals: Items::from_slice(alloc, locals)?,
        blocks,
    })?;
    Ok(Mir { types, funcs })
}

const WANTED: &str = "fn main 0
  _0 temp ()
  _1 var i32
  _2 temp &mut i32
  _3 temp i32
b0:
  live _1
  store _1 1i32
  _2 = ref mut _1
  retag _2
  store *_2 -2i32
  clear _2
  _3 = load _1
  println \"{}\" _3
  clear _3
  dead _1
  _0 = use ()
  return
";

fn local(kind: LocalKind, ty: Ty) -> Local {
    Local { kind, ty }
}

#[test]
fn text_of_a_function(rt: HostRuntime) {
    let mut types = Types::new(rt.alloc());
    let scalars = Scalars::of(&mut types).expect(&rt, "memory");
    let reference = intern(&mut types, TyShape::Ref(true, scalars.i32)).expect(&rt, "memory");
    let locals = [
        local(LocalKind::Temp, scalars.unit),
        local(LocalKind::Variable, scalars.i32),
        local(LocalKind::Temp, reference),
        local(LocalKind::Temp, scalars.i32),
    ];
    let program = program(rt.alloc(), types, &locals).expect(&rt, "memory");
    let found = text(rt.alloc(), &program).expect(&rt, "memory");
    assert_eq!(rt; found.as_slice(), WANTED.as_bytes());
}
