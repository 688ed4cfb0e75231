use crate::line::MirLine;
use crate::operand::RefKind;
use sqlite_items::Items;
use tb_perm::Span;

/// The type of a local.
#[derive(Clone, Copy, Debug, PartialEq, Eq)]
pub enum Ty {
    /// `()`.
    Unit,
    /// `i32`.
    Int32,
    /// A pointer of this kind to an `i32`.
    Pointer(RefKind),
}

impl Ty {
    ghost use Rattle.std.specs.Prelude.{◌≡◌};
    ghost use Rattle.tb_mir.specs.Retags.{holds_retag};
    ghost use Rattle.tb_mir.specs.Ty.{size_of};

    /// Whether a value is a reference, which gets a tag of its own where it is made and where it is
    /// loaded.
    pub fn holds_retag(self) -> bool
        ensures { result ≡ holds_retag self }
    {
        matches!(self, Ty::Pointer(RefKind::Shared | RefKind::Mut))
    }

    /// How many bytes a value has (Rust Reference, type layout).
    pub fn size(self) -> u32
        ensures { result ≡ size_of self }
    {
        match self {
            Ty::Unit => 0,
            Ty::Int32 => 4,
            Ty::Pointer(_) => 8,
        }
    }
}

/// How a local is kept: a variable lives in memory, a temporary beside it.
#[derive(Clone, Copy, Debug, PartialEq, Eq)]
pub enum LocalKind {
    Variable,
    Temp,
    /// A temporary for the pointer of a place that is dereferenced. It is never retagged.
    PlaceTemp,
}

/// A local of a function.
#[derive(Clone, Copy, Debug, PartialEq, Eq)]
pub struct Local {
    pub kind: LocalKind,
    pub ty: Ty,
}

impl Local {
    ghost use Rattle.std.specs.Prelude.{◌≡◌, Some};
    ghost use Rattle.tb_mir.specs.Retags.{is_retagged};

    /// Whether a pointer that the local is given is retagged: a reference is, but not in a temporary
    /// for a place.
    pub fn is_retagged(self) -> bool
        ensures { result ≡ is_retagged (Some self) }
    {
        self.ty.holds_retag() && self.kind != LocalKind::PlaceTemp
    }
}

/// Lines that run one after another. The last is a terminator.
#[derive(Debug, Drop)]
pub struct Block {
    pub lines: Items<MirLine>,
}

/// A function. Its locals and blocks are numbered by their places in the lists, from 0. Local 0 is a
/// temporary for the result, and block 0 is the first to run.
#[derive(Debug, Drop)]
pub struct Func {
    pub name: Items<u8>,
    /// For each parameter, from its name to the end of its type.
    pub params: Items<Span>,
    pub locals: Items<Local>,
    pub blocks: Items<Block>,
}

/// A whole program, by its functions in the order of the source.
#[derive(Debug, Drop)]
pub struct Mir {
    pub funcs: Items<Func>,
}

impl Mir {
    ghost use Rattle.std.specs.Prelude.{◌≡◌, ◌<◌, ◌+◌, ◌^◌, OnSome};
    ghost use Rattle.std.specs.Option.{option_copied};
    ghost use Rattle.tb_mir.specs.Mir.{line_at, lines_of, locals_of};

    /// The lines of a block of a function. There are none where the function or the block is not
    /// there.
    pub fn lines(&self, func: u32, block: u32) -> &[MirLine]
        ensures { result.now ≡ lines_of self.now func block }
    {
        let Some(func) = self.funcs.get(func as usize) else {
            return &[];
        };
        match func.blocks.get(block as usize) {
            Some(block) => block.lines.as_slice(),
            None => &[],
        }
    }

    /// The locals of a function. There are none where the function is not there.
    pub fn locals(&self, func: u32) -> &[Local]
        ensures { result.now ≡ locals_of self.now func }
    {
        match self.funcs.get(func as usize) {
            Some(func) => func.locals.as_slice(),
            None => &[],
        }
    }

    /// A line of a block of a function, by its place in it, if it is there.
    pub fn line(&self, func: u32, block: u32, at: usize) -> Option<&MirLine>
        ensures line { option_copied result ≡ line_at self.now func block at }
        ensures within { OnSome result (at + 1 < 2 ^ 64) }
    {
        self.lines(func, block).get(at)
    }
}
