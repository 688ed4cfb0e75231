//! Whole programs.

use crate::line::MirLine;
use sqlite_items::Items;
use tb_perm::Span;
use tb_types::{Name, Ty, Types};

/// How a local is kept: a variable lives in memory, a temporary beside it.
#[derive(Clone, Copy, Debug, PartialEq, Eq)]
pub enum LocalKind {
    Variable,
    Temp,
    /// A temporary for the pointer of a place. It is never retagged.
    PlaceTemp,
}

/// A local of a function.
#[derive(Clone, Copy, Debug, PartialEq, Eq)]
pub struct Local {
    pub kind: LocalKind,
    pub ty: Ty,
}

/// Lines that run one after another. The last is a terminator.
#[derive(Debug, Drop)]
pub struct Block {
    pub lines: Items<MirLine>,
}

/// A function. Its locals and blocks are numbered by their places in the lists, from 0. Local 0 is a temporary for the result, the
/// parameters follow, and block 0 is the first to run.
#[derive(Debug, Drop)]
pub struct Func {
    pub name: Name,
    /// For each parameter, from its name to the end of its type.
    pub params: Items<Span>,
    pub locals: Items<Local>,
    pub blocks: Items<Block>,
}

/// A whole program: its types, and its functions in the order of the source.
#[derive(Drop)]
pub struct Mir {
    pub types: Types,
    pub funcs: Items<Func>,
}
