//! The whole source.
ghost use Rattle.std.specs.Prelude.{◌≡◌, ◌≤◌, ◌+◌, ◌∷◌, ◌++◌, [], vec_len, OnOk, IfOk, codes};
ghost use Rattle.tb_small.specs.Grammar.{AreStatements, IsWithinLimits};
ghost use Rattle.tb_lower.specs.Lowering.{main_shape, main_lines, Realises};
ghost use Rattle.tb_lower.specs.Pieces.{names};
ghost use Rattle.tb_lower.specs.Ready.{AreReady};
ghost use Rattle.tb_lower.specs.Ways.{count, brings};

use crate::lowering::Lowering;
use sqlite_items::Items;
use std::alloc::{AllocError, Global};
use tb_mir::{Block, Constant, Func, Line, Local, LocalKind, Mir, MirLine, Operand, Rvalue, Ty};
use tb_small::SmallTree;

impl Lowering {
    /// Lowers the function of a source: its result is the first local, and then the body follows.
    fn function(&mut self, tree: &SmallTree) -> Result<(), AllocError>
        requires room { vec_len self.old.locals + count (main_shape tree.now) ≤ 4096 }
        requires variables { self.old.variables.items ≡ [] }
        requires ready { AreReady 0 tree.now.body.statements }
        ensures lines { OnOk result (self.new.lines.items ≡ self.old.lines.items ++ main_lines (names self.old (main_shape tree.now)) tree.now) }
        ensures locals { OnOk result (self.new.locals.items ≡ self.old.locals.items ++ brings (main_shape tree.now)) }
    {
        let result = self.bring(LocalKind::Temp, Ty::Unit)?;
        self.statements(tree.body.statements.as_slice())?;
        self.end_scope(tree.body.span)?;
        let unit = Rvalue::Use(Operand::Const(Constant::Unit));
        self.emit(Line::Set(result, unit), tree.function)?;
        self.emit(Line::Return, tree.function)
    }
}

/// The program of one function, which is called `main` and has one block.
fn main_of(alloc: Global, lines: Vec<MirLine>, locals: Vec<Local>) -> Result<Mir, AllocError>
    ensures { IfOk result (λ mir. mir ≡ record { funcs = record { name = codes "main"; params = []; locals = locals.items; blocks = record { lines = lines.items } ∷ [] } ∷ [] }) }
{
    let mut blocks = Vec::new(alloc);
    blocks.push(Block {
        lines: Items::from_vec(lines),
    })?;
    let mut funcs = Vec::new(alloc);
    funcs.push(Func {
        name: Items::from_slice(alloc, b"main")?,
        params: Items::new(alloc),
        locals: Items::from_vec(locals),
        blocks: Items::from_vec(blocks),
    })?;
    Ok(Mir {
        funcs: Items::from_vec(funcs),
    })
}

/// The middle representation of a source: its function `main`, whose locals are numbered in the
/// order in which they are brought in. It has no retags yet.
pub fn lower_source(alloc: Global, tree: &SmallTree) -> Result<Mir, AllocError>
    requires scopes { AreStatements [] tree.now.body.statements }
    requires limits { IsWithinLimits tree.now }
    ensures { IfOk result (λ mir. Realises tree.now mir) }
{
    let mut lowering = Lowering::new(alloc);
    lowering.function(tree)?;
    main_of(alloc, lowering.lines, lowering.locals)
}
