ghost use Rattle.std.specs.Prelude.{◌≡◌, ◌++◌, ◌∷◌, [], map, slice_get, OnOk, OnErr, IfOk};
ghost use Rattle.tb_mir.specs.Retags.{bare_lines, bare_block, bare_func, without_retags, is_retagged, retag_of, retags_after, retagged_lines, retagged_block, retagged_func, with_retags, RetagPlaced};

use sqlite_items::Items;
use std::alloc::{AllocError, Global};
use tb_mir::{Block, Func, Line, Local, Mir, MirLine, Rvalue};
use tb_perm::Span;

/// Whether a pointer that this local is given is retagged.
fn is_retagged(locals: &[Local], local: u32) -> bool
    ensures { result ≡ is_retagged (slice_get locals.now local) }
{
    match locals.get(local as usize) {
        Some(local) => local.is_retagged(),
        None => false,
    }
}

/// Adds the retag of a temporary that was given a pointer, if it is retagged.
fn push_retag(
    locals: &[Local],
    temp: u32,
    span: Span,
    lines: &mut Items<MirLine>,
) -> Result<(), AllocError>
    ensures { OnOk result (lines.new ≡ lines.old ++ retag_of locals.now temp span) }
{
    if is_retagged(locals, temp) {
        let line = Line::Retag(temp);
        lines.push(MirLine { line, span })
    } else {
        Ok(())
    }
}

/// Adds the retag that stands behind a line, if there is one.
fn push_retags(
    locals: &[Local],
    line: &MirLine,
    lines: &mut Items<MirLine>,
) -> Result<(), AllocError>
    ensures { OnOk result (lines.new ≡ lines.old ++ retags_after locals.now line.now.line line.now.span) }
{
    match &line.line {
        Line::Load(temp, _) | Line::Set(temp, Rvalue::Ref(_, _)) => {
            push_retag(locals, *temp, line.span, lines)
        }
        _ => Ok(()),
    }
}

/// Adds a line and its retag, or nothing for a retag.
fn push_line(
    alloc: Global,
    locals: &[Local],
    line: &MirLine,
    lines: &mut Items<MirLine>,
) -> Result<(), AllocError>
    ensures { OnOk result (lines.new ≡ lines.old ++ retagged_lines locals.now (bare_lines (line.now ∷ []))) }
{
    if line.line.is_retag() {
        return Ok(());
    }
    let copy = MirLine {
        line: line.line.try_clone(alloc)?,
        span: line.span,
    };
    lines.push(copy)?;
    push_retags(locals, line, lines)
}

/// The lines of a block, with the retags at their places.
#[tactic(auto, using(crate::proofs::Retagged::splits))]
fn lines_placed(
    alloc: Global,
    locals: &[Local],
    lines: &[MirLine],
) -> Result<Items<MirLine>, AllocError>
    ensures { IfOk result (λ placed. placed ≡ retagged_lines locals.now (bare_lines lines.now)) }
{
    let mut placed = Items::new(alloc);
    for line in lines {
        push_line(alloc, locals, line, &mut placed)?;
    }
    Ok(placed)
}

/// The blocks of a function, with the retags at their places.
fn blocks_placed(
    alloc: Global,
    locals: &[Local],
    blocks: &[Block],
) -> Result<Items<Block>, AllocError>
    ensures { IfOk result (λ placed. placed ≡ map (retagged_block locals.now) (map bare_block blocks.now)) }
{
    let mut placed = Items::new(alloc);
    for block in blocks {
        placed.push(Block {
            lines: lines_placed(alloc, locals, block.lines.as_slice())?,
        })?;
    }
    Ok(placed)
}

/// A function, with the retags at their places.
fn func_placed(alloc: Global, func: &Func) -> Result<Func, AllocError>
    ensures { IfOk result (λ placed. placed ≡ retagged_func (bare_func func.now)) }
{
    let locals = func.locals.as_slice();
    Ok(Func {
        name: Items::from_slice(alloc, func.name.as_slice())?,
        params: Items::from_slice(alloc, func.params.as_slice())?,
        locals: Items::from_slice(alloc, locals)?,
        blocks: blocks_placed(alloc, locals, func.blocks.as_slice())?,
    })
}

/// All functions, with the retags at their places.
fn funcs_placed(alloc: Global, funcs: &[Func]) -> Result<Items<Func>, AllocError>
    ensures { IfOk result (λ placed. placed ≡ map retagged_func (map bare_func funcs.now)) }
{
    let mut placed = Items::new(alloc);
    for func in funcs {
        placed.push(func_placed(alloc, func)?)?;
    }
    Ok(placed)
}

/// The program, with the retags at their places.
fn placed(alloc: Global, mir: &Mir) -> Result<Mir, AllocError>
    ensures { IfOk result (λ placed. placed ≡ with_retags (without_retags mir.now)) }
{
    Ok(Mir {
        funcs: funcs_placed(alloc, mir.funcs.as_slice())?,
    })
}

/// Puts a retag at each place of a program where one belongs, and takes away any other. All other lines stay.
///
/// A retag stands directly behind each load and each borrow whose temporary holds a reference and is not one for
/// the pointer of a place, and has the span of that line.
///
/// # Errors
///
/// `AllocError` where memory runs out; the program is then as before.
pub fn place(alloc: Global, mir: &mut Mir) -> Result<(), AllocError>
    ensures placed { OnOk result (RetagPlaced mir.new) }
    ensures same { OnOk result (without_retags mir.new ≡ without_retags mir.old) }
    ensures kept { OnErr result (mir.new ≡ mir.old) }
{
    *mir = placed(alloc, mir)?;
    Ok(())
}
