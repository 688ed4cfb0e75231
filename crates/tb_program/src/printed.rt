//! The text of programs.

ghost use Rattle.std.specs.Prelude.{◌≡◌, ◌++◌, OnOk, IfOk};
ghost use Rattle.tb_program.specs.Texts.{local_word, local_line, locals_lines, lines_text, blocks_text, head_text, function_text, functions_text, program_text};

use crate::line::MirLine;
use crate::lines::put_line;
use crate::pieces::{put, put_number};
use crate::program::{Block, Func, Local, LocalKind, Mir};
use crate::types::put_type;
use std::alloc::{AllocError, Global};
use tb_types::Types;

fn local_word(kind: LocalKind) -> &'static [u8]
    ensures { result.now ≡ local_word kind }
{
    match kind {
        LocalKind::Variable => b" var ",
        LocalKind::Temp | LocalKind::PlaceTemp => b" temp ",
    }
}

fn put_local(
    alloc: Global,
    types: &Types,
    out: &mut Vec<u8>,
    number: usize,
    local: Local,
) -> Result<(), AllocError>
    ensures { OnOk result (out.new.items ≡ out.old.items ++ local_line types.now number local) }
{
    put(out, b"  _")?;
    put_number(alloc, out, number as u64)?;
    put(out, local_word(local.kind))?;
    put_type(alloc, types, out, local.ty)?;
    put(out, b"\n")
}

fn put_locals(
    alloc: Global,
    types: &Types,
    out: &mut Vec<u8>,
    locals: &[Local],
) -> Result<(), AllocError>
    ensures { OnOk result (out.new.items ≡ out.old.items ++ locals_lines types.now 0 locals.now) }
{
    for (number, local) in locals.iter().enumerate() {
        put_local(alloc, types, out, number, *local)?;
    }
    Ok(())
}

fn put_lines(
    alloc: Global,
    types: &Types,
    funcs: &[Func],
    out: &mut Vec<u8>,
    lines: &[MirLine],
) -> Result<(), AllocError>
    ensures { OnOk result (out.new.items ≡ out.old.items ++ lines_text types.now funcs.now lines.now) }
{
    for line in lines {
        put(out, b"  ")?;
        put_line(alloc, types, funcs, out, &line.line)?;
        put(out, b"\n")?;
    }
    Ok(())
}

fn put_blocks(
    alloc: Global,
    types: &Types,
    funcs: &[Func],
    out: &mut Vec<u8>,
    blocks: &[Block],
) -> Result<(), AllocError>
    ensures { OnOk result (out.new.items ≡ out.old.items ++ blocks_text types.now funcs.now 0 blocks.now) }
{
    for (number, block) in blocks.iter().enumerate() {
        put(out, b"b")?;
        put_number(alloc, out, number as u64)?;
        put(out, b":\n")?;
        put_lines(alloc, types, funcs, out, block.lines.as_slice())?;
    }
    Ok(())
}

fn put_head(alloc: Global, out: &mut Vec<u8>, func: &Func) -> Result<(), AllocError>
    ensures { OnOk result (out.new.items ≡ out.old.items ++ head_text func.now) }
{
    put(out, b"fn ")?;
    put(out, func.name.as_str().as_bytes())?;
    put(out, b" ")?;
    put_number(alloc, out, func.params.len() as u64)?;
    put(out, b"\n")
}

fn put_func(
    alloc: Global,
    types: &Types,
    funcs: &[Func],
    out: &mut Vec<u8>,
    func: &Func,
) -> Result<(), AllocError>
    ensures { OnOk result (out.new.items ≡ out.old.items ++ function_text types.now funcs.now func.now) }
{
    put_head(alloc, out, func)?;
    put_locals(alloc, types, out, func.locals.as_slice())?;
    put_blocks(alloc, types, funcs, out, func.blocks.as_slice())
}

/// The program as text: for each function a line with its name and the number of its parameters, a line for each local, and its
/// blocks with a line for each of theirs.
pub fn text(alloc: Global, program: &Mir) -> Result<Vec<u8>, AllocError>
    ensures text { IfOk result (λ text. text.items ≡ program_text program.now) }
{
    let mut out = Vec::new(alloc);
    let funcs = program.funcs.as_slice();
    for func in funcs {
        put_func(alloc, &program.types, funcs, &mut out, func)?;
    }
    Ok(out)
}
