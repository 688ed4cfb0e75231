//! Pieces of a text.

ghost use Rattle.std.specs.Prelude.{◌≡◌, ◌++◌, OnOk};
ghost use Rattle.std.specs.Fmt.{decimal};
ghost use Rattle.tb_program.specs.Pieces.{numbered};

use std::alloc::{AllocError, Global};

/// Puts a piece behind a text.
pub fn put(out: &mut Vec<u8>, piece: &[u8]) -> Result<(), AllocError>
    ensures put { OnOk result (out.new.items ≡ out.old.items ++ piece.now) }
{
    out.extend_from_slice(piece)
}

/// Puts a number behind it, in decimal.
pub fn put_number(alloc: Global, out: &mut Vec<u8>, number: u64) -> Result<(), AllocError>
    ensures put { OnOk result (out.new.items ≡ out.old.items ++ decimal number) }
{
    let shown = format!(in alloc; "{number}")?;
    out.extend_from_slice(shown.as_bytes())
}

/// Puts a word and a number behind it, as the name of a local or a block.
pub fn put_numbered(
    alloc: Global,
    out: &mut Vec<u8>,
    word: &[u8],
    number: u32,
) -> Result<(), AllocError>
    ensures put { OnOk result (out.new.items ≡ out.old.items ++ numbered word.now number) }
{
    put(out, word)?;
    put_number(alloc, out, number as u64)
}
