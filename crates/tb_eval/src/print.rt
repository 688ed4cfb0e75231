//! What a print puts.
ghost use Rattle.std.specs.Prelude.{◌≡◌, ◌<◌, ◌++◌, length, IfOk, OnOk};
ghost use Rattle.std.specs.Fmt.{signed_decimal};
ghost use Rattle.tb_eval.specs.Print.{begins, put_text, next_shown, after_next, printed, PrintsAs, IntsAre, ints_of, ended};

use crate::value::{Slot, int};
use std::alloc::{AllocError, AllocFailed, Global};
use tb_heap::Stop;
use tb_mir::Operand;

/// Why a print was not put together.
#[derive(Clone, Copy, Debug, PartialEq, Eq)]
pub enum PrintError {
    /// An operand has no value.
    Stop(Stop),
    Memory,
}

impl From<Stop> for PrintError {
    ghost use Rattle.std.specs.Prelude.{◌≡◌};
    ghost use Rattle.tb_eval.specs.declared.print.PrintError.TheVariants as error;

    ghost from_gives = { λ stop e. e ≡ error.Stop stop };

    fn from(stop: Stop) -> PrintError {
        PrintError::Stop(stop)
    }
}

impl From<AllocError> for PrintError {
    ghost use Rattle.std.specs.Prelude.{◌≡◌};
    ghost use Rattle.tb_eval.specs.declared.print.PrintError.TheVariants as error;

    ghost from_gives = { λ _ e. e ≡ error.Memory };

    fn from(_: AllocError) -> PrintError {
        PrintError::Memory
    }
}

impl<T: Drop> From<AllocFailed<T>> for PrintError {
    ghost use Rattle.std.specs.Prelude.{◌≡◌};
    ghost use Rattle.tb_eval.specs.declared.print.PrintError.TheVariants as error;

    ghost from_gives = { λ _ e. e ≡ error.Memory };

    fn from(_: AllocFailed<T>) -> PrintError {
        PrintError::Memory
    }
}

/// Whether a text begins with two bytes.
fn begins_with(text: &[u8], first: u8, second: u8) -> bool
    ensures { result ≡ begins first second text.now }
{
    match text {
        [byte, next, ..] => *byte == first && *next == second,
        _ => false,
    }
}

/// Adds an integer in decimal.
fn push_int(alloc: Global, bytes: &mut Vec<u8>, int: i32) -> Result<(), AllocError>
    ensures { OnOk result (bytes.new.items ≡ bytes.old.items ++ signed_decimal int) }
{
    let text = format!(in alloc; "{int}")?;
    bytes.extend_from_slice(text.as_bytes())
}

/// Adds the next integer, if there is one, and returns those after it.
fn push_next<'a>(
    alloc: Global,
    bytes: &mut Vec<u8>,
    ints: &'a [i32],
) -> Result<&'a [i32], AllocError>
    ensures put { OnOk result (bytes.new.items ≡ bytes.old.items ++ next_shown ints.now) }
    ensures left { IfOk result (λ left. left.now ≡ after_next ints.now) }
{
    if ints.is_empty() {
        return Ok(ints);
    }
    push_int(alloc, bytes, ints[0])?;
    Ok(&ints[1..])
}

/// Puts what stands at the front of a text that is not empty, and returns what is left of the text
/// and of the integers.
fn put_front<'a, 'b>(
    alloc: Global,
    bytes: &mut Vec<u8>,
    text: &'a [u8],
    ints: &'b [i32],
) -> Result<(&'a [u8], &'b [i32]), AllocError>
    requires { 0 < length text.now }
    ensures put { IfOk result (λ left. bytes.new.items ++ put_text left.0.now left.1.now ≡ bytes.old.items ++ put_text text.now ints.now) }
    ensures shorter { IfOk result (λ left. length left.0.now < length text.now) }
{
    if begins_with(text, b'\\', b'n') {
        bytes.push(b'\n')?;
        return Ok((&text[2..], ints));
    }
    if begins_with(text, b'{', b'}') {
        let left = push_next(alloc, bytes, ints)?;
        return Ok((&text[2..], left));
    }
    bytes.push(text[0])?;
    Ok((&text[1..], ints))
}

/// What a text puts, with the integers in place of its `{}`.
fn text_of(alloc: Global, text: &[u8], ints: &[i32]) -> Result<Vec<u8>, AllocError>
    ensures { IfOk result (λ bytes. bytes.items ≡ put_text text.now ints.now) }
{
    let mut bytes = Vec::new(alloc);
    let mut text = text;
    let mut ints = ints;
    while !text.is_empty() {
        (text, ints) = put_front(alloc, &mut bytes, text, ints)?;
    }
    Ok(bytes)
}

/// The same, with a line feed at the end where `newline` is true.
fn line_of(alloc: Global, newline: bool, text: &[u8], ints: &[i32]) -> Result<Vec<u8>, AllocError>
    ensures { IfOk result (λ bytes. bytes.items ≡ ended newline (put_text text.now ints.now)) }
{
    let mut bytes = text_of(alloc, text, ints)?;
    if !newline {
        return Ok(bytes);
    }
    bytes.push(b'\n')?;
    Ok(bytes)
}

/// The integers that the operands are.
fn ints(alloc: Global, locals: &[Slot], operands: &[Operand]) -> Result<Vec<i32>, PrintError>
    ensures { IntsAre (ints_of locals.now operands.now) result }
{
    let mut ints = Vec::new(alloc);
    for operand in operands {
        ints.push(int(locals, *operand)?)?;
    }
    Ok(ints)
}

/// What a print puts: its text, as it stands between the quotes in the source, with the operands in
/// place of its `{}`, and a line feed at the end where `newline` is true.
pub fn print_text(
    alloc: Global,
    locals: &[Slot],
    newline: bool,
    text: &[u8],
    operands: &[Operand],
) -> Result<Vec<u8>, PrintError>
    ensures { PrintsAs (printed newline text.now locals.now operands.now) result }
{
    let ints = ints(alloc, locals, operands)?;
    Ok(line_of(alloc, newline, text, &ints)?)
}
