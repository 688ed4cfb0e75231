ghost use Rattle.std.specs.Prelude.{◌≡◌, ◌≤◌, ◌++◌, length, IfOk, OnOk};
ghost use Rattle.tb_diag.specs.Report.{report_of, stop_text, panic_text, placed, borrow_text, refused_text, refusing_text, refusal_text, access_text, perm_text};

use crate::places::push_span;
use std::alloc::{AllocError, Global};
use tb_eval::{Outcome, Panic};
use tb_heap::Stop;
use tb_perm::{Access, AllocId, Perm, Refusal, Report, Span};

fn refusal_words(refusal: Refusal) -> &'static str
    ensures { result.now ≡ refusal_text refusal }
{
    match refusal {
        Refusal::ReadForbidden => "read forbidden",
        Refusal::WriteForbidden => "write forbidden",
        Refusal::Protected => "protected",
        Refusal::StrongDealloc => "strong protector",
    }
}

fn access_words(access: Access) -> &'static str
    ensures { result.now ≡ access_text access }
{
    match access {
        Access::Read => "read",
        Access::Write => "write",
        Access::Reborrow => "reborrow",
        Access::CallEnd => "call end",
        Access::Free => "free",
    }
}

fn perm_words(perm: Perm) -> &'static str
    ensures { result.now ≡ perm_text perm }
{
    match perm {
        Perm::Cell => "Cell",
        Perm::Reserved => "Reserved",
        Perm::Conflicted => "Reserved conflicted",
        Perm::ReservedIm => "ReservedIM",
        Perm::Active => "Active",
        Perm::Frozen => "Frozen",
        Perm::Disabled => "Disabled",
    }
}

fn panic_words(panic: Panic) -> &'static [u8]
    ensures { result.now ≡ panic_text panic }
{
    match panic {
        Panic::Overflow => b"panic: overflow at ",
    }
}

/// A line of these words and a place.
fn line(alloc: Global, words: &[u8], source: &[u8], span: Span) -> Result<Vec<u8>, AllocError>
    requires { length source.now ≤ 1048576 }
    ensures { IfOk result (λ text. text.items ≡ placed words.now source.now span) }
{
    let mut text = words.to_vec(alloc)?;
    push_span(alloc, &mut text, source, span)?;
    text.push(b'\n')?;
    Ok(text)
}

/// Which access was refused, and where.
fn refused(alloc: Global, id: AllocId, report: &Report) -> Result<String, AllocError>
    ensures { IfOk result (λ text. text.bytes.items ≡ refused_text id report.now) }
{
    let refusal = refusal_words(report.refusal);
    let access = access_words(report.access);
    let (through, byte, id) = (report.through.0, report.byte, id.0);
    let text = format!(in alloc;
        "  {refusal}: {access} through tag {through} at byte {byte} of allocation {id}"
    )?;
    Ok(text)
}

/// By which tag, and what that may still do.
fn refusing(alloc: Global, report: &Report) -> Result<String, AllocError>
    ensures { IfOk result (λ text. text.bytes.items ≡ refusing_text report.now) }
{
    let (tag, perm) = (report.tag.0, perm_words(report.perm));
    let text = format!(in alloc; "; tag {tag} is {perm}, made at ")?;
    Ok(text)
}

/// Adds the line that says which access was refused, by which tag, and where that was made.
fn push_borrow(
    alloc: Global,
    text: &mut Vec<u8>,
    source: &[u8],
    id: AllocId,
    report: &Report,
) -> Result<(), AllocError>
    requires { length source.now ≤ 1048576 }
    ensures { OnOk result (text.new.items ≡ text.old.items ++ borrow_text source.now id report.now) }
{
    let access = refused(alloc, id, report)?;
    text.extend_from_slice(access.as_bytes())?;
    let tag = refusing(alloc, report)?;
    text.extend_from_slice(tag.as_bytes())?;
    push_span(alloc, text, source, report.made)?;
    text.push(b'\n')?;
    Ok(())
}

/// Why a run is undefined behaviour, and where.
fn undefined(alloc: Global, source: &[u8], stop: &Stop, span: Span) -> Result<Vec<u8>, AllocError>
    requires { length source.now ≤ 1048576 }
    ensures { IfOk result (λ text. text.items ≡ stop_text source.now stop.now span) }
{
    match stop {
        Stop::Dangling => line(
            alloc,
            b"undefined behaviour: dangling pointer at ",
            source,
            span,
        ),
        Stop::Uninit => line(
            alloc,
            b"undefined behaviour: uninitialised bytes at ",
            source,
            span,
        ),
        Stop::Borrow(id, report) => {
            let mut text = line(
                alloc,
                b"undefined behaviour: borrow rules at ",
                source,
                span,
            )?;
            push_borrow(alloc, &mut text, source, *id, report)?;
            Ok(text)
        }
        Stop::Memory => b"out of memory\n".to_vec(alloc),
    }
}

/// The report of a run over this source, in lines with their ends, and nothing for a run that
/// finished. For a refused access a second line says which tag refused it, what that tag may still
/// do, and where it was made.
pub fn report(alloc: Global, source: &[u8], outcome: &Outcome) -> Result<Vec<u8>, AllocError>
    requires { length source.now ≤ 1048576 }
    ensures { IfOk result (λ text. text.items ≡ report_of source.now outcome.now) }
{
    match outcome {
        Outcome::Finished => Ok(Vec::new(alloc)),
        Outcome::Undefined(stop, span) => undefined(alloc, source, stop, *span),
        Outcome::Panic(panic, span) => line(alloc, panic_words(*panic), source, *span),
        Outcome::StepLimit => b"stopped: step limit\n".to_vec(alloc),
        Outcome::WriteFault => b"write fault\n".to_vec(alloc),
        Outcome::Memory => b"out of memory\n".to_vec(alloc),
    }
}
