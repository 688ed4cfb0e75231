ghost use Rattle.std.specs.Prelude.{◌≡◌, ◌<◌, ◌≤◌, ◌+◌, ◌++◌, ◌==◌, if◌then◌else◌, length, count_by, OnOk};
ghost use Rattle.tb_diag.specs.Place.{behind_feed, place_text, span_text};

use std::alloc::{AllocError, Global};
use tb_perm::Span;

/// The line of what stands behind this text: lines count from 1.
fn line(before: &[u8]) -> usize
    requires { length before.now ≤ 1048576 }
    ensures { result ≡ 1 + count_by (λ byte. byte == 10) before.now }
{
    1 + before.iter().filter(|byte| **byte == b'\n').count()
}

/// How many bytes stand behind the last line feed, once this byte does too.
fn next(byte: u8, behind: usize) -> usize
    requires { behind < 1048576 }
    ensures { result ≡ (if byte == 10 then 0 else behind + 1) }
{
    if byte == b'\n' { 0 } else { behind + 1 }
}

/// The column of what stands behind this text: columns count from 1.
fn column(before: &[u8]) -> usize
    requires { length before.now ≤ 1048576 }
    ensures { result ≡ 1 + behind_feed 0 before.now }
{
    let mut behind = 0;
    for byte in before {
        behind = next(*byte, behind);
    }
    1 + behind
}

/// Adds a place to a text, as `line:column`. Behind the source's end stands what stands at its end.
#[tactic(auto, using(std::proofs::lemmas::List::take_min))]
fn push_place(alloc: Global, text: &mut Vec<u8>, source: &[u8], at: usize) -> Result<(), AllocError>
    requires { length source.now ≤ 1048576 }
    ensures { OnOk result (text.new.items ≡ text.old.items ++ place_text source.now at) }
{
    let before = &source[..at.min(source.len())];
    let line = line(before);
    let column = column(before);
    let shown = format!(in alloc; "{line}:{column}")?;
    text.extend_from_slice(shown.as_bytes())
}

/// Adds a span to a text: the place where it begins, and the one where it ends.
pub fn push_span(
    alloc: Global,
    text: &mut Vec<u8>,
    source: &[u8],
    span: Span,
) -> Result<(), AllocError>
    requires { length source.now ≤ 1048576 }
    ensures { OnOk result (text.new.items ≡ text.old.items ++ span_text source.now span) }
{
    push_place(alloc, text, source, span.lo as usize)?;
    text.push(b'-')?;
    push_place(alloc, text, source, span.hi as usize)
}
