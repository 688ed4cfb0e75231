//! What a tree answers, in words.

use std::alloc::{AllocError, Global};
use tb_perm::{Access, Perm, Refusal, Report, Span, State, Tag};

/// Where the tag of a case is made: the spans of the tags differ.
pub fn made(tag: u64) -> Span {
    let lo = (tag % 1_000_000) as u32;
    Span { lo, hi: lo + 1 }
}

pub fn perm_name(perm: Perm) -> &'static str {
    match perm {
        Perm::Cell => "Cell",
        Perm::Reserved => "Reserved",
        Perm::Conflicted => "Conflicted",
        Perm::ReservedIm => "ReservedIm",
        Perm::Active => "Active",
        Perm::Frozen => "Frozen",
        Perm::Disabled => "Disabled",
    }
}

fn refusal_name(refusal: Refusal) -> &'static str {
    match refusal {
        Refusal::ReadForbidden => "read forbidden",
        Refusal::WriteForbidden => "write forbidden",
        Refusal::Protected => "protected",
        Refusal::StrongDealloc => "strong protector",
    }
}

fn access_name(access: Access) -> &'static str {
    match access {
        Access::Read => "read",
        Access::Write => "write",
        Access::Reborrow => "reborrow",
        Access::CallEnd => "call end",
        Access::Free => "free",
    }
}

/// A refusal: what is refused, the access, its tag and byte, and the tag that refuses with its permission. A tag that
/// was not made where its case makes it is said so.
pub fn report(alloc: Global, report: &Report) -> Result<String, AllocError> {
    let refusal = refusal_name(report.refusal);
    let access = access_name(report.access);
    let (through, byte, tag) = (report.through.0, report.byte, report.tag.0);
    let perm = perm_name(report.perm);
    let place = if report.made == made(tag) {
        ""
    } else {
        ", made elsewhere"
    };
    format!(in alloc; "{refusal}: {access} through {through} at {byte}, {tag} is {perm}{place}")
}

/// Tags with blanks between.
pub fn tags(alloc: Global, tags: &[Tag]) -> Result<String, AllocError> {
    let mut out = String::new(alloc);
    for (at, tag) in tags.iter().enumerate() {
        if at > 0 {
            out.push_str(" ")?;
        }
        let number = tag.0;
        out.push_str(format!(in alloc; "{number}")?.as_str())?;
    }
    Ok(out)
}

fn push_range(
    alloc: Global,
    out: &mut String,
    lo: usize,
    hi: usize,
    state: State,
) -> Result<(), AllocError> {
    if !out.is_empty() {
        out.push_str(", ")?;
    }
    let perm = perm_name(state.perm);
    let accessed = if state.accessed { " accessed" } else { "" };
    out.push_str(format!(in alloc; "{lo}..{hi} {perm}{accessed}")?.as_str())
}

/// States as longest ranges of equal ones, with commas between.
pub fn states(alloc: Global, states: &[State]) -> Result<String, AllocError> {
    let mut out = String::new(alloc);
    let Some(first) = states.first() else {
        return String::from_str(alloc, "no bytes");
    };
    let (mut lo, mut state) = (0, *first);
    for (at, next) in states.iter().enumerate() {
        if *next != state {
            push_range(alloc, &mut out, lo, at, state)?;
            (lo, state) = (at, *next);
        }
    }
    push_range(alloc, &mut out, lo, states.len(), state)?;
    Ok(out)
}
