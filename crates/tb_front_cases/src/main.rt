//! Tries the lexer and the parser on texts that lie in files, and says where they do otherwise than wanted.
//!
//! The file `index` names the files of cases; a word names the folder in which they lie, which else is the current one. Each line of
//! a file of cases is empty, begins with `#`, or is a case, `KIND | TEXT => WANTED`.
#![tactic(auto)]

mod mentions;
mod names;
mod page;
mod tokens;
mod trees;
mod values;

use crate::page::{Case, written};
use crate::trees::Reads;
use std::alloc::{AllocError, Global};
use std::process::ExitCode;
use std::rt::Files;
use std::{env, fs, io};

/// What the front end says of the text of a case.
fn found(alloc: Global, case: Case<'_>) -> Result<String, AllocError> {
    let text = written(alloc, case.text)?;
    if text.len() > 1_048_576 {
        return String::from_str(alloc, "too long");
    }
    match (case.kind, Reads::named(case.kind)) {
        (_, Some(reads)) => reads.words(alloc, &text, case.number),
        ("tokens", None) => tokens::tokens(alloc, &text),
        ("count", None) => tokens::count(alloc, &text),
        ("characters", None) => values::characters(alloc, &text),
        ("mentions", None) => mentions::words(alloc, &text),
        ("names", None) => names::words(alloc, &text),
        (_, None) => String::from_str(alloc, "unknown kind"),
    }
}

/// Tries one line, prints what is otherwise than wanted, and says whether nothing is.
fn passes(rt: &(impl Print + AllocGlobal), name: &str, at: usize, line: &str) -> io::Result<bool> {
    let number = at.saturating_add(1);
    let Some(case) = Case::of(line) else {
        println!(rt; "{name}:{number}: no case: {line}")?;
        return Ok(false);
    };
    let found = found(rt.alloc(), case)?;
    let wanted = written(rt.alloc(), case.wanted)?;
    if found.as_str().as_bytes() == wanted.as_slice() {
        return Ok(true);
    }
    let found = found.as_str();
    println!(rt; "{name}:{number}: {line}\n    found {found}")?;
    Ok(false)
}

/// Tries the cases of a file, and counts those that pass and all.
fn file_passes(
    rt: &(impl Files + Print + AllocGlobal),
    folder: &str,
    name: &str,
) -> io::Result<(u64, u64)> {
    let page = fs::read_to_string(rt, format!(in rt.alloc(); "{folder}/{name}")?.as_str())?;
    let (mut passed, mut all) = (0u64, 0u64);
    for (at, line) in page.as_str().lines().enumerate() {
        if line.is_empty() || line.starts_with("#") {
            continue;
        }
        all = all.saturating_add(1);
        if passes(rt, name, at, line)? {
            passed = passed.saturating_add(1);
        }
    }
    Ok((passed, all))
}

/// Tries all cases, and says how many passed and whether all did.
fn run_all(rt: &(impl Files + Print + AllocGlobal), folder: &str) -> io::Result<bool> {
    let index = fs::read_to_string(rt, format!(in rt.alloc(); "{folder}/index")?.as_str())?;
    let mut whole = true;
    for name in index.as_str().lines() {
        let (passed, all) = file_passes(rt, folder, name)?;
        println!(rt; "{name}: {passed} of {all} cases as wanted")?;
        whole = whole && passed == all;
    }
    Ok(whole)
}

fn main(rt: HostRuntime) -> io::Result<ExitCode> {
    let mut words = env::args(&rt)?.skip(1);
    let folder = words.next();
    let folder = folder.as_ref().map_or(".", |word| word.as_str());
    Ok(if run_all(&rt, folder)? {
        ExitCode::SUCCESS
    } else {
        ExitCode::FAILURE
    })
}
