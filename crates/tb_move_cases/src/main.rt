//! Looks for moves and missing values in typed trees that lie in files, and says where it finds otherwise than
//! wanted.
//!
//! The file `index` names the files of cases; a word names the folder in which they lie, which else is the
//! current one. Each line of a file of cases is empty, begins with `#`, or is a case, words with blanks between:
//! `ok`, `M1`, `M2` or `M3`, the number of parameters, and a tree for each function. The module `reader`
//! says how trees are written. `!` stands before the form at which the fault is wanted.
#![tactic(auto)]

mod build;
mod reader;

use crate::reader::{Case, read};
use std::alloc::{AllocError, Global};
use std::process::ExitCode;
use std::rt::Files;
use std::{env, fs, io};
use tb_moves::{MoveError, moves};

/// What is found, in the words of a case.
fn found(alloc: Global, case: &Case) -> Result<String, AllocError> {
    match moves(&case.thir) {
        Ok(()) => String::from_str(alloc, "ok"),
        Err(fault) => {
            let code = match fault {
                MoveError::NotInitialised(_) => "M1",
                MoveError::UsedAfterMove(_) => "M2",
                MoveError::MoveOutOfAPart(_) => "M3",
            };
            let lo = fault.span().lo;
            format!(in alloc; "{code} at word {lo}")
        }
    }
}

/// What is wanted, in the same words.
fn wanted(alloc: Global, code: &str, case: &Case) -> Result<String, AllocError> {
    match case.marked {
        Some(lo) => format!(in alloc; "{code} at word {lo}"),
        None => String::from_str(alloc, code),
    }
}

/// Tries the case of a line. The answer is what is otherwise than wanted.
fn miss(alloc: Global, line: &str) -> Result<Option<String>, AllocError> {
    let Some(case) = read(alloc, line)? else {
        return Ok(Some(String::from_str(alloc, "no case")?));
    };
    let code = line.split(' ').next().unwrap_or("");
    let found = found(alloc, &case)?;
    if found.as_str() == wanted(alloc, code, &case)?.as_str() {
        Ok(None)
    } else {
        Ok(Some(found))
    }
}

/// Tries the cases of a file, and counts those that pass and all.
fn file_passes(
    rt: &(impl Files + Print + AllocGlobal),
    folder: &str,
    name: &str,
) -> io::Result<(u64, u64)> {
    let page = fs::read_to_string(rt, format!(in rt.alloc(); "{folder}/{name}")?.as_str())?;
    let (mut passed, mut all) = (0u64, 0u64);
    for line in page.as_str().lines() {
        if line.is_empty() || line.starts_with('#') {
            continue;
        }
        all = all.saturating_add(1);
        match miss(rt.alloc(), line)? {
            None => passed = passed.saturating_add(1),
            Some(found) => {
                let found = found.as_str();
                println!(rt; "{name}: {line}\n    found {found}")?;
            }
        }
    }
    Ok((passed, all))
}

/// Tries all cases, and says how many passed and whether all did.
fn run_all(rt: &(impl Files + Print + AllocGlobal), folder: &str) -> io::Result<bool> {
    let index = fs::read_to_string(rt, format!(in rt.alloc(); "{folder}/index")?.as_str())?;
    let mut whole = true;
    for name in index.as_str().lines() {
        let (passed, all) = file_passes(rt, folder, name)?;
        println!(rt; "{name}: {passed} of {all} cases as wanted")?;
        whole = whole && passed == all;
    }
    Ok(whole)
}

fn main(rt: HostRuntime) -> io::Result<ExitCode> {
    let mut words = env::args(&rt)?.skip(1);
    let folder = words.next();
    let folder = folder.as_ref().map_or(".", |word| word.as_str());
    Ok(if run_all(&rt, folder)? {
        ExitCode::SUCCESS
    } else {
        ExitCode::FAILURE
    })
}
