//! Tries trees of tags on events that lie in files, and says where they do otherwise than wanted.
//!
//! The file `index` names the files of cases; a word names the folder in which they lie, which else is the
//! current one. Each line of a file of cases is empty, begins with `#`, or is `tree SIZE`, which begins a
//! case with a new tree whose root has tag 1, or else an event, `EVENT` or `EVENT => WANTED`.
#![tactic(auto)]

mod event;
mod play;
mod words;

use crate::play::misses;
use std::process::ExitCode;
use std::rt::Files;
use std::{env, fs, io};

/// The most bytes of a tree.
const MOST_BYTES: u32 = 65_536;

/// Tries the case that begins at a line, prints what is otherwise than wanted, and says whether nothing is.
fn passes(
    rt: &(impl Print + AllocGlobal),
    name: &str,
    lines: &[&str],
    at: usize,
    size: &str,
) -> io::Result<bool> {
    let Ok(size) = size.parse::<u32>() else {
        println!(rt; "{name}: {size} is no size")?;
        return Ok(false);
    };
    let misses = misses(rt.alloc(), lines, at, size.min(MOST_BYTES))?;
    for miss in misses.iter() {
        let (number, found) = (miss.line.saturating_add(1), miss.found.as_str());
        let line = lines.get(miss.line).copied().unwrap_or("");
        println!(rt; "{name}:{number}: {line}\n    found {found}")?;
    }
    Ok(misses.is_empty())
}

/// Tries the cases of a file, and counts those that pass and all.
fn file_passes(
    rt: &(impl Files + Print + AllocGlobal),
    folder: &str,
    name: &str,
) -> io::Result<(u64, u64)> {
    let page = fs::read_to_string(rt, format!(in rt.alloc(); "{folder}/{name}")?.as_str())?;
    let mut lines = Vec::new(rt.alloc());
    for line in page.as_str().lines() {
        if lines.push(line).is_err() {
            return Err(io::Error::from(io::ErrorKind::OutOfMemory));
        }
    }
    let (mut passed, mut all) = (0u64, 0u64);
    for (at, line) in lines.iter().enumerate() {
        let Some(size) = line.strip_prefix("tree ") else {
            continue;
        };
        all = all.saturating_add(1);
        if passes(rt, name, &lines, at, size)? {
            passed = passed.saturating_add(1);
        }
    }
    Ok((passed, all))
}

/// Tries all cases, and says how many passed and whether all did.
fn run_all(rt: &(impl Files + Print + AllocGlobal), folder: &str) -> io::Result<bool> {
    let index = fs::read_to_string(rt, format!(in rt.alloc(); "{folder}/index")?.as_str())?;
    let mut whole = true;
    for name in index.as_str().lines() {
        let (passed, all) = file_passes(rt, folder, name)?;
        println!(rt; "{name}: {passed} of {all} cases as wanted")?;
        whole = whole && passed == all;
    }
    Ok(whole)
}

fn main(rt: HostRuntime) -> io::Result<ExitCode> {
    let mut words = env::args(&rt)?.skip(1);
    let folder = words.next();
    let folder = folder.as_ref().map_or(".", |word| word.as_str());
    Ok(if run_all(&rt, folder)? {
        ExitCode::SUCCESS
    } else {
        ExitCode::FAILURE
    })
}
