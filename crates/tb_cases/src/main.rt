//! Runs the program on the cases that the file `index` names, and says where it does otherwise than they want. A word names the
//! folder in which they lie; without one it is the current folder.
//!
//! A case `NAME` is a source, `NAME.rs`, and a page, `NAME.want`, that says what is handed to the program and what is
//! wanted of it. Each is run through the top call, over files, an input and sinks in memory.
#![tactic(auto)]

mod runs;
mod wanted;

use crate::runs::Difference;
use crate::wanted::{PageError, Wanted};
use std::process::ExitCode;
use std::rt::Files;
use std::{env, fs, io};

/// Prints what is otherwise than wanted in a case.
fn show(rt: &impl Print, name: &str, differences: &[Difference]) -> io::Result<()> {
    for difference in differences {
        let what = difference.what;
        let wanted = difference.wanted.as_str();
        let found = difference.found.as_str();
        println!(rt; "{name}: {what}\n--- wanted\n{wanted}\n--- found\n{found}\n---")?;
    }
    Ok(())
}

/// Runs one case, prints what is otherwise than it wants, and says whether nothing is.
fn passes(rt: &(impl Files + Print + AllocGlobal), folder: &str, name: &str) -> io::Result<bool> {
    let alloc = rt.alloc();
    let source = fs::read(rt, format!(in alloc; "{folder}/{name}.rs")?.as_str())?;
    let page = fs::read_to_string(rt, format!(in alloc; "{folder}/{name}.want")?.as_str())?;
    let mut wanted = match Wanted::read(alloc, name, page.as_str()) {
        Ok(wanted) => wanted,
        Err(PageError::Line(number)) => {
            println!(rt; "{name}.want: line {number} is not understood")?;
            return Ok(false);
        }
        Err(PageError::Memory) => return Err(io::ErrorKind::OutOfMemory.into()),
    };
    let done = runs::run(alloc, &mut wanted, source)?;
    let differences = done.differences(alloc, &wanted)?;
    show(rt, name, &differences)?;
    Ok(differences.is_empty())
}

/// Runs all cases, and says how many passed and whether all did.
fn run_all(rt: &(impl Files + Print + AllocGlobal), folder: &str) -> io::Result<bool> {
    let index = fs::read_to_string(rt, format!(in rt.alloc(); "{folder}/index")?.as_str())?;
    let mut passed = 0u64;
    let mut all = 0u64;
    for name in index.as_str().lines() {
        all = all.saturating_add(1);
        if passes(rt, folder, name)? {
            passed = passed.saturating_add(1);
        }
    }
    println!(rt; "{passed} of {all} cases as wanted")?;
    Ok(passed == all)
}

fn main(rt: HostRuntime) -> io::Result<ExitCode> {
    let mut words = env::args(&rt)?.skip(1);
    let folder = words.next();
    let folder = folder.as_ref().map_or(".", |word| word.as_str());
    Ok(if run_all(&rt, folder)? {
        ExitCode::SUCCESS
    } else {
        ExitCode::FAILURE
    })
}
