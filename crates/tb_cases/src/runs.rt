//! A case, run and compared.
ghost use Rattle.std.specs.Prelude.{◌≡◌, IfOk};

use crate::wanted::Wanted;
use std::alloc::{AllocError, Global};
use std::mem;
use tb_base::{MemFiles, MemSink, MemSource};
use tb_top::{Status, tbmiri};

/// What the program did in a case.
#[derive(Debug, Drop)]
pub struct Done {
    status: Status,
    files: MemFiles,
    input: MemSource,
    output: MemSink,
    report: MemSink,
}

/// Something that is otherwise than wanted: what it is, what is wanted and what was found.
#[derive(Debug, Drop)]
pub struct Difference {
    pub what: &'static str,
    pub wanted: String,
    pub found: String,
}

/// The source, filled up with blanks to this length where it is shorter.
fn filled(mut source: Vec<u8>, length: usize) -> Result<Vec<u8>, AllocError> {
    for _ in source.len()..length {
        source.push(b' ')?;
    }
    Ok(source)
}

/// The files of a case: the source under each of its names.
fn files_of(alloc: Global, wanted: &mut Wanted, source: &[u8]) -> Result<MemFiles, AllocError>
    ensures { IfOk result (λ files. files.faults ≡ 0) }
{
    let mut held = Vec::new(alloc);
    for name in &wanted.names {
        let name = String::from_str(alloc, name.as_str())?;
        held.push((name, source.to_vec(alloc)?))?;
    }
    let fail = mem::replace(&mut wanted.files_fail, Vec::new(alloc));
    Ok(MemFiles::new(alloc, held, fail))
}

/// A sink of a case, whose calls with these numbers fail.
fn sink_of(
    alloc: Global,
    room: usize,
    most: usize,
    fail: &mut Vec<u64>,
) -> Result<MemSink, AllocError>
    ensures { IfOk result (λ sink. sink.faults ≡ 0) }
{
    let fail = mem::replace(fail, Vec::new(alloc));
    MemSink::new(alloc, room, most.max(1), fail)
}

/// Calls the program as the case says.
pub fn run(alloc: Global, wanted: &mut Wanted, source: Vec<u8>) -> Result<Done, AllocError> {
    let source = filled(source, wanted.length)?;
    let mut files = files_of(alloc, wanted, &source)?;
    let mut input = MemSource::new(wanted.input.as_slice().to_vec(alloc)?, Vec::new(alloc));
    let mut output = sink_of(alloc, wanted.room, wanted.most, &mut wanted.output_fails)?;
    let mut report = sink_of(alloc, wanted.room, wanted.most, &mut wanted.report_fails)?;
    let words = mem::replace(&mut wanted.words, Vec::new(alloc));
    let status = tbmiri(
        alloc,
        &words,
        &mut files,
        &mut input,
        &mut output,
        &mut report,
    );
    Ok(Done {
        status,
        files,
        input,
        output,
        report,
    })
}

/// The text of some bytes, for a person.
fn shown(alloc: Global, bytes: &[u8]) -> Result<String, AllocError> {
    String::from_utf8_lossy(alloc, bytes)
}

impl Done {
    /// What is otherwise than the case wants, in the order status, output, report, input, names.
    pub fn differences(
        &self,
        alloc: Global,
        wanted: &Wanted,
    ) -> Result<Vec<Difference>, AllocError> {
        let mut list = Vec::new(alloc);
        if self.status.0 != wanted.status {
            let found = self.status.0;
            let wanted = wanted.status;
            list.push(Difference {
                what: "status",
                wanted: format!(in alloc; "{wanted}")?,
                found: format!(in alloc; "{found}")?,
            })?;
        }
        bytes_differ(
            alloc,
            &mut list,
            "output",
            &wanted.output,
            self.output.bytes(),
        )?;
        bytes_differ(
            alloc,
            &mut list,
            "report",
            &wanted.report,
            self.report.bytes(),
        )?;
        let left = wanted.input.get(wanted.taken..).unwrap_or(&[]);
        bytes_differ(alloc, &mut list, "input left", left, self.input.rest())?;
        names_differ(alloc, &mut list, &wanted.asked, self.files.asked())?;
        Ok(list)
    }
}

/// Adds a difference where these bytes are not the wanted ones.
fn bytes_differ(
    alloc: Global,
    list: &mut Vec<Difference>,
    what: &'static str,
    wanted: &[u8],
    found: &[u8],
) -> Result<(), AllocError> {
    if wanted != found {
        list.push(Difference {
            what,
            wanted: shown(alloc, wanted)?,
            found: shown(alloc, found)?,
        })?;
    }
    Ok(())
}

/// Adds a difference where these names are not the wanted ones.
fn names_differ(
    alloc: Global,
    list: &mut Vec<Difference>,
    wanted: &[String],
    found: &[String],
) -> Result<(), AllocError> {
    if wanted != found {
        list.push(Difference {
            what: "names asked for",
            wanted: format!(in alloc; "{wanted:?}")?,
            found: format!(in alloc; "{found:?}")?,
        })?;
    }
    Ok(())
}
