//! The program: hands the real words, files and streams to the top call, and ends with its status.
#![tactic(auto)]

use std::io::ErrorKind;
use std::process::ExitCode;
use std::rt::Env;
use std::{env, io};
use tb_base::{RealError, RealFiles, RealInput, RealOutput, Sink, put_all};
use tb_top::tbmiri;

/// The words after the program's name. Words that are no text make no command line of this program,
/// and neither does the empty list, which stands for them.
fn words(rt: &(impl Env + AllocGlobal)) -> io::Result<Vec<String>> {
    match env::args(rt) {
        Ok(args) => Ok(args.skip(1).collect(rt.alloc())?),
        Err(error) if error.kind() == ErrorKind::InvalidData => Ok(Vec::new(rt.alloc())),
        Err(error) => Err(error),
    }
}

fn main(rt: HostRuntime) -> ExitCode {
    let mut err = RealError::new(rt.stderr());
    let (Ok(words), Ok(mut input)) = (words(&rt), RealInput::new(rt.alloc(), rt.reader())) else {
        let _ = put_all(&mut err, b"out of memory\n");
        return ExitCode::from(8);
    };
    let mut files = RealFiles::new(&rt);
    let mut out = RealOutput::new(io::writer(&rt));
    let status = tbmiri(
        rt.alloc(),
        &words,
        &mut files,
        &mut input,
        &mut out,
        &mut err,
    );
    ExitCode::from(status.0)
}
