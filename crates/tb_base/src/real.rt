//! The adapters before the real system: the trusted edge. They count each fault, and tell nothing
//! of what is read or written.
ghost use Rattle.std.specs.Prelude.{◌≡◌, None, IfOk};

use crate::fault::{Fault, FileError};
use crate::files::Files;
use crate::sink::Sink;
use crate::source::Source;
use std::alloc::{AllocError, Global};
use std::io::{BufReader, Read, Write};
use std::{fs, rt};

/// The files of the system.
#[derive(Drop)]
pub struct RealFiles<'a, R: rt::Files> {
    rt: &'a R,
    file: Option<R::File>,
    faults: u64,
}

impl<'a, R: rt::Files> RealFiles<'a, R> {
    pub fn new(rt: &'a R) -> Self
        ensures { result.faults ≡ 0 }
    {
        RealFiles {
            rt,
            file: None,
            faults: 0,
        }
    }
}

impl<'a, R: rt::Files> Files for RealFiles<'a, R> {
    ghost told = { λ _. None };

    ghost faults = { λ s. s.faults };

    fn open(&mut self, name: &str) -> Result<(), FileError> {
        match fs::open(self.rt, name) {
            Ok(file) => {
                self.file = Some(file);
                Ok(())
            }
            Err(_) => {
                self.faults = self.faults.saturating_add(1);
                Err(FileError::Fault)
            }
        }
    }

    fn take(&mut self, buffer: &mut [u8]) -> Result<usize, Fault> {
        let Some(file) = &mut self.file else {
            return Ok(0);
        };
        match file.read(buffer) {
            Ok(count) => Ok(count),
            Err(_) => {
                self.faults = self.faults.saturating_add(1);
                Err(Fault)
            }
        }
    }
}

/// A reader of the system, as standard input. It reads ahead into a buffer of its own.
#[derive(Drop)]
pub struct RealInput<R: Read + Drop> {
    reader: BufReader<R>,
    faults: u64,
}

impl<R: Read + Drop> RealInput<R> {
    pub fn new(alloc: Global, reader: R) -> Result<Self, AllocError>
        ensures { IfOk result (λ input. input.faults ≡ 0) }
    {
        match BufReader::new(alloc, reader) {
            Ok(reader) => Ok(RealInput { reader, faults: 0 }),
            Err(_) => Err(AllocError),
        }
    }
}

impl<R: Read + Drop> Source for RealInput<R> {
    ghost left = { λ _. None };

    ghost faults = { λ s. s.faults };

    fn take(&mut self, buffer: &mut [u8]) -> Result<usize, Fault> {
        match self.reader.read(buffer) {
            Ok(count) => Ok(count),
            Err(_) => {
                self.faults = self.faults.saturating_add(1);
                Err(Fault)
            }
        }
    }
}

/// A writer of the system, as standard output. Nothing is kept back in it.
#[derive(Drop)]
pub struct RealOutput<W: Write + Drop> {
    writer: W,
    faults: u64,
}

/// The writer for reports, as standard error.
pub type RealError<W> = RealOutput<W>;

impl<W: Write + Drop> RealOutput<W> {
    pub fn new(writer: W) -> Self
        ensures { result.faults ≡ 0 }
    {
        RealOutput { writer, faults: 0 }
    }
}

impl<W: Write + Drop> Sink for RealOutput<W> {
    ghost bytes = { λ _. None };

    ghost faults = { λ s. s.faults };

    fn put(&mut self, piece: &[u8]) -> Result<usize, Fault> {
        match self.writer.write(piece) {
            Ok(count) if count > 0 => Ok(count),
            _ => {
                self.faults = self.faults.saturating_add(1);
                Err(Fault)
            }
        }
    }
}
