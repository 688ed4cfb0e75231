//! Reads a file, up to the longest source.
ghost use Rattle.std.specs.Prelude.{◌≡◌, ◌≢◌, ◌<◌, ◌≤◌, ◌+◌, ◌-◌, ◌^◌, ℕ, List, Option, true, false, length, vec_len, IfOk, OnOk, IsErrOf};
ghost use Rattle.tb_base.specs.Outside.{FilesTold};
ghost use Rattle.tb_top.specs.Told.{Gave, Ends, AskedNothing};
ghost use Rattle.tb_top.specs.Reading.{CountsReading, AsksFor, ReadsSource};

use std::alloc::{AllocError, Global};
use tb_base::{Fault, FileError, Files};

/// The longest source, in bytes.
const LONGEST: usize = 1_048_576;

/// Why a file was not read.
#[derive(Clone, Copy, Debug, PartialEq, Eq)]
pub enum ReadError {
    /// It has more bytes than the longest source.
    TooLong,
    Fault,
    Memory,
}

impl From<Fault> for ReadError {
    ghost use Rattle.std.specs.Prelude.{◌≡◌};
    ghost use Rattle.tb_top.specs.declared.read.ReadError.TheVariants as error;

    ghost from_gives = { λ _ e. e ≡ error.Fault };

    fn from(_: Fault) -> ReadError {
        ReadError::Fault
    }
}

impl From<AllocError> for ReadError {
    ghost use Rattle.std.specs.Prelude.{◌≡◌};
    ghost use Rattle.tb_top.specs.declared.read.ReadError.TheVariants as error;

    ghost from_gives = { λ _ e. e ≡ error.Memory };

    fn from(_: AllocError) -> ReadError {
        ReadError::Memory
    }
}

/// Reads one piece of the open file onto the end of the source, and returns whether it was the end.
/// Not more than one byte beyond the longest source is asked for.
#[tactic(auto, using(crate::proofs::TellingLaws::telling_laws))]
fn take_piece<F: Files>(files: &mut F, source: &mut Vec<u8>) -> Result<bool, ReadError>
    requires count { F.faults files.old < 2 ^ 64 - 1 }
    requires room { vec_len source.old ≤ 1048576 }
    ensures given { OnOk result ((start : Option FilesTold) → Gave start (F.told files.old) source.old.items → Gave start (F.told files.new) source.new.items) }
    ensures ended { IfOk result (λ end. end ≡ true → Ends (F.told files.old) (F.told files.new)) }
    ensures grows { IfOk result (λ end. end ≡ false → vec_len source.old < vec_len source.new) }
    ensures stands { IfOk result (λ end. end ≡ true → vec_len source.new ≡ vec_len source.old) }
    ensures most { OnOk result (vec_len source.new ≤ 1048577) }
    ensures kept { AskedNothing (F.told files.old) (F.told files.new) }
    ensures count { CountsReading (F.faults files.old) (F.faults files.new) result }
    ensures short { IsErrOf result ReadError.TooLong → ⊥ }
{
    let mut buffer = [0u8; 4096];
    let room = buffer.len().min(LONGEST + 1 - source.len());
    let count = files.take(&mut buffer[..room])?;
    source.extend_from_slice(&buffer[..count])?;
    Ok(count == 0)
}

/// Reads what is left of the open file.
#[tactic(auto, using(crate::proofs::TellingLaws::telling_laws))]
fn read_left<F: Files>(alloc: Global, files: &mut F) -> Result<Vec<u8>, ReadError>
    requires { F.faults files.old < 2 ^ 64 - 1 }
    ensures given { IfOk result (λ source. Gave (F.told files.old) (F.told files.new) source.items) }
    ensures ended { OnOk result (Ends (F.told files.old) (F.told files.new)) }
    ensures size { IfOk result (λ source. vec_len source ≤ 1048576) }
    ensures too_long { IsErrOf result ReadError.TooLong → (front : List ℕ) × Gave (F.told files.old) (F.told files.new) front × (1048576 < length front) }
    ensures kept { AskedNothing (F.told files.old) (F.told files.new) }
    ensures count { CountsReading (F.faults files.old) (F.faults files.new) result }
{
    let mut source = Vec::new(alloc);
    while source.len() <= LONGEST {
        if take_piece(files, &mut source)? {
            return Ok(source);
        }
    }
    Err(ReadError::TooLong)
}

/// Reads the file of this name, which is opened once.
#[tactic(auto, using(crate::proofs::TellingLaws::telling_laws))]
pub fn read_file<F: Files>(alloc: Global, files: &mut F, name: &str) -> Result<Vec<u8>, ReadError>
    requires { F.faults files.old < 2 ^ 64 - 1 }
    ensures source { ReadsSource (F.told files.old) name.now result }
    ensures asked { AsksFor (F.told files.old) (F.told files.new) name.now result }
    ensures count { CountsReading (F.faults files.old) (F.faults files.new) result }
{
    match files.open(name) {
        Ok(()) => read_left(alloc, files),
        Err(FileError::Fault) => Err(ReadError::Fault),
        Err(FileError::Memory) => Err(ReadError::Memory),
    }
}
