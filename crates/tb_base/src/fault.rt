use std::alloc::AllocError;

/// A read or a write of an outside object failed. The object has counted it.
#[derive(Clone, Copy, Debug, PartialEq, Eq)]
pub struct Fault;

/// Why a file was not opened.
#[derive(Clone, Copy, Debug, PartialEq, Eq)]
pub enum FileError {
    /// The file is not there, or could not be opened. The object has counted it.
    Fault,
    /// Out of memory.
    Memory,
}

impl From<AllocError> for FileError {
    ghost use Rattle.std.specs.Prelude.{◌≡◌};
    ghost use Rattle.tb_base.specs.declared.fault.FileError.TheVariants.{Memory};

    ghost from_gives = { λ _ e. e ≡ Memory };

    fn from(_: AllocError) -> FileError {
        FileError::Memory
    }
}
