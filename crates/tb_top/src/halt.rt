ghost use Rattle.std.specs.Prelude.{◌≡◌};

use crate::read::ReadError;
use sqlite_items::Items;
use std::alloc::AllocError;
use tb_small::SmallError;

/// Why a call ends without finishing.
#[derive(Debug, Drop)]
pub enum Halt {
    /// The words name no file.
    Usage,
    /// The source is refused: it is too long.
    TooLong,
    /// The source is refused: it is outside what is built so far.
    NotBuilt,
    /// The run is undefined behaviour, with this report.
    Undefined(Items<u8>),
    /// The run panics, with this report.
    Panic(Items<u8>),
    /// A read of the file failed.
    ReadFault,
    /// A write to the output failed.
    WriteFault,
    /// Out of memory.
    Memory,
}

impl Halt {
    ghost use Rattle.tb_top.specs.Report.{line_of, status_of, cut_status_of};

    /// The report: one line with its end.
    pub fn line(&self) -> &[u8]
        ensures { result.now ≡ line_of self.now }
    {
        match self {
            Halt::Usage => b"usage: tbmiri FILE\n",
            Halt::TooLong => b"refused S2: source too long\n",
            Halt::NotBuilt => b"refused U1: not built yet at 1:1-1:1\n",
            Halt::Undefined(report) | Halt::Panic(report) => report.as_slice(),
            Halt::ReadFault => b"read fault\n",
            Halt::WriteFault => b"write fault\n",
            Halt::Memory => b"out of memory\n",
        }
    }

    /// The status of the program after this report.
    pub fn status(&self) -> u8
        ensures { result ≡ status_of self.now }
    {
        match self {
            Halt::Undefined(_) => 1,
            Halt::TooLong | Halt::NotBuilt => 2,
            Halt::Panic(_) => 3,
            Halt::ReadFault => 6,
            Halt::WriteFault => 7,
            Halt::Memory => 8,
            Halt::Usage => 9,
        }
    }

    /// The status of the program where this report could not be put: that of a failed write, except
    /// that out of memory keeps its own.
    pub fn cut_status(&self) -> u8
        ensures { result ≡ cut_status_of self.now }
    {
        match self {
            Halt::Memory => 8,
            _ => 7,
        }
    }
}

impl From<ReadError> for Halt {
    ghost use Rattle.std.specs.Prelude.{◌≡◌};
    ghost use Rattle.tb_top.specs.Report.{halt_of_read};

    ghost from_gives = { λ error why. why ≡ halt_of_read error };

    fn from(error: ReadError) -> Halt {
        match error {
            ReadError::TooLong => Halt::TooLong,
            ReadError::Fault => Halt::ReadFault,
            ReadError::Memory => Halt::Memory,
        }
    }
}

impl From<SmallError> for Halt {
    ghost use Rattle.std.specs.Prelude.{◌≡◌};
    ghost use Rattle.tb_top.specs.Report.{halt_of_parse};

    ghost from_gives = { λ error why. why ≡ halt_of_parse error };

    fn from(error: SmallError) -> Halt {
        match error {
            SmallError::NotBuilt => Halt::NotBuilt,
            SmallError::Memory => Halt::Memory,
        }
    }
}

impl From<AllocError> for Halt {
    ghost use Rattle.std.specs.Prelude.{◌≡◌};
    ghost use Rattle.tb_top.specs.declared.halt.Halt.TheVariants.{Memory};

    ghost from_gives = { λ _ why. why ≡ Memory };

    fn from(_: AllocError) -> Halt {
        Halt::Memory
    }
}
