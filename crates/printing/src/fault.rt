//! The reasons why a text was not printed.
use std::io;
use std::io::ErrorKind;
use units::memory::Memory;

/// The reason why a text was not printed completely.
#[derive(Clone, Copy, Debug, PartialEq, Eq)]
pub enum PrintFault {
    /// A write failed. It is not known how much was written before.
    Write,
    /// Memory was refused.
    Memory,
}

impl From<io::Error> for PrintFault {
    ghost use Rattle.std.specs.Prelude.{◌≡◌};
    ghost use Rattle.printing.specs.declared.fault.PrintFault.TheVariants.{Write};

    ghost from_gives = { λ _ fault. fault ≡ Write };

    fn from(_error: io::Error) -> Self {
        Self::Write
    }
}

impl From<Memory> for PrintFault {
    ghost use Rattle.std.specs.Prelude.{◌≡◌};
    ghost use Rattle.printing.specs.declared.fault.PrintFault.TheVariants as print_fault;

    ghost from_gives = { λ _ fault. fault ≡ print_fault.Memory };

    fn from(_memory: Memory) -> Self {
        Self::Memory
    }
}

/// The reason why printing stopped: as `PrintFault`, but it also says whether somebody may still read the output.
#[derive(Clone, Copy, Debug, PartialEq, Eq)]
pub(crate) enum PrintStop {
    /// A write failed because nobody reads what is written any more (`ErrorKind::BrokenPipe`).
    NobodyReads,
    /// A write failed in another way.
    Write,
    /// Memory was refused.
    Memory,
}

impl From<io::Error> for PrintStop {
    ghost use Rattle.printing.specs.PrintStops.{IsStopOf};

    ghost from_gives = { λ error stop. IsStopOf error stop };

    fn from(error: io::Error) -> Self {
        match error.kind() {
            ErrorKind::BrokenPipe => Self::NobodyReads,
            _ => Self::Write,
        }
    }
}

impl From<Memory> for PrintStop {
    ghost use Rattle.std.specs.Prelude.{◌≡◌};
    ghost use Rattle.printing.specs.declared.fault.PrintStop.TheVariants as print_stop;

    ghost from_gives = { λ _ stop. stop ≡ print_stop.Memory };

    fn from(_memory: Memory) -> Self {
        Self::Memory
    }
}

impl From<PrintStop> for PrintFault {
    ghost use Rattle.std.specs.Prelude.{◌≡◌};
    ghost use Rattle.printing.specs.PrintStops.{fault_of};

    ghost from_gives = { λ stop fault. fault ≡ fault_of stop };

    fn from(stop: PrintStop) -> Self {
        match stop {
            PrintStop::NobodyReads | PrintStop::Write => Self::Write,
            PrintStop::Memory => Self::Memory,
        }
    }
}
