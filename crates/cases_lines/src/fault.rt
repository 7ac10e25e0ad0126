ghost use Rattle.std.specs.Prelude.{◌≤◌};

use rs_value::{Memory, TextFault};
use std::alloc::{AllocError, AllocFailed};
use std::io;

/// Why a line has no answer. The program ends at it.
#[derive(Clone, Copy, Debug, PartialEq, Eq)]
pub enum Fault {
    Memory,
    /// The line can't be read.
    Input,
    /// What is to be printed can't be written.
    Output,
    /// The line is of no form.
    Form,
}

impl From<Memory> for Fault {
    fn from(_: Memory) -> Fault {
        Fault::Memory
    }
}

impl From<AllocError> for Fault {
    fn from(_: AllocError) -> Fault {
        Fault::Memory
    }
}

impl<T: Drop> From<AllocFailed<T>> for Fault {
    fn from(_: AllocFailed<T>) -> Fault {
        Fault::Memory
    }
}

impl From<TextFault> for Fault {
    fn from(fault: TextFault) -> Fault {
        match fault {
            TextFault::NotUtf8 { .. } => Fault::Form,
            TextFault::Memory => Fault::Memory,
        }
    }
}

impl From<io::Error> for Fault {
    fn from(_: io::Error) -> Fault {
        Fault::Output
    }
}

impl Fault {
    /// What is told of the fault.
    pub fn text(self) -> &'static str {
        match self {
            Fault::Memory => "there is no memory",
            Fault::Input => "the line can't be read",
            Fault::Output => "the output can't be written",
            Fault::Form => "a line of no form",
        }
    }

    /// The status that the program ends with. It isn't that of success.
    pub fn status(self) -> u8
        ensures { 1 ≤ result }
    {
        match self {
            Fault::Memory => 1,
            Fault::Form => 2,
            Fault::Input => 3,
            Fault::Output => 4,
        }
    }
}
