ghost use Rattle.std.specs.Prelude.{codes, Some};

use std::alloc::{AllocError, AllocFailed};
use std::error::Error;
use std::fmt::{self, Display, Formatter, Write};

/// The answer for want of memory. It says nothing of any argument, and may come from each call that has it.
/// By `?` it is made from the errors of std's collections.
#[derive(Clone, Copy, Debug, PartialEq, Eq)]
pub struct Memory;

impl Display for Memory {
    ghost output = { λ _. Some (codes "there is no memory") };

    fn fmt<W: Write>(&self, f: &mut Formatter<W>) -> fmt::Result {
        f.write_str("there is no memory")
    }
}

impl Error for Memory {}

impl From<AllocError> for Memory {
    fn from(_error: AllocError) -> Memory {
        Memory
    }
}

impl<T: Drop> From<AllocFailed<T>> for Memory {
    fn from(_error: AllocFailed<T>) -> Memory {
        Memory
    }
}
