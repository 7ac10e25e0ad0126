use rs_query::AskFault;
use rs_rank::Ids;
use rs_value::Memory;
use std::alloc::AllocFailed;

/// Why a cursor gave no row.
#[derive(Clone, Copy, Debug, PartialEq, Eq)]
pub enum ExecFault {
    /// The number that the scorer answered to a rank operator is no score: it lies outside 0 to `max`, which is the predicate's MAX.
    /// The predicate's number counts from 0; the rows are those of the term's entries.
    BadScore {
        predicate: u8,
        ids: Ids,
        got: i128,
        max: u32,
    },
    /// A call of the scorer for the predicate of this number failed.
    Probe {
        predicate: u8,
    },
    Memory,
    /// An earlier call of this cursor failed.
    Broken,
}

impl From<Memory> for ExecFault {
    ghost use Rattle.std.specs.Prelude.{◌≡◌};
    ghost use Rattle.rs_exec.specs.declared.fault.ExecFault.TheVariants.{Memory};

    ghost from_gives = { λ _ fault. fault ≡ Memory };

    fn from(_: Memory) -> ExecFault {
        ExecFault::Memory
    }
}

impl<T: Drop> From<AllocFailed<T>> for ExecFault {
    ghost use Rattle.std.specs.Prelude.{◌≡◌};
    ghost use Rattle.rs_exec.specs.declared.fault.ExecFault.TheVariants.{Memory};

    ghost from_gives = { λ _ fault. fault ≡ Memory };

    fn from(_: AllocFailed<T>) -> ExecFault {
        ExecFault::Memory
    }
}

impl From<AskFault> for ExecFault {
    ghost use Rattle.std.specs.Prelude.{◌≡◌};
    ghost use Rattle.rs_exec.specs.Asking.{exec_fault};

    ghost from_gives = { λ asked fault. fault ≡ exec_fault asked };

    fn from(fault: AskFault) -> ExecFault {
        match fault {
            AskFault::BadScore {
                predicate,
                ids,
                got,
                max,
            } => ExecFault::BadScore {
                predicate,
                ids,
                got,
                max,
            },
            AskFault::Probe { predicate } => ExecFault::Probe { predicate },
            AskFault::Memory => ExecFault::Memory,
        }
    }
}
