use rs_query::AskFault;
use rs_rank::Ids;
use rs_value::Memory;
use std::alloc::AllocFailed;

/// Why a query was not answered.
#[derive(Clone, Copy, Debug, PartialEq, Eq)]
pub enum PlainFault {
    /// The number that the scorer answered is no score: it lies outside 0 to `max`, which is the predicate's MAX. The predicate's
    /// number counts from 0; the rows are those of the term's entries.
    BadScore {
        predicate: u8,
        ids: Ids,
        got: i128,
        max: u32,
    },
    /// A call of the scorer for the predicate of this number failed.
    Probe {
        predicate: u8,
    },
    Memory,
}

impl From<Memory> for PlainFault {
    ghost use Rattle.std.specs.Prelude.{◌≡◌};
    ghost use Rattle.rs_plain.specs.declared.fault.PlainFault.TheVariants.{Memory};

    ghost from_gives = { λ _ fault. fault ≡ Memory };

    fn from(_: Memory) -> PlainFault {
        PlainFault::Memory
    }
}

impl<T: Drop> From<AllocFailed<T>> for PlainFault {
    ghost use Rattle.std.specs.Prelude.{◌≡◌};
    ghost use Rattle.rs_plain.specs.declared.fault.PlainFault.TheVariants.{Memory};

    ghost from_gives = { λ _ fault. fault ≡ Memory };

    fn from(_: AllocFailed<T>) -> PlainFault {
        PlainFault::Memory
    }
}

impl From<AskFault> for PlainFault {
    ghost use Rattle.std.specs.Prelude.{◌≡◌};
    ghost use Rattle.rs_plain.specs.Plain.{plain_fault};

    ghost from_gives = { λ asked fault. fault ≡ plain_fault asked };

    fn from(fault: AskFault) -> PlainFault {
        match fault {
            AskFault::BadScore {
                predicate,
                ids,
                got,
                max,
            } => PlainFault::BadScore {
                predicate,
                ids,
                got,
                max,
            },
            AskFault::Probe { predicate } => PlainFault::Probe { predicate },
            AskFault::Memory => PlainFault::Memory,
        }
    }
}
