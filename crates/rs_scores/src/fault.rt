use rs_value::Memory;
use std::alloc::AllocFailed;

/// Why a file holds no known scores. Records and their fields count from 1.
#[derive(Clone, Copy, Debug, PartialEq, Eq)]
pub enum KnownFault {
    /// The last record isn't ended by a line feed that stands in no quotes, so it may be a part of one.
    NotEnded,
    /// The record hasn't the 3 to 10 fields of a predicate with 1 to 8 arguments and a score.
    FieldCount { number: u64, found: u64 },
    /// The predicate is none of those that are asked for.
    NotAsked { number: u64 },
    /// The field isn't UTF-8.
    NotUtf8 { number: u64, field: u64 },
    /// The last field is no number from -4,000,000,000,000,000,000 to 4,000,000,000,000,000,000.
    NotScore { number: u64 },
    /// An earlier record has the same predicate and arguments, and another score.
    Twice { number: u64 },
    Memory,
}

impl From<Memory> for KnownFault {
    ghost use Rattle.std.specs.Prelude.{◌≡◌};
    ghost use Rattle.rs_scores.specs.declared.fault.KnownFault.TheVariants.{Memory};

    ghost from_gives = { λ _ fault. fault ≡ Memory };

    fn from(_: Memory) -> KnownFault {
        KnownFault::Memory
    }
}

impl<T: Drop> From<AllocFailed<T>> for KnownFault {
    ghost use Rattle.std.specs.Prelude.{◌≡◌};
    ghost use Rattle.rs_scores.specs.declared.fault.KnownFault.TheVariants.{Memory};

    ghost from_gives = { λ _ fault. fault ≡ Memory };

    fn from(_: AllocFailed<T>) -> KnownFault {
        KnownFault::Memory
    }
}
