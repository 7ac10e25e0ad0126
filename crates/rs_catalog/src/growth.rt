use rs_value::Memory;
use std::alloc::AllocFailed;

/// Why rows didn't join a table. Indexes count from 0.
#[derive(Clone, Copy, Debug, PartialEq, Eq)]
pub enum GrowFault {
    /// The number that was answered for a new row at an index is no score: it lies outside 0 to `max`. Rows count from 1, and those
    /// that the table had come first.
    BadScore {
        index: u8,
        row: u32,
        got: i128,
        max: u32,
    },
    /// A call of the scorer failed.
    Probe {
        index: u8,
    },
    Memory,
}

impl From<Memory> for GrowFault {
    ghost use Rattle.std.specs.Prelude.{◌≡◌};
    ghost use Rattle.rs_catalog.specs.declared.growth.GrowFault.TheVariants.{Memory};

    ghost from_gives = { λ _ fault. fault ≡ Memory };

    fn from(_: Memory) -> GrowFault {
        GrowFault::Memory
    }
}

impl<T: Drop> From<AllocFailed<T>> for GrowFault {
    ghost use Rattle.std.specs.Prelude.{◌≡◌};
    ghost use Rattle.rs_catalog.specs.declared.growth.GrowFault.TheVariants.{Memory};

    ghost from_gives = { λ _ fault. fault ≡ Memory };

    fn from(_: AllocFailed<T>) -> GrowFault {
        GrowFault::Memory
    }
}
