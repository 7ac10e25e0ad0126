use rs_value::Memory;
use std::alloc::AllocFailed;

/// Why no sample was taken. A number that is no score is none of these: it is put into 0 to the greatest score.
#[derive(Clone, Copy, Debug, PartialEq, Eq)]
pub enum SampleFault {
    /// A call of the scorer for the predicate of this number failed.
    Probe { predicate: u8 },
    Memory,
}

impl From<Memory> for SampleFault {
    ghost use Rattle.std.specs.Prelude.{◌≡◌};
    ghost use Rattle.rs_sample.specs.declared.fault.SampleFault.TheVariants.{Memory};

    ghost from_gives = { λ _ fault. fault ≡ Memory };

    fn from(_: Memory) -> SampleFault {
        SampleFault::Memory
    }
}

impl<T: Drop> From<AllocFailed<T>> for SampleFault {
    ghost use Rattle.std.specs.Prelude.{◌≡◌};
    ghost use Rattle.rs_sample.specs.declared.fault.SampleFault.TheVariants.{Memory};

    ghost from_gives = { λ _ fault. fault ≡ Memory };

    fn from(_: AllocFailed<T>) -> SampleFault {
        SampleFault::Memory
    }
}
