use rs_lex::Span;
use rs_value::Memory;
use std::alloc::{AllocError, AllocFailed};

/// The rule that a statement breaks.
#[derive(Clone, Copy, Debug, PartialEq, Eq)]
pub enum Why {
    NoTable,
    NoColumn,
    Ambiguous,
    NoPredicate,
    WrongKind,
    WrongCount,
    NameTwice,
    TooWide,
    DistinctNeedsOutput,
    SetColumnsDiffer,
    LimitOf,
    ConstantTerm,
    BadDivisor,
}

/// Why a statement was not bound: the first rule that it breaks, and where; or there was no memory.
#[derive(Clone, Copy, Debug, PartialEq, Eq)]
pub enum BindFault {
    At(Why, Span),
    Memory,
}

impl From<Memory> for BindFault {
    ghost use Rattle.std.specs.Prelude.{◌≡◌};
    ghost use Rattle.rs_typing.specs.declared.fault.BindFault.TheVariants.{Memory};

    ghost from_gives = { λ _ fault. fault ≡ Memory };

    fn from(_: Memory) -> BindFault {
        BindFault::Memory
    }
}

impl<T: Drop> From<AllocFailed<T>> for BindFault {
    ghost use Rattle.std.specs.Prelude.{◌≡◌};
    ghost use Rattle.rs_typing.specs.declared.fault.BindFault.TheVariants.{Memory};

    ghost from_gives = { λ _ fault. fault ≡ Memory };

    fn from(_: AllocFailed<T>) -> BindFault {
        BindFault::Memory
    }
}
