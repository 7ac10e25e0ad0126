ghost use Rattle.std.specs.Prelude.{◌≡◌};
ghost use Rattle.rs_events.specs.HaltFaults.{HaltFaults, put_fault};

use rs_outside::SinkFault;

/// A fault with which runs end: it tells their halts.
pub trait HaltFault {
    /// The faults by which halts are told.
    ghost faults: { HaltFaults Self };

    /// The fault of a put that failed, or for which there was no memory.
    fn of_put(why: SinkFault) -> Self
        ensures { result ≡ put_fault faults why };
}
