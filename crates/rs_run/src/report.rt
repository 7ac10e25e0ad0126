ghost use Rattle.std.specs.Prelude.{Some};
ghost use Rattle.rs_value.specs.Outside.{Keeps};
ghost use Rattle.rs_run.specs.Outcome.{Reports};

use crate::fault::RunFault;
use rs_events::Status;
use rs_outside::{Sink, SinkFault};
use std::alloc::Global;

/// Puts the fault's line to standard error, and answers the status: the fault's, or Memory where there was no memory
/// for the line.
pub fn report<E: Sink>(alloc: Global, fault: &RunFault, err: &mut E) -> Status
    ensures reports { Reports (Some fault.now) result (E.state err.old) (E.state err.new) }
    ensures keeps { Keeps (E.state err.old) (E.state err.new) }
{
    if let Ok(line) = fault.line(alloc) {
        match err.put(line.as_bytes()) {
            Ok(()) | Err(SinkFault::Failed) => return fault.status(),
            Err(SinkFault::Memory) => {}
        }
    }
    let _ = err.put(b"memory\n");
    Status::Memory
}
