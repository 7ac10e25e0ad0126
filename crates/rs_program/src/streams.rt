ghost use Rattle.std.specs.Prelude.{◌≡◌};
ghost use Rattle.rs_program.specs.Streams.{AreStandard, HoldsThree, held_of};

use std::fs::{self, File};
use std::io;
use std::os::fd::AsRawFd;

/// The greatest number of a standard stream: 0 is standard input, 1 standard output, and 2 standard error.
const LAST_STREAM: i32 = 2;

/// The standard streams that were closed when the program started. Each is open on `/dev/null` instead, to read alone, as long as
/// this value lives. So no other file gets its number, and what is put to it fails.
#[derive(Drop)]
pub struct ClosedStreams {
    /// The system gives the least number that is free, so these are the closed ones from the least on.
    held: [Option<File>; 3],
}

impl ClosedStreams {
    /// Opens the closed streams on `/dev/null`. Call it before any other file is opened. Where there is no `/dev/null` it does nothing.
    pub fn hold(rt: &HostRuntime) -> ClosedStreams
        ensures { AreStandard result.held }
    {
        ClosedStreams::hold_by(|| fs::open(rt, "/dev/null"))
    }

    /// The same, where `opens` opens `/dev/null` each time that it is called.
    pub fn hold_by<F: Fn() -> io::Result<File>>(opens: F) -> ClosedStreams
        requires { F.IsAlwaysCallable opens }
        ensures held { HoldsThree (F.post opens) result.held }
        ensures standard { AreStandard result.held }
    {
        ClosedStreams {
            held: [held(opens()), held(opens()), held(opens())],
        }
    }
}

/// One more stream that was closed, if it is one.
fn held(opened: io::Result<File>) -> Option<File>
    ensures { result ≡ held_of opened }
{
    match opened {
        Ok(file) if file.as_raw_fd() <= LAST_STREAM => Some(file),
        _ => None,
    }
}
