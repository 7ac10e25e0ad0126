ghost use Rattle.std.specs.Prelude.{[], ◌∷◌};
ghost use Rattle.rs_events.specs.Environment.{Environment};
ghost use Rattle.rs_events.specs.Run.{lines_run};
ghost use Rattle.rs_events.specs.Running.{Ran};

use crate::halt_fault::HaltFault;
use rs_outside::Sink;

/// Puts text on standard output, in one put.
///
/// # Errors
///
/// - `Err`: the fault that `HaltFault::of_put` tells: that the put failed, of which a prefix of the text is out, or
///   that there was no memory for it and nothing is out.
pub fn put_text<O: Sink, T: HaltFault>(text: &[u8], out: &mut O) -> Result<(), T>
    ensures { (beside : Environment) → Ran T.faults (lines_run (text.now ∷ [])) result
        (record beside { out = O.state out.old }) (record beside { out = O.state out.new }) }
{
    match out.put(text) {
        Ok(()) => Ok(()),
        Err(why) => Err(T::of_put(why)),
    }
}
