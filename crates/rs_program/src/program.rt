ghost use Rattle.std.specs.Prelude.{◌≡◌, IfOk, OnErr};
ghost use Rattle.std.specs.Process.{exit_status};
ghost use Rattle.rs_events.specs.Status.{exit_status_of};
ghost use Rattle.rs_program.specs.Program.{EndsAsRun, SaysNoMemory, objects};

use rs_events::Status;
use rs_outside::Sink;
use rs_value::{Memory, Text};
use std::alloc::Global;
use std::process::ExitCode;

/// Hands the words on to `run`, with the files, the scorer, standard output and standard error, and ends with the
/// status of the run. `run` is that of `rs_run`: it is a parameter, so that the contract can say that it is called
/// once and that nothing comes before or behind it, whatever it does.
pub fn command<F, S, O, E: Sink, R>(
    alloc: Global,
    words: Result<Vec<Text>, Memory>,
    files: &mut F,
    scorer: &mut S,
    out: &mut O,
    err: &mut E,
    run: R,
) -> ExitCode
where
    R: FnOnce(Global, &[Text], &mut F, &mut S, &mut O, &mut E) -> Status + Drop,
    requires { R.IsAlwaysCallable run }
    // One run of these words does all that is done, and its status is that of the program.
    ensures run { IfOk words (λ words. EndsAsRun (R.FnOnce.post run) alloc words.items
        (objects files.old scorer.old out.old err.old) result
        (objects files.new scorer.new out.new err.new)) }

    // Where there was no memory for the words nothing is run, and standard error says so.
    ensures no_memory { OnErr words (exit_status result ≡ exit_status_of Status.Memory) }
    ensures nothing { OnErr words ((files.new ≡ files.old) × (scorer.new ≡ scorer.old) × (out.new ≡ out.old)) }
    ensures line { OnErr words (SaysNoMemory (E.state err.old).told (E.state err.new).told) }
{
    match words {
        Ok(words) => exit_code(run(alloc, &words, files, scorer, out, err)),
        Err(Memory) => exit_code(no_memory(err)),
    }
}

/// The exit status of the program is the number of the status.
pub fn exit_code(status: Status) -> ExitCode
    ensures { exit_status result ≡ exit_status_of status }
{
    ExitCode::from(status.number())
}

/// Says on standard error that there was no memory for the words. A program says the same, and runs nothing, where the
/// system had no random bytes for the keys of hashes.
pub fn no_memory<E: Sink>(err: &mut E) -> Status
    ensures status { result ≡ Status.Memory }
    ensures line { SaysNoMemory (E.state err.old).told (E.state err.new).told }
{
    let _ = err.put(b"memory\n");
    Status::Memory
}
