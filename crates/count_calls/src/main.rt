//! Runs `ranksql` and counts: `count_calls WORD..` does what `ranksql WORD..` does, and then prints on standard error how
//! many calls of the scorer were made, as `calls N`. It ends with the status of the run.
//!
//! It keeps every call in memory, so its time isn't that of `ranksql`.
#![tactic(auto)]

use rs_expr::MemScorer;
use rs_outside::{DirFiles, OutSink, Sink};
use rs_program::{command_line, exit_code, no_memory};
use rs_run::{Status, run};
use rs_value::Memory;
use std::alloc::Global;
use std::env;
use std::hash::RandomState;
use std::process::ExitCode;

fn main(rt: HostRuntime) -> ExitCode {
    let alloc = rt.alloc();
    let words = command_line(alloc, env::args(&rt));
    let mut out = OutSink::output(&rt);
    let mut err = OutSink::error(&rt);
    let Ok(hash_keys) = RandomState::new(&rt) else {
        return exit_code(no_memory(&mut err));
    };
    let mut files = DirFiles::new(rt, hash_keys);
    let mut scorer = MemScorer::new(alloc);
    let status = match words {
        Ok(words) => run(alloc, &words, &mut files, &mut scorer, &mut out, &mut err),
        Err(Memory) => Status::Memory,
    };
    let told = tell(alloc, scorer.calls().len(), &mut err);
    exit_code(if told.is_ok() { status } else { Status::Memory })
}

/// Prints how many calls were made. Where standard error can't be written, nothing can be told.
fn tell<E: Sink>(alloc: Global, calls: usize, err: &mut E) -> Result<(), Memory> {
    let line = format!(in alloc; "calls {calls}\n")?;
    let _ = err.put(line.as_bytes());
    Ok(())
}
