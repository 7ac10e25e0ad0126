//! The program `ranksql_ask`. It runs the words of `ranksql` over scores that are known, asks a process of the user's for each
//! score that is missing, and runs them again.
//!
//! Its promise: each run is a run of rs_run over a lawful scorer, which knows at first what the file of known scores holds, and
//! rs_ask's promise of questions and rows is of these runs; nothing is run where the script makes no predicate of one of the names;
//! and the lines on standard error and the status are as defined for what it ends with, each refusal with its cause. What the
//! system answers to an opening, a read and a write is only tested.
#![tactic(auto)]

mod began;
mod command;
mod ending;
mod fault;
mod pass_scorer;
mod script;
mod words;

use rs_outside::{DirFiles, OutSink};
use rs_prepare::DirEnds;
use rs_program::{ClosedStreams, command_line, exit_code, no_memory};
use rs_value::Memory;
use std::env;
use std::hash::RandomState;
use std::process::ExitCode;

fn main(rt: HostRuntime) -> ExitCode {
    let alloc = rt.alloc();
    // Before any file is opened.
    let _streams = ClosedStreams::hold(&rt);
    let mut err = OutSink::error(&rt);
    let Ok(hash_keys) = RandomState::new(&rt) else {
        return exit_code(no_memory(&mut err));
    };
    match command_line(alloc, env::args(&rt)) {
        Ok(words) => {
            let (status, _out) = command::command(
                alloc,
                &words,
                &mut DirEnds::new(&rt),
                &mut DirFiles::new(&rt, hash_keys),
                DirFiles::new(&rt, hash_keys),
                OutSink::output(&rt),
                &mut err,
            );
            ExitCode::from(status)
        }
        Err(Memory) => exit_code(no_memory(&mut err)),
    }
}
