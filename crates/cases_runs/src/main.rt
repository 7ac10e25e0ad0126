//! Makes the runs of `rs_run` that the lines of standard input ask for, and prints what came of each. Such lines are the
//! tests of `rs_statement` and `rs_run`.
//!
//! Each line is printed as it is, and what a run did behind its line. A line is one of these, its words with one space
//! between:
//! - `file NAME BYTES`: in the runs behind this line the file of this name has these bytes.
//! - `front BYTES`: these bytes come in front of the scripts behind this line, behind those of earlier such lines.
//!   `front` alone takes away all of them.
//! - `script BYTES`: the file `s.sql` has the front and then these bytes.
//! - `more COUNT BYTES`: this many times these bytes are added to the file of the last line `file` or `script`.
//! - `score SCORE PREDICATE ARGUMENT..`: in the next run this call is answered so. Other calls are answered by formulas.
//! - `fail call N`, `fail fetch N`: in the next run the Nth call of the scorer, the Nth fetch fails.
//! - `fail out N AFTER`, `fail err N AFTER`: in the next run the Nth put on standard output, on standard error fails
//!   after this many bytes.
//! - `run WORD..`: these words are run.
//! - `guess SCRIPT SEED`: the script is run by plans that are chosen by guesses, with this seed.
//! - a comment that begins with `#`, or nothing.
//!
//! Bytes and words have the escapes of `cases_lines`. In a line `more` `\#` is the number of the time, from 01.
//!
//! Of a run is told how it ended, the bytes on standard output (`out`) and on standard error (`err`), the calls of the
//! scorer (`calls`) and the names that were fetched (`fetched`), in their order. What there is none of is left out,
//! and the usage line is told by name.
#![tactic(auto)]

mod fakes;
mod line;
mod told;

use cases_lines::{answer_lines, no_memory};
use fakes::Fakes;
use rs_run::{one_run, plain_and_run_agree};
use std::hash::RandomState;
use std::process::ExitCode;

fn main(rt: HostRuntime) -> ExitCode {
    one_run();
    plain_and_run_agree();
    match RandomState::new(&rt) {
        Ok(hash_keys) => answer_lines(&rt, &mut Fakes::new(rt.alloc(), hash_keys)),
        Err(_) => no_memory(&rt),
    }
}
