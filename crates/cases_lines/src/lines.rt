ghost use Rattle.std.specs.Prelude.{◌≡◌};
ghost use Rattle.cases_lines.specs.Words.{has_case};

use crate::fault::Fault;
use std::alloc::Global;
use std::io;
use std::process::ExitCode;

/// What a program answers.
pub trait Cases {
    /// What is printed behind a line that has a case.
    fn answer(&mut self, alloc: Global, line: &[u8]) -> Result<String, Fault>;
}

/// Tells that there was no memory before the first line was read, or, which is told the same, that the system had no random
/// bytes for the keys of hashes. It is the status that the program ends with.
pub fn no_memory(rt: &impl Eprint) -> ExitCode {
    let text = Fault::Memory.text();
    let _ = eprintln!(rt; "{text}");
    ExitCode::from(Fault::Memory.status())
}

/// Answers the lines of standard input, up to the first one that has a fault, which is told with its number, counted
/// from 1.
pub fn answer_lines<C: Cases>(
    rt: &(impl Input + Print + Eprint + AllocGlobal),
    cases: &mut C,
) -> ExitCode {
    let mut number = 0u64;
    for line in rt.lines(rt.alloc()) {
        number = number.saturating_add(1);
        if let Err(fault) = answer_read(rt, line, cases) {
            let text = fault.text();
            let _ = eprintln!(rt; "line {number}: {text}");
            return ExitCode::from(fault.status());
        }
    }
    ExitCode::SUCCESS
}

fn answer_read<C: Cases>(
    rt: &(impl Print + AllocGlobal),
    line: io::Result<String>,
    cases: &mut C,
) -> Result<(), Fault> {
    match line {
        Ok(line) => answer_line(rt, line.as_str(), cases),
        Err(_) => Err(Fault::Input),
    }
}

/// Prints a line, and what its case gives.
fn answer_line<C: Cases>(
    rt: &(impl Print + AllocGlobal),
    line: &str,
    cases: &mut C,
) -> Result<(), Fault> {
    println!(rt; "{line}")?;
    if !has_case(line.as_bytes()) {
        return Ok(());
    }
    let answer = cases.answer(rt.alloc(), line.as_bytes())?;
    print!(rt; "{answer}")?;
    Ok(())
}

/// Whether a line has a case.
fn has_case(line: &[u8]) -> bool
    ensures { result ≡ has_case line.now }
{
    match line.first() {
        Some(byte) => *byte != b'#',
        None => false,
    }
}
