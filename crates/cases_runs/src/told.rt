//! What is printed of a run.

use crate::fakes::Fakes;
use cases_lines::{print_call, print_escaped};
use rs_expr::Call;
use rs_run::{RunFault, Status};
use rs_value::{Memory, Text};
use std::alloc::Global;

/// The lines that tell of a run.
pub fn tell_run(alloc: Global, status: Status, fakes: &Fakes) -> Result<String, Memory> {
    let mut told = format!(in alloc; "  {status:?}\n")?;
    tell_bytes("out", fakes.out.bytes(), &mut told)?;
    tell_error(alloc, fakes.err.bytes(), &mut told)?;
    tell_calls(fakes.scorer.calls(), &mut told)?;
    tell_names(fakes.files.fetched_names(), &mut told)?;
    Ok(told)
}

/// Tells the bytes that were put, where there are any.
fn tell_bytes(name: &str, bytes: &[u8], told: &mut String) -> Result<(), Memory> {
    if bytes.is_empty() {
        return Ok(());
    }
    told.push_str("  ")?;
    told.push_str(name)?;
    told.push_str(" ")?;
    print_escaped(bytes, told)?;
    told.push_str("\n")?;
    Ok(())
}

/// Tells the bytes that were put on standard error. The usage line is told by name.
fn tell_error(alloc: Global, bytes: &[u8], told: &mut String) -> Result<(), Memory> {
    let fault = RunFault::Usage;
    let usage = fault.line(alloc)?;
    if bytes == usage.as_bytes() {
        told.push_str("  err is the usage line\n")?;
        return Ok(());
    }
    tell_bytes("err", bytes, told)
}

/// Tells the calls of the scorer: of each the predicate and the arguments.
fn tell_calls(calls: &[Call], told: &mut String) -> Result<(), Memory> {
    let mut between = "  calls ";
    for call in calls {
        told.push_str(between)?;
        print_call(call.predicate.bytes(), call.args.items(), told)?;
        between = "; ";
    }
    end_line(calls.is_empty(), told)
}

/// Tells the names that were fetched. One that is empty is told as `\-`.
fn tell_names(names: &[Text], told: &mut String) -> Result<(), Memory> {
    let mut between = "  fetched ";
    for name in names {
        told.push_str(between)?;
        if name.bytes().is_empty() {
            told.push_str("\\-")?;
        }
        print_escaped(name.bytes(), told)?;
        between = " ";
    }
    end_line(names.is_empty(), told)
}

/// Ends a line, where one was begun.
fn end_line(is_empty: bool, told: &mut String) -> Result<(), Memory> {
    if !is_empty {
        told.push_str("\n")?;
    }
    Ok(())
}
