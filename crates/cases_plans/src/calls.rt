//! The calls of a scorer.

use cases_lines::{Fault, print_call};
use rs_expr::Call;

/// Tells calls of a scorer, and ends the line.
pub fn tell_calls(calls: &[Call], told: &mut String) -> Result<(), Fault> {
    let mut between = "; calls ";
    for call in calls {
        told.push_str(between)?;
        print_call(call.predicate.bytes(), call.args.items(), told)?;
        between = ", ";
    }
    Ok(told.push_str("\n")?)
}
