//! What is asked of formulas.

use crate::parts::Parts;
use crate::usable::usable;
use crate::values::values_of;
use cases_lines::{Fault, cut_word};
use rs_expr::Expr;
use rs_value::Value;
use std::alloc::Global;

/// The width of the formula that these steps build.
pub fn tell_width(alloc: Global, steps: &[u8]) -> Result<String, Fault> {
    match width_of(alloc, steps)? {
        Some(width) => Ok(format!(in alloc; "{width}")?),
        None => Ok(String::from_str(alloc, "none")?),
    }
}

fn width_of(alloc: Global, steps: &[u8]) -> Result<Option<u128>, Fault> {
    Ok(built(alloc, steps)?.width())
}

/// The value of the formula that these steps build, of the arguments in front of them.
pub fn tell_formula(alloc: Global, words: &[u8]) -> Result<String, Fault> {
    let (args, steps) = cut_word(words);
    let value = value_of(alloc, args, steps)?;
    Ok(format!(in alloc; "{value}")?)
}

fn value_of(alloc: Global, args: &[u8], steps: &[u8]) -> Result<i128, Fault> {
    let args = args_of(alloc, args)?;
    value(&*built(alloc, steps)?, &args)
}

/// The arguments that a word stands for: none, or values with `,` between.
fn args_of(alloc: Global, word: &[u8]) -> Result<Vec<Value>, Fault> {
    match word {
        b"none" => Ok(Vec::new(alloc)),
        _ => values_of(alloc, word, b','),
    }
}

fn value(formula: &Expr, args: &[Value]) -> Result<i128, Fault> {
    if formula.width().is_none() || !usable(formula, args) {
        return Err(Fault::Form);
    }
    Ok(formula.eval(args))
}

/// The formula that these steps build.
fn built(alloc: Global, steps: &[u8]) -> Result<Box<Expr>, Fault> {
    let mut parts = Parts::new(alloc);
    for step in steps.split(|byte| *byte == b' ') {
        parts.step(step)?;
    }
    parts.take()
}
