//! The plan that a word stands for.

use cases_lines::{Fault, cut_at, small_number_of};
use rs_plan::Plan;
use std::alloc::Global;

/// The plan that a word stands for.
pub fn plan_of(alloc: Global, word: &[u8]) -> Result<Plan, Fault> {
    let mut stack = Vec::new(alloc);
    // From the right, so that what stands below an operator is there before it.
    for part in word.rsplit(|byte| matches!(byte, b'(' | b',' | b')')) {
        if !part.is_empty() {
            let plan = next(alloc, &mut stack, part)?;
            stack.push(plan)?;
        }
    }
    let plan = child(&mut stack)?;
    if !stack.is_empty() {
        drop(plan);
        return Err(Fault::Form);
    }
    Ok(plan)
}

/// The plan that a part of a word stands for, over those at the top of the stack.
fn next(alloc: Global, stack: &mut Vec<Plan>, part: &[u8]) -> Result<Plan, Fault> {
    match part {
        [b'S', entry @ ..] => Ok(Plan::SeqScan {
            entry: small_number_of(entry)?,
        }),
        [b'I', numbers @ ..] => rank_scan(numbers),
        [b'R', term @ ..] => rank(alloc, small_number_of(term)?, stack),
        [b'D'] => distinct(alloc, stack),
        [letter] => pair(alloc, *letter, stack),
        _ => Err(Fault::Form),
    }
}

/// A scan by an index: `ENTRY:TERM:INDEX`.
fn rank_scan(numbers: &[u8]) -> Result<Plan, Fault> {
    let Some((entry, numbers)) = cut_at(numbers, b':') else {
        return Err(Fault::Form);
    };
    let Some((term, index)) = cut_at(numbers, b':') else {
        return Err(Fault::Form);
    };
    Ok(Plan::RankScan {
        entry: small_number_of(entry)?,
        term: small_number_of(term)?,
        index: small_number_of(index)?,
    })
}

fn rank(alloc: Global, term: u8, stack: &mut Vec<Plan>) -> Result<Plan, Fault> {
    let child = Box::new(alloc, child(stack)?)?;
    Ok(Plan::Rank { term, child })
}

fn distinct(alloc: Global, stack: &mut Vec<Plan>) -> Result<Plan, Fault> {
    let child = Box::new(alloc, child(stack)?)?;
    Ok(Plan::Distinct { child })
}

/// A join or a set operator.
fn pair(alloc: Global, letter: u8, stack: &mut Vec<Plan>) -> Result<Plan, Fault> {
    let left = Box::new(alloc, child(stack)?)?;
    let right = Box::new(alloc, child(stack)?)?;
    match letter {
        b'H' => Ok(Plan::HashJoin { left, right }),
        b'N' => Ok(Plan::NestedJoin { left, right }),
        b'O' => Ok(Plan::SetOperator { left, right }),
        _ => Err(Fault::Form),
    }
}

/// The plan at the top of the stack.
fn child(stack: &mut Vec<Plan>) -> Result<Plan, Fault> {
    match stack.pop() {
        Some(plan) => Ok(plan),
        None => Err(Fault::Form),
    }
}
