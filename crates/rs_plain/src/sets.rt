ghost use Rattle.std.specs.Prelude.{◌≡◌, ◌++◌, List, IfOk, map, not};
ghost use Rattle.std.specs.List.{filter};
ghost use Rattle.rs_query.specs.Answers.{firsts, occurs_in, set_base};
ghost use Rattle.rs_value.specs.declared.value.Value.{Value as OutputValue};
ghost use Rattle.rs_outputs.specs.Seen.{has_list};

use rs_outputs::Outputs;
use rs_rank::Answer;
use rs_value::{Memory, SetOp};
use std::alloc::Global;

/// The rows that a set operator makes of those of two blocks. Rows are compared by their output values alone.
pub(crate) fn set_rows(
    alloc: Global,
    op: SetOp,
    left: Vec<Answer>,
    right: Vec<Answer>,
) -> Result<Vec<Answer>, Memory>
    ensures { IfOk result (λ rows. rows.items ≡ set_base op left.items right.items) }
{
    match op {
        SetOp::UnionAll => append_rows(left, right),
        SetOp::Union => first_rows(alloc, append_rows(left, right)?),
        SetOp::Intersect => first_rows(alloc, shared_rows(alloc, left, &right)?),
        SetOp::Except => first_rows(alloc, other_rows(alloc, left, &right)?),
    }
}

/// The first row of each list of output values.
pub(crate) fn first_rows(alloc: Global, rows: Vec<Answer>) -> Result<Vec<Answer>, Memory>
    ensures { IfOk result (λ kept. kept.items ≡ firsts rows.items) }
{
    let mut seen = Outputs::new(alloc);
    let mut kept = Vec::new(alloc);
    for row in rows {
        if seen.add_copy(row.values.items())? {
            kept.push(row)?;
        }
    }
    Ok(kept)
}

/// The rows of both, the left ones first.
pub(crate) fn append_rows<T: Drop>(left: Vec<T>, right: Vec<T>) -> Result<Vec<T>, Memory>
    ensures { IfOk result (λ rows. rows.items ≡ left.items ++ right.items) }
{
    let mut rows = left;
    for row in right {
        rows.push(row)?;
    }
    Ok(rows)
}

/// The left rows whose output values some right row has.
fn shared_rows(alloc: Global, left: Vec<Answer>, right: &[Answer]) -> Result<Vec<Answer>, Memory>
    ensures { IfOk result (λ rows. rows.items ≡ filter (occurs_in right.now) left.items) }
{
    let outputs = outputs_of(alloc, right)?;
    let mut rows = left;
    rows.retain(|row| outputs.has(row.values.items()));
    Ok(rows)
}

/// The left rows whose output values no right row has.
fn other_rows(alloc: Global, left: Vec<Answer>, right: &[Answer]) -> Result<Vec<Answer>, Memory>
    ensures { IfOk result (λ rows. rows.items ≡ filter (λ row. not (occurs_in right.now row)) left.items) }
{
    let outputs = outputs_of(alloc, right)?;
    let mut rows = left;
    rows.retain(|row| !outputs.has(row.values.items()));
    Ok(rows)
}

/// The lists of output values of some rows.
fn outputs_of(alloc: Global, rows: &[Answer]) -> Result<Outputs, Memory>
    ensures { IfOk result (λ outputs. (values : List OutputValue) → has_list values outputs.lists ≡ has_list values (map (λ row. row.values) rows.now)) }
{
    let mut outputs = Outputs::new(alloc);
    for row in rows {
        outputs.add_copy(row.values.items())?;
    }
    Ok(outputs)
}
