ghost use Rattle.std.specs.Prelude.{[], ◌+◌, ◌∷◌, ◌^◌, ◌≤◌, suc};
ghost use Rattle.rs_lines.specs.Row.{line_of};
ghost use Rattle.rs_statement.specs.Lines.{rank_lines};
ghost use Rattle.rs_statement.specs.Parts.Steps.{Ran};
ghost use Rattle.rs_events.specs.Run.{lines_run};
ghost use Rattle.rs_events.specs.Environment.{Environment};

use crate::fault::Fault;
use rs_events::put_text;
use rs_lines::RowLines;
use rs_outside::Sink;
use rs_rank::Answer;
use std::alloc::Global;

/// Puts the lines of rows, ranked behind this many that were given before them, each in one put before the next row is looked at.
///
/// # Errors
///
/// - `Write`: only where a put failed; standard output's count of faults rose.
/// - `Memory`: at any time, in place of what else would come.
/// - `Read`, `Table`, `BadScore`, `Probe`, `Script`, `Session`: never.
pub fn put_rows<O: Sink>(
    alloc: Global,
    given: usize,
    rows: &[Answer],
    out: &mut O,
) -> Result<(), Fault>
    ensures { (beside : Environment) → Ran (lines_run (rank_lines (suc given) rows.now)) result
        (record beside { out = O.state out.old }) (record beside { out = O.state out.new }) }
{
    let mut lines = RowLines::new(alloc);
    for (index, row) in rows.iter().enumerate() {
        put_row(&mut lines, given as u128 + index as u128 + 1, row, out)?;
    }
    Ok(())
}

/// Puts the line of a row that has this rank, which `lines` makes. It is kept from row to row. Each rank that is printed is put here, so
/// none is above 2^103 + 1.
pub fn put_row<O: Sink>(
    lines: &mut RowLines,
    rank: u128,
    row: &Answer,
    out: &mut O,
) -> Result<(), Fault>
    requires limit { rank ≤ 2 ^ 103 + 1 }
    ensures { (beside : Environment) → Ran (lines_run (line_of rank row.now.score row.now.values ∷ [])) result
        (record beside { out = O.state out.old }) (record beside { out = O.state out.new }) }
{
    let line = lines.line(rank, row.score, row.values.items())?;
    put_text(line, out)
}
