ghost use Rattle.std.specs.Prelude.{◌≡◌, ◌∷◌, [], IfOk};
ghost use Rattle.std.specs.String.{string_bytes};
ghost use Rattle.rs_events.specs.Environment.{Environment};
ghost use Rattle.rs_events.specs.Run.{lines_run};
ghost use Rattle.rs_events.specs.Running.{Ran};
ghost use Rattle.rs_words.specs.Faults.{put_faults};
ghost use Rattle.rs_words.specs.Lines.{draws_line, pair_line};
ghost use Rattle.rs_words.specs.Putting.{pair_faults};

use crate::fault::{PutFault, WordFault};
use rs_events::put_text;
use rs_feed_join::FeedPair;
use rs_lines::RowLines;
use rs_outside::Sink;
use rs_value::{Memory, Value};
use std::alloc::Global;

/// Puts the line of a pair that has this rank, which `lines` makes. They are kept from pair to pair.
pub(crate) fn put_pair<O: Sink>(
    lines: &mut RowLines,
    rank: u32,
    pair: FeedPair,
    out: &mut O,
) -> Result<(), PutFault>
    ensures { (beside : Environment) → Ran pair_faults (lines_run (pair_line rank pair ∷ [])) result
        (record beside { out = O.state out.old }) (record beside { out = O.state out.new }) }
{
    let line = pair_line(lines, rank, pair)?;
    put_text(line, out)
}

/// The line of a pair.
fn pair_line(lines: &mut RowLines, rank: u32, pair: FeedPair) -> Result<&[u8], Memory>
    ensures { IfOk result (λ line. line.now ≡ pair_line rank pair) }
{
    let sum = pair.left_score as u64 + pair.right_score as u64;
    let values = [
        Value::Text(pair.join),
        Value::Int(pair.left_score as i64),
        Value::Int(pair.right_score as i64),
    ];
    lines.line(rank as u128, sum, &values)
}

/// Puts the line that tells how often both feeds were drawn.
pub(crate) fn put_draws<O: Sink>(
    alloc: Global,
    left: u64,
    right: u64,
    out: &mut O,
) -> Result<(), WordFault>
    ensures { (beside : Environment) → Ran put_faults (lines_run (draws_line left right ∷ [])) result
        (record beside { out = O.state out.old }) (record beside { out = O.state out.new }) }
{
    let line = draws_line(alloc, left, right)?;
    put_text(line.as_bytes(), out)
}

/// That line.
fn draws_line(alloc: Global, left: u64, right: u64) -> Result<String, Memory>
    ensures { IfOk result (λ line. string_bytes line ≡ draws_line left right) }
{
    Ok(format!(in alloc; "left={left} right={right}\n")?)
}
