ghost use Rattle.std.specs.Prelude.{◌≡◌, IfErr, IfOk, IfSome, None, OnOk};
ghost use Rattle.rs_scores.specs.Known.{score_of};
ghost use Rattle.rs_ask.specs.PutRows.{Passed};
ghost use Rattle.rs_ask.specs.Running.{RunStops, RunsWhole};

use crate::new_rows::{Began, NewRows};
use crate::pass::{Pass, Rerun};
use crate::put_rows::PutRows;
use crate::stop::Stop;
use rs_outside::Sink;
use rs_scores::KnownScores;
use std::alloc::Global;

/// Runs once. What the run puts beyond what was put before goes out at once.
pub(crate) fn run_once<R: Rerun, O: Sink, B: Began>(
    alloc: Global,
    runs: &mut R,
    known: &KnownScores,
    rows: PutRows,
    out: O,
) -> (Result<Pass, Stop>, PutRows, O)
    requires shown { B.shown ≡ rows.bytes }
    requires passed { Passed B.out (O.state out) rows }
    requires well { rows.fault ≡ None }
    ensures ok { IfOk result.0 (λ pass. RunsWhole R.ran pass runs.old known.now runs.new rows.bytes result.1.bytes B.out (O.state result.2)) }
    ensures passed { Passed B.out (O.state result.2) result.1 }
    ensures well { OnOk result.0 (result.1.fault ≡ None) }
    ensures missing { IfOk result.0 (λ pass. IfSome pass.missing (λ question. score_of question known.now ≡ None)) }
    ensures err { IfErr result.0 (λ stop. RunStops R.ran stop runs.old known.now runs.new rows.bytes B.out (O.state result.2)) }
{
    let mut rows = rows;
    rows.begin();
    let mut new = NewRows::<O, B>::new(rows, out);
    let pass = runs.rerun(alloc, known, &mut new);
    let stop = new.stop(pass.lacked_memory);
    let (rows, out) = new.into_parts();
    match stop {
        None => (Ok(pass), rows, out),
        Some(stop) => {
            drop(pass);
            (Err(stop), rows, out)
        }
    }
}
