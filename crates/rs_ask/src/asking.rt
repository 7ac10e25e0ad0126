ghost use Rattle.std.specs.Prelude.{◌≡◌, IfErr, IfOk};
ghost use Rattle.rs_ask.specs.Asking.{AskingState, Ends, StopsAfter, channel_state};

use crate::answering::{Reply, ask};
use crate::answers::Answers;
use crate::asked::Asked;
use crate::channel::Channel;
use crate::new_rows::Began;
use crate::no_answer::NoAnswer;
use crate::pass::{Pass, Rerun};
use crate::put_rows::PutRows;
use crate::run_once::run_once;
use crate::stop::Stop;
use rs_outside::Sink;
use rs_scores::KnownScores;
use std::alloc::Global;
use std::marker::Brand;

/// Runs over the known scores. Where a run misses a score it asks for it, reads the answer, keeps it, and runs again. What a run
/// puts beyond what was put before goes to `out` at once, and is held. Ends with the first run that misses no score, or whose
/// question has no answer: then its put failed, or a read of the answers, or the next line of the answers isn't there, is too long,
/// has no number, or has one that is no score of the predicate. An answer is kept before it is used, and one that is no score isn't
/// kept. The sink of the rows is given back.
///
/// # Errors
///
/// - `Differs`: exactly where a run puts something else than was put before in its place, or less, though it had memory. Nothing of
///   what differs is put.
/// - `Write`: exactly where a put to `out` failed. The run is stopped at this put.
/// - `Lost`: exactly where the put of a score that was read failed. It tells the score's line.
/// - `Memory`: at any call. All that was put begins what the last run puts; or that run lacked memory, and what was put is what the
///   runs before it put.
pub fn ask_and_run<R: Rerun, Q: Sink, A: Answers, K: Sink, O: Sink>(
    alloc: Global,
    runs: &mut R,
    known: &mut KnownScores,
    channel: &mut Channel<Q, A, K>,
    out: O,
) -> (Result<Asked, Stop>, O)
    ensures ok { IfOk result.0 (λ asked. Ends R.ran asked runs.old known.old runs.new known.new
        (record { channel = channel_state Q.state A.state K.state channel.old; out = O.state out })
        (record { channel = channel_state Q.state A.state K.state channel.new; out = O.state result.1 })) }
    ensures err { IfErr result.0 (λ stop. StopsAfter R.ran stop runs.old known.old runs.new known.new
        (record { channel = channel_state Q.state A.state K.state channel.old; out = O.state out })
        (record { channel = channel_state Q.state A.state K.state channel.new; out = O.state result.1 })) }
{
    ask_all::<R, Q, A, K, O, Brand>(alloc, runs, known, channel, out)
}

/// The same, where proofs know what stood in the sink at first.
fn ask_all<R: Rerun, Q: Sink, A: Answers, K: Sink, O: Sink, B: Began>(
    alloc: Global,
    runs: &mut R,
    known: &mut KnownScores,
    channel: &mut Channel<Q, A, K>,
    out: O,
) -> (Result<Asked, Stop>, O)
    requires { B.out ≡ O.state out }
    ensures ok { IfOk result.0 (λ asked. Ends R.ran asked runs.old known.old runs.new known.new
        (record { channel = channel_state Q.state A.state K.state channel.old; out = B.out })
        (record { channel = channel_state Q.state A.state K.state channel.new; out = O.state result.1 })) }
    ensures err { IfErr result.0 (λ stop. StopsAfter R.ran stop runs.old known.old runs.new known.new
        (record { channel = channel_state Q.state A.state K.state channel.old; out = B.out })
        (record { channel = channel_state Q.state A.state K.state channel.new; out = O.state result.1 })) }
{
    let before = known.len();
    let mut answers = 0;
    let (first, mut rows, mut out) = run_once::<R, O, Brand>(
        alloc,
        runs,
        known,
        PutRows::new(alloc),
        out,
    );
    let mut pass = match first {
        Ok(pass) => pass,
        Err(stop) => return (Err(stop), out),
    };
    loop {
        match ask(alloc, &pass, known, channel) {
            Ok(Reply::Learned) => {}
            Ok(Reply::Nothing) => return (Ok(ended(pass, answers, None)), out),
            Ok(Reply::Unanswered(why)) => return (Ok(ended(pass, answers, Some(why))), out),
            Err(stop) => {
                drop(pass);
                return (Err(stop), out);
            }
        }
        answers = known.len() - before;
        drop(pass);
        let (next, next_rows, next_out) = run_once::<R, O, Brand>(alloc, runs, known, rows, out);
        rows = next_rows;
        out = next_out;
        match next {
            Ok(next) => pass = next,
            Err(stop) => return (Err(stop), out),
        }
    }
}

/// How it ended.
fn ended(pass: Pass, answers: usize, unanswered: Option<NoAnswer>) -> Asked
    ensures { result ≡ record { pass = pass; answers = answers; unanswered = unanswered } }
{
    Asked {
        pass,
        answers,
        unanswered,
    }
}
