ghost use Rattle.std.specs.Prelude.{◌≡◌, ◌∷◌, [], IfOk, List, Some};
ghost use Rattle.std.specs.String.{string_bytes};
ghost use Rattle.rs_events.specs.Environment.{Environment};
ghost use Rattle.rs_events.specs.Run.{lines_run};
ghost use Rattle.rs_events.specs.Running.{Ran};
ghost use Rattle.rs_feed_join.specs.Cuts.{HaveScores};
ghost use Rattle.rs_stream.specs.Rows.{Stream};
ghost use Rattle.rs_stream.specs.StreamFeeds.{EndsAs, new_stream_feed, stream_in};
ghost use Rattle.rs_words.specs.Lines.{draws_line};
ghost use Rattle.rs_words.specs.Putting.{pair_faults};
ghost use Rattle.rs_stream_word.specs.Putting.{FeedsStreams, PutsStreams};

use crate::fault::{StreamsFault, join_fault, put_fault};
use rs_events::put_text;
use rs_feed_join::FeedJoin;
use rs_outside::Sink;
use rs_stream::{StreamFeed, Whole};
use rs_value::Memory;
use rs_words::{PairsFault, PutFault, put_pairs};
use std::alloc::Global;
use std::io::Read;
use std::marker::Brand;

/// Puts the first `count` pairs of two streams, or all, where there are fewer, each as soon as the thresholds of the join allow it and
/// before any later draw, and then how often both were drawn. Nothing is to be drawn of the streams yet.
///
/// # Errors
///
/// - `Stream`: only where a draw failed, with its cause. Of a stream that tells its bytes, any cause but a failed read is how the stream
///   ends behind its rows: `BrokenOff` is told only of one that has no record `end,end`.
/// - `Order`, `TooLong`: exactly where the join comes to a row that it refuses, as `put_pairs` says.
/// - `Write`: only where a put failed.
/// - `Memory`: at any call.
pub fn put_streams<L: Read, R: Read, A: Whole, B: Whole, O: Sink>(
    alloc: Global,
    count: u32,
    left: &mut StreamFeed<L, A>,
    right: &mut StreamFeed<R, B>,
    out: &mut O,
) -> Result<(), StreamsFault>
    requires left { left.old ≡ new_stream_feed }
    requires right { right.old ≡ new_stream_feed }
    ensures told { (beside : Environment) (lefts rights : Stream) → A.stream ≡ Some lefts → B.stream ≡ Some rights → HaveScores lefts.rows → HaveScores rights.rows
        → PutsStreams lefts.rows rights.rows count result left.new.why right.new.why (record beside { out = O.state out.old }) (record beside { out = O.state out.new }) }
    ensures left_ends { EndsAs left.new.why A.stream }
    ensures right_ends { EndsAs right.new.why B.stream }
{
    let result = put_both(alloc, count, left, right, out);
    // What the feeds say of their ends is said to the proof by these looks.
    let _left = left.why();
    let _right = right.why();
    result
}

/// The same of what two readers give, of which nothing was read.
///
/// # Errors
///
/// - As those of `put_streams`.
pub fn feed_streams<L: Read + Drop, R: Read + Drop, O: Sink>(
    alloc: Global,
    count: u32,
    left: L,
    right: R,
    out: &mut O,
) -> Result<(), StreamsFault>
    ensures { (beside : Environment) (lefts rights : Stream) → stream_in (L.remaining left) ≡ Some lefts → stream_in (R.remaining right) ≡ Some rights
        → HaveScores lefts.rows → HaveScores rights.rows
        → FeedsStreams lefts rights count result (record beside { out = O.state out.old }) (record beside { out = O.state out.new }) }
{
    feed_over::<L, R, Brand, Brand, O>(alloc, count, left, right, out)
}

/// The same, where proofs know what both streams have in all.
fn feed_over<L: Read + Drop, R: Read + Drop, A: Whole + Drop, B: Whole + Drop, O: Sink>(
    alloc: Global,
    count: u32,
    left: L,
    right: R,
    out: &mut O,
) -> Result<(), StreamsFault>
    requires left { A.stream ≡ stream_in (L.remaining left) }
    requires right { B.stream ≡ stream_in (R.remaining right) }
    ensures { (beside : Environment) (lefts rights : Stream) → A.stream ≡ Some lefts → B.stream ≡ Some rights → HaveScores lefts.rows → HaveScores rights.rows
        → FeedsStreams lefts rights count result (record beside { out = O.state out.old }) (record beside { out = O.state out.new }) }
{
    let mut left = StreamFeed::<L, A>::new(alloc, left);
    let mut right = StreamFeed::<R, B>::new(alloc, right);
    put_streams(alloc, count, &mut left, &mut right, out)
}

/// The same, without what is said of the ends of both streams.
fn put_both<L: Read, R: Read, A: Whole, B: Whole, O: Sink>(
    alloc: Global,
    count: u32,
    left: &mut StreamFeed<L, A>,
    right: &mut StreamFeed<R, B>,
    out: &mut O,
) -> Result<(), StreamsFault>
    requires left { left.old ≡ new_stream_feed }
    requires right { right.old ≡ new_stream_feed }
    ensures { (beside : Environment) (lefts rights : Stream) → A.stream ≡ Some lefts → B.stream ≡ Some rights → HaveScores lefts.rows → HaveScores rights.rows
        → PutsStreams lefts.rows rights.rows count result left.new.why right.new.why (record beside { out = O.state out.old }) (record beside { out = O.state out.new }) }
{
    let mut join = FeedJoin::new(alloc);
    match put_pairs(alloc, &mut join, count, left, right, out) {
        Ok(()) => match put_draws(alloc, left.draws(), right.draws(), out) {
            Ok(()) => Ok(()),
            Err(why) => Err(put_fault(why)),
        },
        Err(PairsFault::Join(why)) => Err(join_fault(why, left.why(), right.why())),
        Err(PairsFault::Put(why)) => Err(put_fault(why)),
    }
}

/// Puts the line that tells how often both streams were drawn.
fn put_draws<O: Sink>(alloc: Global, left: u64, right: u64, out: &mut O) -> Result<(), PutFault>
    ensures { (beside : Environment) → Ran pair_faults (lines_run (draws_line left right ∷ [])) result
        (record beside { out = O.state out.old }) (record beside { out = O.state out.new }) }
{
    let line = draws_line(alloc, left, right)?;
    put_text(line.as_bytes(), out)
}

/// That line.
fn draws_line(alloc: Global, left: u64, right: u64) -> Result<String, Memory>
    ensures { IfOk result (λ line. string_bytes line ≡ draws_line left right) }
{
    Ok(format!(in alloc; "left={left} right={right}\n")?)
}
