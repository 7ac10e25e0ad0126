ghost use Rattle.std.specs.Prelude.{◌≡◌};
ghost use Rattle.rs_events.specs.Environment.{Environment};
ghost use Rattle.rs_outside.specs.Files.{finds_in};
ghost use Rattle.rs_events.specs.Running.{Ran, Runs};
ghost use Rattle.rs_words.specs.Drawing.{DrawsAsPut};
ghost use Rattle.rs_words.specs.Faults as told;
ghost use Rattle.rs_words.specs.Faults.{feed_faults, put_faults};
ghost use Rattle.rs_words.specs.Feeding.{IsFeedRun, pairs_run};
ghost use Rattle.rs_words.specs.Joining.{IsUndrawn};

use crate::fault::{PairsFault, PutFault, WordFault};
use crate::feed_file::read_feed;
use crate::joining::join_fault;
use crate::lines::put_draws;
use crate::putting::put_pairs;
use rs_feed_join::FeedJoin;
use rs_outside::{Files, Sink};
use rs_table_feed::TableFeed;
use rs_value::Text;
use std::alloc::Global;

/// Does what `feed LEFT RIGHT K` says: it joins two files that are ranked feeds by their texts, and puts the first `k`
/// pairs, each once it comes at or before the thresholds of the join, and then how many rows it drew of both.
///
/// The right file is fetched only where the left one is a feed. The pairs are those of both fronts in which no score
/// rises, in the stable order of their sums, each in one put. A row that is drawn and out of order ends the run, behind
/// the pairs in front. It takes any number of pairs; where the words are read, K is at most 1,000,000.
///
/// # Errors
///
/// - `Read`: with `Missing` or `TooLong` exactly where the run comes to the fetch of a name that isn't there, or of a
///   file of more than 33,554,432 bytes; with `Failed` only where a fetch failed.
/// - `Table`: exactly where the run comes to a file that is no table with the columns `key TEXT, score INT`.
/// - `Range`: exactly where it comes to such a table with a number outside 0 to 4,294,967,295.
/// - `Order`: exactly where the run comes to the draw of a row whose score is greater than that of the row before it.
///   The pairs in front of it are out.
/// - `Write`: only where a put failed.
/// - `CertTooLong`, `CertForm`: never.
/// - `Memory`: at any call.
pub fn feed_word<F: Files, O: Sink>(
    alloc: Global,
    left: &Text,
    right: &Text,
    k: u32,
    files: &mut F,
    out: &mut O,
) -> Result<(), WordFault>
    ensures { (beside : Environment) → Runs (feed_faults left.now right.now)
        (IsFeedRun (finds_in (F.state files.old).contents) (record { left = left.now; right = right.now; count = k })) result
        (record beside { files = F.state files.old; out = O.state out.old }) (record beside { files = F.state files.new; out = O.state out.new }) }
{
    let mut left = read_feed(alloc, 1, left, files)?;
    let mut right = read_feed(alloc, 2, right, files)?;
    put_join(alloc, k, &mut left, &mut right, out)
}

/// Puts the first `count` pairs of two feeds of tables, each once the join's thresholds allow it, and then how often it
/// drew both.
///
/// It draws exactly what the pairs take that it puts: behind it, what the first `count` pairs take, or all pairs and the
/// end, where there are fewer; where a put failed behind n pairs, what the pair n + 1 takes; where a row was refused,
/// all up to that row.
///
/// # Errors
///
/// - `Order`: exactly where the join comes to the draw of a row whose score is greater than that of the row before it.
///   The pairs in front of it are out.
/// - `Write`: only where a put failed.
/// - `Read`, `Table`, `Range`, `CertTooLong`, `CertForm`: never.
/// - `Memory`: at any call.
pub fn put_join<O: Sink>(
    alloc: Global,
    count: u32,
    left: &mut TableFeed,
    right: &mut TableFeed,
    out: &mut O,
) -> Result<(), WordFault>
    requires left { IsUndrawn left.old }
    requires right { IsUndrawn right.old }
    ensures puts { (beside : Environment) → Ran put_faults (pairs_run left.old.rows right.old.rows count) result
        (record beside { out = O.state out.old }) (record beside { out = O.state out.new }) }
    ensures draws { (beside : Environment) → DrawsAsPut left.old.rows right.old.rows count result left.new right.new
        (record beside { out = O.state out.old }) (record beside { out = O.state out.new }) }
{
    let mut join = FeedJoin::new(alloc);
    match put_pairs(alloc, &mut join, count, left, right, out) {
        Ok(()) => put_draws(alloc, left.draws(), right.draws(), out),
        Err(PairsFault::Join(why)) => Err(join_fault(why)),
        Err(PairsFault::Put(why)) => Err(put_fault(why)),
    }
}

/// The fault of a put.
fn put_fault(why: PutFault) -> WordFault
    ensures { result ≡ told.put_fault why }
{
    match why {
        PutFault::Write => WordFault::Write,
        PutFault::Memory => WordFault::Memory,
    }
}
