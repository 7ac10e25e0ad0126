ghost use Rattle.std.specs.Prelude.{◌≡◌, ◌⊎◌, ◌≤◌, Ok, Err, IfErr, IfOk, MatchResult, length};
ghost use Rattle.rs_events.specs.Environment.{Environment};
ghost use Rattle.rs_outside.specs.Files.{finds_in};
ghost use Rattle.rs_events.specs.Running.{Ran, Runs};
ghost use Rattle.rs_cert.specs.Records.{most_wanted};
ghost use Rattle.rs_words.specs.Certifying.{IsCertRun, IsOfBytes, bytes_of, certified, few_rows, joined_bytes, joined_cert_run};
ghost use Rattle.rs_words.specs.Drawing.{DrawsAsCertified};
ghost use Rattle.rs_words.specs.Faults.{feed_faults, put_faults};
ghost use Rattle.rs_words.specs.Joining.{IsUndrawn};

use crate::certificate::certify;
use crate::fault::WordFault;
use crate::feed_file::read_feed;
use crate::joining::join_fault;
use rs_cert::{Cert, CertSide, MOST_ROWS};
use rs_events::put_text;
use rs_feed_join::FeedJoin;
use rs_outside::{Files, Sink};
use rs_table_feed::TableFeed;
use rs_value::Text;
use std::alloc::Global;

/// Does what `cert LEFT RIGHT K` says: it joins two files that are ranked feeds as `feed` does, and puts, in one put,
/// the certificate of the first `k` pairs, or of all, and of the rows that were drawn for them, with an end where one
/// draw was behind the last row. It puts nothing before the join is done. `k` is at most 1,000,000, since the
/// certificate says it and is to be read back.
///
/// # Errors
///
/// - `Read`: with `Missing` or `TooLong` exactly where the run comes to the fetch of a name that isn't there, or of a
///   file of more than 33,554,432 bytes; with `Failed` only where a fetch failed.
/// - `Table`: exactly where the run comes to a file that is no table with the columns `key TEXT, score INT`.
/// - `Range`: exactly where it comes to such a table with a number outside 0 to 4,294,967,295.
/// - `Order`: exactly where the run comes to the draw of a row whose score is greater than that of the row before it.
///   Nothing is out.
/// - `CertTooLong`: exactly where the run comes to the end of the join, and more than 8,192 rows of a side were drawn;
///   the left side is told first.
/// - `Write`: only where the put failed.
/// - `CertForm`: never.
/// - `Memory`: at any call.
pub fn cert_word<F: Files, O: Sink>(
    alloc: Global,
    left: &Text,
    right: &Text,
    k: u32,
    files: &mut F,
    out: &mut O,
) -> Result<(), WordFault>
    requires { k ≤ most_wanted }
    ensures { (beside : Environment) → Runs (feed_faults left.now right.now)
        (IsCertRun (finds_in (F.state files.old).contents) (record { left = left.now; right = right.now; count = k })) result
        (record beside { files = F.state files.old; out = O.state out.old }) (record beside { files = F.state files.new; out = O.state out.new }) }
{
    let mut left = read_feed(alloc, 1, left, files)?;
    let mut right = read_feed(alloc, 2, right, files)?;
    put_cert(alloc, k, &mut left, &mut right, out)
}

/// Puts, in one put, the certificate of the first `count` pairs of two feeds of tables, or of all, and of the rows that
/// were drawn for them. It draws no row that doesn't stand in the certificate, and no more than the pairs take, also
/// where the put failed or a side is too long. Where a row was refused it drew all up to that row, and where a call had
/// no memory, what the first pairs take and a front of what the next one takes.
///
/// # Errors
///
/// - `Order`: exactly where the join comes to the draw of a row whose score is greater than that of the row before it.
///   Nothing is out.
/// - `CertTooLong`: exactly where the join comes to its end, and more than 8,192 rows of a side were drawn; the left
///   side is told first.
/// - `Write`: only where the put failed.
/// - `Read`, `Table`, `Range`, `CertForm`: never.
/// - `Memory`: at any call.
pub fn put_cert<O: Sink>(
    alloc: Global,
    count: u32,
    left: &mut TableFeed,
    right: &mut TableFeed,
    out: &mut O,
) -> Result<(), WordFault>
    requires left { IsUndrawn left.old }
    requires right { IsUndrawn right.old }
    requires wanted { count ≤ most_wanted }
    ensures puts { (beside : Environment) → Ran put_faults (joined_cert_run left.old.rows right.old.rows count) result
        (record beside { out = O.state out.old }) (record beside { out = O.state out.new }) }
    ensures draws { DrawsAsCertified left.old.rows right.old.rows count result left.new right.new }
{
    let bytes = cert_bytes(alloc, count, left, right)?;
    put_text(&bytes, out)
}

/// Its bytes.
fn cert_bytes(
    alloc: Global,
    count: u32,
    left: &mut TableFeed,
    right: &mut TableFeed,
) -> Result<Vec<u8>, WordFault>
    requires left { IsUndrawn left.old }
    requires right { IsUndrawn right.old }
    requires wanted { count ≤ most_wanted }
    ensures bytes { MatchResult result (λ bytes. joined_bytes left.old.rows right.old.rows count ≡ Ok bytes.items)
        (λ fault. (fault ≡ WordFault.Memory) ⊎ (joined_bytes left.old.rows right.old.rows count ≡ Err fault)) }
    ensures draws { DrawsAsCertified left.old.rows right.old.rows count result left.new right.new }
{
    let cert = cert_of_tables(alloc, count, left, right)?;
    few_bytes(alloc, &cert)
}

/// The certificate of two feeds of tables.
fn cert_of_tables(
    alloc: Global,
    count: u32,
    left: &mut TableFeed,
    right: &mut TableFeed,
) -> Result<Cert, WordFault>
    requires left { IsUndrawn left.old }
    requires right { IsUndrawn right.old }
    ensures cert { MatchResult result (λ cert. certified left.old.rows right.old.rows count ≡ Ok cert)
        (λ fault. (fault ≡ WordFault.Memory) ⊎ (certified left.old.rows right.old.rows count ≡ Err fault)) }
    ensures wanted { IfOk result (λ cert. cert.k ≡ count) }
    ensures draws { DrawsAsCertified left.old.rows right.old.rows count result left.new right.new }
{
    let mut join = FeedJoin::new(alloc);
    match certify(alloc, &mut join, count, left, right) {
        Ok(cert) => Ok(cert),
        Err(why) => Err(join_fault(why)),
    }
}

/// The bytes of a certificate none of whose sides is too long.
fn few_bytes(alloc: Global, cert: &Cert) -> Result<Vec<u8>, WordFault>
    requires wanted { cert.now.k ≤ most_wanted }
    ensures bytes { MatchResult result (λ bytes. bytes_of cert.now ≡ Ok bytes.items)
        (λ fault. (fault ≡ WordFault.Memory) ⊎ (bytes_of cert.now ≡ Err fault)) }
    ensures fault { IfErr result (λ fault. IsOfBytes fault) }
{
    require_few(&cert.left, 1)?;
    require_few(&cert.right, 2)?;
    Ok(rs_cert::write(alloc, cert)?)
}

/// Refuses a side that has more rows than a certificate takes.
fn require_few(side: &CertSide, number: u8) -> Result<(), WordFault>
    ensures { result ≡ few_rows number (length side.now.rows) }
{
    if side.rows.len() > MOST_ROWS {
        return Err(WordFault::CertTooLong { file: number });
    }
    Ok(())
}
