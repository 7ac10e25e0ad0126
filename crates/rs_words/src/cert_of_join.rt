ghost use Rattle.std.specs.Prelude.{◌≡◌, ◌≤◌, IfOk, length};
ghost use Rattle.rs_lines.specs.Records.{records_of};
ghost use Rattle.rs_cert.specs.Good.{IsGood};
ghost use Rattle.rs_cert.specs.Records.{AreRecordsOf, most_rows, most_wanted};
ghost use Rattle.rs_cert.specs.Written.{written};
ghost use Rattle.rs_words.specs.Certs.{AreEnough, AreGiven, cert_of, cert_side};
ghost use Rattle.rs_feed_join.specs.Joins.{IsKept, side_in};

use rs_cert::{Cert, CertSide};
use rs_feed::FeedRow;
use rs_feed_join::FeedJoin;
use rs_value::{List, Memory};
use std::alloc::Global;

/// The certificate of these pairs, by the numbers of their rows, with the rows that a join drew and the sides that
/// ended. It copies them. It is good where the join gave these pairs, and they are as many as are wanted or all.
///
/// # Errors
///
/// - `Memory`: at any call.
pub fn cert_of(alloc: Global, join: &FeedJoin, k: u32, pairs: &[(u32, u32)]) -> Result<Cert, Memory>
    ensures cert { IfOk result (λ cert. cert ≡ cert_of join.now k pairs.now) }
    ensures good { AreGiven join.now pairs.now → AreEnough join.now k pairs.now → IsGood (cert_of join.now k pairs.now) }
{
    let left = side_of(alloc, join, 1)?;
    let right = side_of(alloc, join, 2)?;
    let pairs = pairs.to_vec(alloc)?;
    Ok(Cert {
        k,
        left,
        right,
        pairs: List::of(pairs),
    })
}

/// The rows that a join drew of a side, 1 or 2, and whether the side ended.
fn side_of(alloc: Global, join: &FeedJoin, side: u8) -> Result<CertSide, Memory>
    ensures side { IfOk result (λ cert. cert ≡ cert_side (side_in side join.now)) }
    ensures kept { IsKept join.now }
{
    let mut rows = Vec::new(alloc);
    for number in 0..join.drawn(side) {
        let (text, score) = join.row(side, number + 1);
        let text = text.copy()?;
        rows.push(FeedRow { join: text, score })?;
    }
    Ok(CertSide {
        rows: List::of(rows),
        ended: join.ended(side),
    })
}

/// The bytes of the certificate of these pairs. Where they are the pairs that the join gave, as many as are wanted or all, it is good.
///
/// # Errors
///
/// - `Memory`: at any call.
pub fn write(
    alloc: Global,
    join: &FeedJoin,
    k: u32,
    pairs: &[(u32, u32)],
) -> Result<Vec<u8>, Memory>
    requires wanted { k ≤ most_wanted }
    requires left { length join.now.left.rows ≤ most_rows }
    requires right { length join.now.right.rows ≤ most_rows }
    ensures bytes { IfOk result (λ bytes. bytes.items ≡ written (cert_of join.now k pairs.now)) }
    ensures read_back { IfOk result (λ bytes. AreRecordsOf (cert_of join.now k pairs.now) (records_of bytes.items)) }
    ensures good { AreGiven join.now pairs.now → AreEnough join.now k pairs.now → IsGood (cert_of join.now k pairs.now) }
{
    let cert = cert_of(alloc, join, k, pairs)?;
    rs_cert::write(alloc, &cert)
}
