//! What a threshold scan gives, and how it accesses the rank indexes of a query.

ghost use Rattle.std.specs.Prelude.{◌≡◌, OnOk, Some};
ghost use Rattle.rs_expr.specs.Scoring.{Answering};
ghost use Rattle.rs_catalog.specs.IndexesHold.{IndexesHold};
ghost use Rattle.rs_query.specs.WellFormed.{IsBlock, IsQuery};
ghost use Rattle.rs_ta.specs.Eligible.{eligible_indexes};
ghost use Rattle.cases_plans.specs.Scans.{CanBeScanned};

use cases_lines::Fault;
use rs_catalog::Catalog;
use rs_query::{Block, Query};
use rs_ta::{
    BlockTest, IndexLists, ThresholdScan, eligible_blocks_can_be_scanned, eligible_indexes,
    new_scan_stands, threshold_scans_give_the_answer,
};
use std::alloc::Global;

/// Asks for the rows of a query by a threshold scan this many times, or tells that the query isn't eligible.
pub fn tell_scan(
    alloc: Global,
    catalog: &Catalog,
    query: &Query,
    count: u32,
) -> Result<String, Fault>
    requires formed { IsQuery catalog.now query.now }
    requires held { (answer : Answering) × IndexesHold answer catalog.now }
{
    match query {
        Query::One(block, _) => tell_block(alloc, catalog, block, count),
        Query::Set(..) => Ok(String::from_str(alloc, "  not eligible\n")?),
    }
}

/// The same of a block.
fn tell_block(alloc: Global, catalog: &Catalog, block: &Block, count: u32) -> Result<String, Fault>
    requires formed { IsBlock catalog.now block.now }
    requires held { (answer : Answering) × IndexesHold answer catalog.now }
{
    match eligible_indexes(alloc, catalog, block)? {
        Some(indexes) => tell_eligible(alloc, catalog, block, indexes, count),
        None => Ok(String::from_str(alloc, "  not eligible\n")?),
    }
}

/// Asks for the rows of an eligible block this many times.
fn tell_eligible(
    alloc: Global,
    catalog: &Catalog,
    block: &Block,
    indexes: Vec<u8>,
    count: u32,
) -> Result<String, Fault>
    requires formed { IsBlock catalog.now block.now }
    requires eligible { eligible_indexes catalog.now block.now ≡ Some indexes.items }
    requires held { (answer : Answering) × IndexesHold answer catalog.now }
{
    eligible_blocks_can_be_scanned();
    threshold_scans_give_the_answer();
    new_scan_stands();
    let test = BlockTest::new(catalog, block);
    let mut lists = IndexLists::new(catalog, indexes);
    let mut scan = ThresholdScan::new(alloc, block.weights(), 1, 1);
    let told = tell_asks(alloc, &mut scan, &test, &mut lists, count);
    drop(scan);
    drop(lists);
    told
}

/// Tells what each of this many asks gave.
fn tell_asks(
    alloc: Global,
    scan: &mut ThresholdScan,
    test: &BlockTest<'_>,
    lists: &mut IndexLists<'_>,
    count: u32,
) -> Result<String, Fault>
    requires { CanBeScanned scan.old lists.old test.now }
{
    let mut told = String::new(alloc);
    for _ in 0..count {
        tell_ask(scan, test, lists, &mut told)?;
    }
    Ok(told)
}

/// Tells what an ask gave: the number of a row and its sum, or `none`; and behind it how deep the scan is, and the sums of sorted and of
/// random accesses.
fn tell_ask(
    scan: &mut ThresholdScan,
    test: &BlockTest<'_>,
    lists: &mut IndexLists<'_>,
    told: &mut String,
) -> Result<(), Fault>
    requires { CanBeScanned scan.old lists.old test.now }
    ensures { OnOk result (CanBeScanned scan.new lists.new test.now) }
{
    match scan.next(test, lists)? {
        Some(row) => {
            let number = row.ids.rows[0];
            let sum = row.sum;
            write!(told, "  {number} {sum}")?;
        }
        None => told.push_str("  none")?,
    }
    let depth = scan.depth();
    let (sorted, random) = lists.counts();
    Ok(writeln!(told, ", depth {depth} sorted {sorted} random {random}")?)
}
