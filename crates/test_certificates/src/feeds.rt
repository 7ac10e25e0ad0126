//! A feed in memory, by what it gives and counts.

use rs_feed::{Feed, FeedFault, MemFeed};
use rs_value::Text;
use std::alloc::Global;
use std::process::Abort;
use std::test::Fail;

fn feed_of(alloc: Global, rows: &[(&str, u32)]) -> Result<MemFeed, Fail> {
    let mut feed = MemFeed::new(alloc);
    for (join, score) in rows {
        let join = Text::from_bytes(alloc, join.as_bytes())?;
        feed.add(join, *score)?;
    }
    Ok(feed)
}

fn assert_draw<F: Feed>(rt: &impl Abort, feed: &mut F, wanted: Result<Option<u32>, FeedFault>) {
    match feed.draw() {
        Ok(Some(row)) => assert_eq!(rt; Ok(Some(row.score)), wanted),
        Ok(None) => assert_eq!(rt; Ok(None), wanted),
        Err(fault) => assert_eq!(rt; Err(fault), wanted),
    }
}

// The third draw fails, and no row is lost by it.
#[test]
fn gives_its_rows_in_order(rt: HostRuntime) -> Result<(), Fail> {
    let mut feed = feed_of(rt.alloc(), &[("a", 9), ("b", 8), ("a", 7)])?;
    feed.fail_at(3)?;
    assert_draw(&rt, &mut feed, Ok(Some(9)));
    assert_draw(&rt, &mut feed, Ok(Some(8)));
    assert_draw(&rt, &mut feed, Err(FeedFault::Failed));
    assert_draw(&rt, &mut feed, Ok(Some(7)));
    assert_draw(&rt, &mut feed, Ok(None));
    assert_eq!(rt; feed.draws(), 5);
    Ok(())
}
