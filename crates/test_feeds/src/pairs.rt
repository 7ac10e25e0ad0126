//! Pairs of feeds that are put as they come, worked by hand: what is out and what was drawn, also where a draw or a put fails.

use crate::joins::{LEFT, RIGHT, feed_of};
use rs_feed_join::{FeedJoin, JoinFault};
use rs_outside::MemSink;
use rs_words::{PairsFault, PutFault, certify, put_pairs};
use std::process::Abort;
use std::test::Fail;

const FIRST: &[u8] = b"1,17,b,8,9\n";

const FIRST_TWO: &[u8] = b"1,17,b,8,9\n2,15,a,9,6\n";

// For the third pair the right feed is asked for its third and its fourth row, and then the left one for its fifth.
#[test]
fn puts_the_pairs_in_front_of_a_failed_draw(rt: HostRuntime) -> Result<(), Fail> {
    let mut left = feed_of(rt.alloc(), LEFT)?;
    let mut right = feed_of(rt.alloc(), RIGHT)?;
    right.fail_at(4)?;
    let mut join = FeedJoin::new(rt.alloc());
    let mut out = MemSink::new(rt.alloc());
    let done = put_pairs(rt.alloc(), &mut join, 7, &mut left, &mut right, &mut out);
    assert_eq!(rt; done, Err(PairsFault::Join(JoinFault::Failed { side: 2 })));
    assert_eq!(rt; out.bytes(), FIRST_TWO);
    assert_eq!(rt; (left.draws(), right.draws()), (4, 4));
    assert_eq!(rt; (join.drawn(1), join.drawn(2)), (4, 3));
    Ok(())
}

// The second pair takes two more rows of the left feed, and none is drawn for a third pair.
#[test]
fn draws_nothing_behind_a_failed_put(rt: HostRuntime) -> Result<(), Fail> {
    let mut left = feed_of(rt.alloc(), LEFT)?;
    let mut right = feed_of(rt.alloc(), RIGHT)?;
    let mut join = FeedJoin::new(rt.alloc());
    let mut out = MemSink::new(rt.alloc());
    out.fail_at(2, 0)?;
    let done = put_pairs(rt.alloc(), &mut join, 7, &mut left, &mut right, &mut out);
    assert_eq!(rt; done, Err(PairsFault::Put(PutFault::Write)));
    assert_eq!(rt; out.bytes(), FIRST);
    assert_eq!(rt; (left.draws(), right.draws()), (4, 2));
    Ok(())
}

// The certificate of two pairs shows the six rows that they take.
#[test]
fn certifies_what_it_drew(rt: HostRuntime) -> Result<(), Fail> {
    let mut left = feed_of(rt.alloc(), LEFT)?;
    let mut right = feed_of(rt.alloc(), RIGHT)?;
    let mut join = FeedJoin::new(rt.alloc());
    match certify(rt.alloc(), &mut join, 2, &mut left, &mut right) {
        Ok(cert) => {
            assert_eq!(rt; cert.pairs.items().as_slice(), [(2, 1), (1, 2)].as_slice());
            assert_eq!(rt; (cert.left.rows.len(), cert.left.ended), (4, false));
            assert_eq!(rt; (cert.right.rows.len(), cert.right.ended), (2, false));
        }
        Err(_) => assert!(rt; false),
    }
    assert_eq!(rt; (left.draws(), right.draws()), (4, 2));
    Ok(())
}
