//! What a queue does where memory ends.

use rs_queue::Queue;
use std::process::Abort;

/// Pushes the pairs of the keys from 40 down to 1, up to one for which memory ends, and gives the least key that is held.
fn push_all(rt: &impl Abort, queue: &mut Queue<u32, u32>) -> u32 {
    let mut least = 41u32;
    for key in (1..41u32).rev() {
        if queue.has_key(&key) {
            continue;
        }
        if let Err(pair) = queue.push(key, key * 2) {
            assert_eq!(rt; pair, (key, key * 2));
            break;
        }
        least = key;
    }
    least
}

/// Asserts that the pairs of the keys from this one up to 40 are held, and no others.
fn assert_held(rt: &impl Abort, queue: &mut Queue<u32, u32>, least: u32) {
    for key in least..41 {
        assert_eq!(rt; queue.pop(), Some((key, key * 2)));
    }
    assert!(rt; queue.is_empty());
}

/// Made for a process in which one allocation fails: the pair that isn't taken in comes back, and the others stay.
#[test]
fn hands_the_pair_back_where_memory_ends(rt: HostRuntime) {
    let mut queue = Queue::new(rt.alloc());
    let least = push_all(&rt, &mut queue);
    assert_held(&rt, &mut queue, least);
}
