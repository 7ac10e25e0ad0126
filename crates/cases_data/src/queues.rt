//! What is asked of queues.

use crate::keys::{is_space, key_of, keys_of};
use cases_lines::{Fault, count_of, cut_at, cut_word, number_of, numbers_of, text_of};
use rs_queue::Queue;
use rs_rank::Key;
use rs_value::{Memory, Text};
use std::alloc::{AllocError, Global};

/// Pushes a pair, unless a pair has its key.
fn put<K: Ord + Drop, V: Drop>(queue: &mut Queue<K, V>, key: K, item: V) -> Result<(), Memory> {
    if queue.has_key(&key) {
        return Ok(());
    }
    match queue.push(key, item) {
        Ok(()) => Ok(()),
        Err(_) => Err(Memory),
    }
}

/// The queue of these keys, each with its place among them, from 1. Of equal keys it has the first.
fn queue_of<K: Ord + Copy + Drop>(alloc: Global, keys: &[K]) -> Result<Queue<K, u64>, Memory> {
    let mut queue = Queue::new(alloc);
    put_all(&mut queue, keys)?;
    Ok(queue)
}

fn put_all<K: Ord + Copy + Drop>(queue: &mut Queue<K, u64>, keys: &[K]) -> Result<(), Memory> {
    for (key, place) in keys.iter().zip(1..) {
        put(queue, *key, place)?;
    }
    Ok(())
}

/// Tells what the queue of these keys has, and what it gives.
pub fn tell_queue(alloc: Global, words: &[u8], told: &mut String) -> Result<(), Fault> {
    let keys = numbers_of(alloc, words)?;
    let mut queue = queue_of(alloc, &keys)?;
    drop(keys);
    Ok(tell_pairs(&mut queue, told)?)
}

fn tell_pairs(queue: &mut Queue<u64, u64>, told: &mut String) -> Result<(), AllocError> {
    let count = queue.len();
    write!(told, "{count}")?;
    for _ in 0..count {
        tell_first(queue, told)?;
    }
    let is_empty = queue.is_empty();
    let first = queue.peek().copied();
    let pair = queue.pop();
    write!(told, "; {is_empty} {first:?} {pair:?}")
}

/// Takes the first pair out, and tells what the queue has before and after.
fn tell_first(queue: &mut Queue<u64, u64>, told: &mut String) -> Result<(), AllocError> {
    let is_empty = queue.is_empty();
    let first = queue.peek().copied();
    let before = is_held(queue, first);
    let pair = queue.pop();
    let after = is_held(queue, first);
    write!(told, "; {is_empty} {first:?} {before} {pair:?} {after}")
}

fn is_held(queue: &Queue<u64, u64>, key: Option<u64>) -> bool {
    match key {
        Some(key) => queue.has_key(&key),
        None => false,
    }
}

/// Tells what the queue of these keys gives.
pub fn tell_key_queue(alloc: Global, words: &[u8], told: &mut String) -> Result<(), Fault> {
    let mut queue = queue_of_keys(alloc, words)?;
    Ok(tell_key_pairs(&mut queue, told)?)
}

fn queue_of_keys(alloc: Global, words: &[u8]) -> Result<Queue<Key, u64>, Fault> {
    let keys = keys_of(alloc, words)?;
    Ok(queue_of(alloc, &keys)?)
}

fn tell_key_pairs(queue: &mut Queue<Key, u64>, told: &mut String) -> Result<(), AllocError> {
    for _ in 0..queue.len() {
        tell_key(queue, told)?;
    }
    let is_empty = queue.is_empty();
    write!(told, "{is_empty}")
}

/// Takes the first pair out, and tells the key that came first and the item.
fn tell_key(queue: &mut Queue<Key, u64>, told: &mut String) -> Result<(), AllocError> {
    let first = queue.peek().copied();
    let pair = queue.pop();
    if let (Some(key), Some((_, place))) = (first, pair) {
        let mask = key.ids.mask;
        let row = key.ids.rows[0];
        write!(told, "{mask} {row} {place}; ")?;
    }
    Ok(())
}

/// Tells whether the queue of the other keys has the first one.
pub fn tell_held(alloc: Global, words: &[u8], told: &mut String) -> Result<(), Fault> {
    let (key, words) = cut_word(words);
    let key = key_of(key)?;
    let queue = queue_of_keys(alloc, words)?;
    let is_held = queue.has_key(&key);
    drop(queue);
    Ok(write!(told, "{is_held}")?)
}

/// Tells what steps do to a queue of texts.
pub fn tell_steps(alloc: Global, words: &[u8], told: &mut String) -> Result<(), Fault> {
    let mut queue = Queue::new(alloc);
    tell_all_steps(alloc, words, &mut queue, told)
}

fn tell_all_steps(
    alloc: Global,
    words: &[u8],
    queue: &mut Queue<u64, Text>,
    told: &mut String,
) -> Result<(), Fault> {
    for word in words.split(is_space) {
        tell_step(alloc, word, queue, told)?;
    }
    let is_empty = queue.is_empty();
    Ok(write!(told, "{is_empty}")?)
}

fn tell_step(
    alloc: Global,
    word: &[u8],
    queue: &mut Queue<u64, Text>,
    told: &mut String,
) -> Result<(), Fault> {
    match cut_at(word, b'=') {
        Some((key, text)) => {
            put_text(alloc, queue, key, text)?;
            let first = queue.peek();
            Ok(write!(told, "{first:?}; ")?)
        }
        None => Ok(tell_text(queue, told)?),
    }
}

fn put_text(
    alloc: Global,
    queue: &mut Queue<u64, Text>,
    key: &[u8],
    text: &[u8],
) -> Result<(), Fault> {
    let key = number_of(key)?;
    let text = text_of(alloc, text)?;
    Ok(put(queue, key, text)?)
}

/// Takes the first pair out, and tells its text.
fn tell_text(queue: &mut Queue<u64, Text>, told: &mut String) -> Result<(), AllocError> {
    match queue.pop() {
        Some((_, text)) => push_step(text.as_str(), told),
        None => push_step("none", told),
    }
}

fn push_step(text: &str, told: &mut String) -> Result<(), AllocError> {
    told.push_str(text)?;
    told.push_str("; ")
}

/// This many numbers below 5,000.
fn numbers(alloc: Global, count: u32) -> Result<Vec<u32>, Memory> {
    let mut numbers = Vec::new(alloc);
    let mut state = 12345u32;
    for _ in 0..count {
        state = state.wrapping_mul(1_664_525).wrapping_add(1_013_904_223);
        numbers.push(state % 5000)?;
    }
    Ok(numbers)
}

/// The same numbers as they rise, each once.
fn rising_numbers(alloc: Global, count: u32) -> Result<Vec<u32>, Memory> {
    let mut numbers = numbers(alloc, count)?;
    numbers.sort()?;
    numbers.dedup();
    Ok(numbers)
}

/// Tells whether the queue of this many numbers gives them as a sort does, and how many it gives.
pub fn tell_numbers(alloc: Global, word: &[u8], told: &mut String) -> Result<(), Fault> {
    let count = count_of(word)?;
    let keys = rising_numbers(alloc, count)?;
    let mut queue = queue_of_numbers(alloc, count)?;
    let are_given = gives_keys(&mut queue, &keys);
    drop(queue);
    let given = keys.len();
    drop(keys);
    Ok(write!(told, "{are_given} {given}")?)
}

fn queue_of_numbers(alloc: Global, count: u32) -> Result<Queue<u32, u64>, Memory> {
    let numbers = numbers(alloc, count)?;
    queue_of(alloc, &numbers)
}

/// Whether the queue gives these keys and no more.
fn gives_keys(queue: &mut Queue<u32, u64>, keys: &[u32]) -> bool {
    for key in keys {
        match queue.pop() {
            Some((first, _)) => {
                if first != *key {
                    return false;
                }
            }
            None => return false,
        }
    }
    queue.is_empty()
}
