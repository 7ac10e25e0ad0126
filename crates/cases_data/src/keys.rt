//! What is asked of keys.

use cases_lines::{Fault, count_of, cut_at, cut_word, number_of, small_number_of};
use rs_rank::{Ids, Key};
use std::alloc::{AllocError, Global};
use std::cmp::Ordering;
use std::collections::BTreeMap;

/// The key that a word stands for: `BOUND:BLOCK:MASK:ROW.ROW..`.
pub fn key_of(word: &[u8]) -> Result<Key, Fault> {
    let (bound, ids) = parts_of(word)?;
    Ok(Key {
        bound: number_of(bound)?,
        ids: ids_of(ids)?,
    })
}

/// The ids that a word stands for: `BLOCK:MASK:ROW.ROW..`.
fn ids_of(word: &[u8]) -> Result<Ids, Fault> {
    let (block, word) = parts_of(word)?;
    let (mask, rows) = parts_of(word)?;
    ids_with(block, mask, rows)
}

/// The ids of this block and this mask, and of the rows that a word stands for.
pub fn ids_with(block: &[u8], mask: &[u8], rows: &[u8]) -> Result<Ids, Fault> {
    Ok(Ids {
        block: small_number_of(block)?,
        mask: small_number_of(mask)?,
        rows: rows_of(rows)?,
    })
}

/// Whether a byte stands between two words.
pub fn is_space(byte: &u8) -> bool {
    *byte == b' '
}

/// What stands in front of a `:`, and what behind it.
pub fn parts_of(word: &[u8]) -> Result<(&[u8], &[u8]), Fault> {
    match cut_at(word, b':') {
        Some(parts) => Ok(parts),
        None => Err(Fault::Form),
    }
}

fn rows_of(word: &[u8]) -> Result<[u32; 6], Fault> {
    let mut rows = [0; 6];
    for (place, row) in word.split(|byte| *byte == b'.').enumerate() {
        if place >= 6 {
            return Err(Fault::Form);
        }
        rows[place] = count_of(row)?;
    }
    Ok(rows)
}

/// The keys that words stand for.
pub fn keys_of(alloc: Global, words: &[u8]) -> Result<Vec<Key>, Fault> {
    let mut keys = Vec::new(alloc);
    for word in words.split(is_space) {
        keys.push(key_of(word)?)?;
    }
    Ok(keys)
}

/// Tells how each key stands to each of them.
pub fn tell_keys(alloc: Global, words: &[u8], told: &mut String) -> Result<(), Fault> {
    let keys = keys_of(alloc, words)?;
    Ok(tell_all_signs(&keys, told)?)
}

fn tell_all_signs(keys: &[Key], told: &mut String) -> Result<(), AllocError> {
    let mut between = "";
    for key in keys {
        told.push_str(between)?;
        tell_signs(key, keys, told)?;
        between = " ";
    }
    Ok(())
}

fn tell_signs(key: &Key, others: &[Key], told: &mut String) -> Result<(), AllocError> {
    for other in others {
        told.push_str(sign_of(key, other))?;
    }
    Ok(())
}

/// How a key stands to another one, or `?` where the three ways to compare them don't agree.
fn sign_of(key: &Key, other: &Key) -> &'static str {
    match (key.cmp(other), key == other) {
        (Ordering::Less, false) => agreed(key, other, Ordering::Less, "<"),
        (Ordering::Greater, false) => agreed(key, other, Ordering::Greater, ">"),
        (Ordering::Equal, true) => {
            let sign = if key.ids == other.ids { "=" } else { "~" };
            agreed(key, other, Ordering::Equal, sign)
        }
        _ => "?",
    }
}

/// The sign, where the partial order agrees with it.
fn agreed(key: &Key, other: &Key, order: Ordering, sign: &'static str) -> &'static str {
    if key.partial_cmp(other) == Some(order) {
        sign
    } else {
        "?"
    }
}

/// Tells the place of a key among those behind it in a map, counted from 1, and that of the first one there.
pub fn tell_place(alloc: Global, words: &[u8], told: &mut String) -> Result<(), Fault> {
    let (key, words) = cut_word(words);
    let key = key_of(key)?;
    let (place, first) = places_in(alloc, &key, words)?;
    Ok(write!(told, "{place:?}, first {first:?}")?)
}

fn places_in(alloc: Global, key: &Key, words: &[u8]) -> Result<(Option<u32>, Option<u32>), Fault> {
    let mut places = BTreeMap::new(alloc);
    put_places(&mut places, words)?;
    let first = places.first_key_value().map(|(_, place)| *place);
    Ok((places.get(key).copied(), first))
}

/// Puts each key into a map, with its place.
fn put_places(places: &mut BTreeMap<Key, u32>, words: &[u8]) -> Result<(), Fault> {
    for (word, place) in words.split(is_space).zip(1..) {
        places.insert(key_of(word)?, place)?;
    }
    Ok(())
}
