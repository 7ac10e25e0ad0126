//! What is asked of scores, masks and weights.

use crate::keys::{ids_with, is_space, parts_of};
use cases_lines::{Fault, cut_word, number_of, numbers_of, small_number_of, value_of};
use rs_rank::{
    Answer, Ask, Ids, JoinAsk, Scored, Weights, are_disjoint, has_number, mask_of, sort_stably,
    stable_is_permutation, stable_is_sorted, stable_is_sorted_by_key, stable_is_sorted_by_score,
    stable_is_unique, stable_keeps_equals, union,
};
use rs_value::{List, Memory, Value};
use std::alloc::{AllocError, Global};

/// A score and the place of its row, from 1.
#[derive(Clone, Copy, Debug)]
struct Row {
    score: u64,
    row: u64,
}

impl Scored for Row {
    ghost score_of = { λ row. row.score };

    fn score(&self) -> u64 {
        self.score
    }
}

pub fn laws_hold_of_rows() {
    stable_is_permutation::<Row>();
    stable_is_sorted::<Row>();
    stable_keeps_equals::<Row>();
    stable_is_unique::<Row>();
    stable_is_sorted_by_score::<Row>();
    stable_is_sorted_by_key();
}

/// Tells the places of rows of these scores in the stable order.
pub fn tell_sorted(alloc: Global, words: &[u8], told: &mut String) -> Result<(), Fault> {
    let rows = rows_of(alloc, words)?;
    let rows = sorted(alloc, &rows)?;
    Ok(tell_places(&rows, told)?)
}

fn tell_places(rows: &[Row], told: &mut String) -> Result<(), AllocError> {
    told.push_str("places")?;
    for row in rows {
        let place = row.row;
        write!(told, " {place}")?;
    }
    Ok(())
}

/// The rows in the stable order.
fn sorted<T: Scored + Copy>(alloc: Global, rows: &[T]) -> Result<Vec<T>, Memory> {
    let mut copies = Vec::from_slice(alloc, rows)?;
    sort_stably(&mut copies)?;
    Ok(copies)
}

/// Rows of these scores, which have the places 1, 2 and so on.
fn rows_of(alloc: Global, words: &[u8]) -> Result<Vec<Row>, Fault> {
    let scores = numbers_of(alloc, words)?;
    let mut rows = Vec::new(alloc);
    for (score, row) in scores.iter().zip(1..) {
        rows.push(Row { score: *score, row })?;
    }
    Ok(rows)
}

/// Tells the answers in the stable order.
pub fn tell_answers(alloc: Global, words: &[u8], told: &mut String) -> Result<(), Fault> {
    let mut answers = Vec::new(alloc);
    read_answers(alloc, words, &mut answers)?;
    sort_and_tell(&mut answers, told)
}

fn sort_and_tell(answers: &mut Vec<Answer>, told: &mut String) -> Result<(), Fault> {
    sort_stably(answers)?;
    told.push_str("answers")?;
    for answer in answers.as_slice() {
        tell_answer(answer, told)?;
    }
    Ok(())
}

fn tell_answer(answer: &Answer, told: &mut String) -> Result<(), AllocError> {
    let score = answer.score;
    let ids = answer.ids;
    let count = answer.values.len();
    write!(told, "; {score} {ids:?} {count}")
}

fn read_answers(alloc: Global, words: &[u8], into: &mut Vec<Answer>) -> Result<(), Fault> {
    for word in words.split(is_space) {
        into.push(answer_of(alloc, word)?)?;
    }
    Ok(())
}

/// The answer that a word stands for: `SCORE:BLOCK:MASK:ROW.ROW..:VALUE,VALUE..`.
fn answer_of(alloc: Global, word: &[u8]) -> Result<Answer, Fault> {
    let (score, word) = parts_of(word)?;
    let score = number_of(score)?;
    let (ids, values) = ids_and_values_of(word)?;
    let values = values_of(alloc, values)?;
    Ok(Answer {
        ids,
        score,
        values: List::of(values),
    })
}

/// The ids in front of the third `:`, and the word of the values behind it.
fn ids_and_values_of(word: &[u8]) -> Result<(Ids, &[u8]), Fault> {
    let (block, word) = parts_of(word)?;
    let (mask, word) = parts_of(word)?;
    let (rows, values) = parts_of(word)?;
    Ok((ids_with(block, mask, rows)?, values))
}

fn values_of(alloc: Global, word: &[u8]) -> Result<Vec<Value>, Fault> {
    let mut values = Vec::new(alloc);
    if word.is_empty() {
        return Ok(values);
    }
    for value in word.split(|byte| *byte == b',') {
        values.push(value_of(alloc, value)?)?;
    }
    Ok(values)
}

/// Tells the mask of a number.
pub fn tell_mask(word: &[u8], told: &mut String) -> Result<(), Fault> {
    let number = small_number_of(word)?;
    if number < 1 || number > 8 {
        return Err(Fault::Form);
    }
    let mask = mask_of(number);
    Ok(write!(told, "{mask}")?)
}

/// Tells whether a mask has a number.
pub fn tell_has(words: &[u8], told: &mut String) -> Result<(), Fault> {
    let (mask, number) = cut_word(words);
    let mask = small_number_of(mask)?;
    let number = small_number_of(number)?;
    if number < 1 || number > 8 {
        return Err(Fault::Form);
    }
    let has = has_number(mask, number);
    Ok(write!(told, "{has}")?)
}

/// Tells the union of two masks, and whether they have no number in common.
pub fn tell_masks(words: &[u8], told: &mut String) -> Result<(), Fault> {
    let (left, right) = cut_word(words);
    let left = small_number_of(left)?;
    let right = small_number_of(right)?;
    let both = union(left, right);
    let apart = are_disjoint(left, right);
    Ok(write!(told, "{both} {apart}")?)
}

/// Two terms of weights 1 and 2, at most 10 and 100.
const TWO_TERMS: Weights = Weights {
    weight: [1, 2, 0, 0, 0, 0, 0, 0],
    max: [10, 100, 0, 0, 0, 0, 0, 0],
};

/// Eight terms, all at their limits.
const GREATEST: Weights = Weights {
    weight: [1_000_000; 8],
    max: [u32::MAX; 8],
};

/// Tells what the terms outside a mask give at most.
pub fn tell_rest(words: &[u8], told: &mut String) -> Result<(), Fault> {
    let (weights, terms) = cut_word(words);
    let terms = small_number_of(terms)?;
    let rest = match weights {
        b"two" => TWO_TERMS.rest(terms),
        b"greatest" => GREATEST.rest(terms),
        _ => return Err(Fault::Form),
    };
    Ok(write!(told, "{rest}")?)
}

/// Tells which answers of the core of an operator are equal.
pub fn tell_asks(told: &mut String) -> Result<(), Fault> {
    Ok(tell_equal_ones(&[Ask::Need, Ask::Ready, Ask::End], told)?)
}

/// Tells which answers of the core of a join are equal.
pub fn tell_join_asks(told: &mut String) -> Result<(), Fault> {
    let asks = [
        JoinAsk::NeedLeft,
        JoinAsk::NeedRight,
        JoinAsk::Ready,
        JoinAsk::End,
    ];
    Ok(tell_equal_ones(&asks, told)?)
}

/// Tells which of these are equal, each with each.
fn tell_equal_ones<T: PartialEq>(items: &[T], told: &mut String) -> Result<(), AllocError> {
    let mut between = "";
    for item in items {
        told.push_str(between)?;
        tell_equal_to(item, items, told)?;
        between = " ";
    }
    Ok(())
}

fn tell_equal_to<T: PartialEq>(item: &T, items: &[T], told: &mut String) -> Result<(), AllocError> {
    for other in items {
        told.push_str(if item == other { "=" } else { "!" })?;
    }
    Ok(())
}
