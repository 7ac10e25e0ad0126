//! Answers what the lines of standard input ask of the crates of the data, and binds their statements. Such lines are tests
//! of `rs_rank`, `rs_queue`, `rs_catalog`, `rs_scan` and `rs_bind`, and of `rs_query` and `rs_plain`, whose queries nothing
//! but the binder makes.
//!
//! Each line is printed as it is, and its answer behind it. A line is one of these, its words with one space between:
//! - `sort SCORE..`: the places of rows of these scores in the stable order, counted from 1.
//! - `answers ANSWER..`: the answers in the stable order: of each its score, its ids, and how many values it has.
//! - `mask NUMBER`: the mask of a number. `has MASK NUMBER`: whether a mask has it. `masks A B`: the union of two masks,
//!   and whether they have no number in common.
//! - `rest WEIGHTS TERMS`: what the terms outside a mask give at most. WEIGHTS is `two` for two terms of weights 1 and 2,
//!   at most 10 and 100, or `greatest` for eight terms, all at their limits.
//! - `keys KEY..`: how each key stands to each of them, key by key: `<` comes before it, `>` behind it, `=` is the same,
//!   and `~` is equal and has other ids.
//! - `find KEY KEY..`: the place of the first key among the others in a map, counted from 1, and that of the first one there.
//! - `asks`, `join-asks`: which answers of an operator's core are equal, `=` or `!`, one by one.
//! - `queue NUMBER..`: how many pairs a queue of these keys has, each with its place as its item, counted from 1. Then
//!   for each pair: whether the queue is empty, its first key, whether it has that key, the pair that is taken out, and
//!   whether it has the key then. At last whether the queue is empty, its first key, and what is taken out.
//! - `key-queue KEY..`: the same keys as they come out of a queue: the mask, the first row and the place of each.
//!   `key-held KEY KEY..`: whether a queue of the others has the first key.
//! - `steps STEP..`: what is done to a queue: `NUMBER=TEXT` puts a pair in, and tells the first key; `pop` takes a pair
//!   out, and tells its text. At last whether the queue is empty.
//! - `numbers COUNT`: whether a queue of this many numbers gives each once, as a sort does, and how many these are.
//! - `work HELD OPERATIONS`: puts HELD pairs of scattered keys into a queue, and then OPERATIONS times takes a pair out and
//!   puts one in. How many pairs are held in the end, and a checksum of the keys that were taken out. `bench/queue.sh` takes
//!   the time of such lines.
//! - `new`: the catalogue of the lines behind this one is empty, and no score is written.
//! - `table NAME COLUMNS FILE`: a table of these columns joins it. A column is a name, behind `#` of numbers.
//! - `predicate NAME MAX KIND..`: a predicate joins, whose score is its first argument. A kind is `number` or `text`.
//! - `score SCORE PREDICATE VALUE..`: for the next index this call is answered so. SCORE may be `least` or `greatest`, of 128
//!   bits. Other calls are answered by the first argument. `fail N`: the Nth call for it fails.
//! - `index NAME TABLE PREDICATE ARGUMENT..`: makes a rank index, and tells its entries or its fault, and the calls. An
//!   argument is a value, or a column `@ENTRY.COLUMN`. An entry is a score and a row.
//! - `find-table NAME`, `find-predicate NAME`, `find-index NAME`: the number of the one of this name, and its name and how
//!   many rows it has, or its name, or the numbers of its table and its predicate.
//! - `room LIST NAME`: whether one more of this name can join the `tables`, `predicates` or `indexes`.
//! - `index-for TABLE PREDICATE ENTRY ARGUMENT..`: the number of the first index of a term.
//! - `scan-table NAME ENTRY BLOCK COUNT`: what a scan of all rows of a table gives, drawn this many times, for a FROM entry of a block,
//!   and how many rows it gave. Of a row its block, mask, rows and sum are told. `scan-index NAME WEIGHT ENTRY BLOCK COUNT`:
//!   the same of a rank index, for a term of this weight.
//! - `bind STATEMENT`: the statement is bound. What is bound is told, or the rule that it breaks and where.
//! - `make STATEMENT`: it is bound, and the table or predicate joins a catalogue of its own, which `new` leaves as it is. The
//!   statements and queries of the lines behind it are of this catalogue. The text behind FROM is not the name of a table's
//!   file here, but what is in the file.
//! - `rows QUERY`: the combinations of rows of a query of one block. `fresh N QUERY`: those that have a row behind the first N
//!   of its table.
//! - `plain QUERY`: its answers or the fault that stops it, and the calls of the scorer. An answer is its block, its mask,
//!   its rows, its score and its values. `failing N QUERY`: the same, where the Nth call fails.
//! - `view N STATEMENTS`: the first one is a query, of which a view is made; then each INSERT joins its table, and the view grows.
//!   The rows of the view, or the fault, each time, and then the calls, of which the Nth fails.
//! - a comment that begins with `#`, or nothing.
//!
//! A key is `BOUND:BLOCK:MASK:ROW.ROW..`, and an answer `SCORE:BLOCK:MASK:ROW.ROW..:VALUE,VALUE..`. A value is a number, or
//! a text behind `'`. Words and statements have the escapes of `cases_lines`. Places in a statement count from the first
//! byte of what it stands for.
#![tactic(auto)]

mod bound;
mod catalogue;
mod indexes;
mod keys;
mod laws;
mod line;
mod load;
mod queries;
mod queues;
mod ranks;
mod scans;
mod show;
mod sizes;
mod views;

use cases_lines::{answer_lines, no_memory};
use laws::{laws_hold_of_keys, laws_hold_of_numbers, laws_hold_of_pairs};
use line::Data;
use ranks::laws_hold_of_rows;
use rs_bind::{queries_are_typed_by_rules, statements_are_typed_by_rules};
use rs_typing::expressions_are_typed_by_rules;
use std::hash::RandomState;
use std::process::ExitCode;

fn main(rt: HostRuntime) -> ExitCode {
    laws_hold_of_numbers();
    laws_hold_of_pairs();
    laws_hold_of_rows();
    laws_hold_of_keys();
    expressions_are_typed_by_rules();
    queries_are_typed_by_rules();
    statements_are_typed_by_rules();
    match RandomState::new(&rt) {
        Ok(hash_keys) => answer_lines(&rt, &mut Data::new(rt.alloc(), hash_keys)),
        Err(_) => no_memory(&rt),
    }
}
