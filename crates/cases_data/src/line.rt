//! What the lines ask for.

use crate::bound::{
    Asked, tell_bound, tell_failing, tell_fresh, tell_joined, tell_kept, tell_query,
};
use crate::catalogue::{
    add_predicate, add_table, tell_index, tell_predicate, tell_room, tell_table, write_score,
};
use crate::indexes::{tell_index_for, tell_made};
use crate::keys::{tell_keys, tell_place};
use crate::load::tell_work;
use crate::queues::{tell_held, tell_key_queue, tell_numbers, tell_queue, tell_steps};
use crate::ranks::{
    tell_answers, tell_asks, tell_has, tell_join_asks, tell_mask, tell_masks, tell_rest,
    tell_sorted,
};
use crate::scans::{tell_index_scan, tell_table_scan};
use cases_lines::{Cases, Fault, cut_word, number_of};
use rs_catalog::Catalog;
use rs_expr::MemScorer;
use std::alloc::Global;
use std::hash::RandomState;

/// The catalogue that the lines fill, and what answers the calls for its indexes. Beside them, what statements have made,
/// and the keys by which texts of tables are hashed.
#[derive(Drop)]
pub struct Data {
    catalog: Catalog,
    scorer: MemScorer,
    made: Catalog,
    hash_keys: RandomState,
}

impl Data {
    pub fn new(alloc: Global, hash_keys: RandomState) -> Data {
        Data {
            catalog: Catalog::new(alloc),
            scorer: MemScorer::new(alloc),
            made: Catalog::new(alloc),
            hash_keys,
        }
    }

    /// Does what a line says that has no answer, and tells whether it is such a line.
    fn prepare(&mut self, alloc: Global, word: &[u8], rest: &[u8]) -> Result<bool, Fault> {
        match word {
            b"new" => self.forget(alloc),
            b"table" => add_table(alloc, self.hash_keys, &mut self.catalog, rest)?,
            b"predicate" => add_predicate(alloc, &mut self.catalog, rest)?,
            b"score" => write_score(alloc, &mut self.scorer, rest)?,
            b"fail" => self.scorer.fail_at(number_of(rest)?)?,
            _ => return Ok(false),
        }
        Ok(true)
    }

    fn forget(&mut self, alloc: Global) {
        self.catalog = Catalog::new(alloc);
        self.forget_scores(alloc);
    }

    fn forget_scores(&mut self, alloc: Global) {
        self.scorer = MemScorer::new(alloc);
    }

    /// Makes an index, and forgets what was written for it.
    fn tell_made(&mut self, alloc: Global, rest: &[u8], told: &mut String) -> Result<(), Fault> {
        let answer = tell_made(alloc, &mut self.catalog, &mut self.scorer, rest, told);
        self.forget_scores(alloc);
        answer
    }

    /// What is asked of the catalogue, or of none.
    fn tell(
        &mut self,
        alloc: Global,
        word: &[u8],
        rest: &[u8],
        told: &mut String,
    ) -> Result<(), Fault> {
        match word {
            b"index" => self.tell_made(alloc, rest, told),
            b"find-table" => tell_table(alloc, &self.catalog, rest, told),
            b"find-predicate" => tell_predicate(alloc, &self.catalog, rest, told),
            b"find-index" => tell_index(alloc, &self.catalog, rest, told),
            b"room" => tell_room(alloc, &self.catalog, rest, told),
            _ => self.tell_scanned(alloc, word, rest, told),
        }
    }

    /// What is asked of indexes for terms and of scans, or of none of the catalogue.
    fn tell_scanned(
        &self,
        alloc: Global,
        word: &[u8],
        rest: &[u8],
        told: &mut String,
    ) -> Result<(), Fault> {
        match word {
            b"index-for" => tell_index_for(alloc, &self.catalog, rest, told),
            b"scan-table" => tell_table_scan(alloc, &self.catalog, rest, told),
            b"scan-index" => tell_index_scan(alloc, &self.catalog, rest, told),
            _ => tell_ranks(alloc, word, rest, told),
        }
    }

    /// Does what a line says, and tells its answer, if it has one.
    fn tell_line(
        &mut self,
        alloc: Global,
        word: &[u8],
        rest: &[u8],
        told: &mut String,
    ) -> Result<(), Fault> {
        if self.prepare(alloc, word, rest)? {
            return Ok(());
        }
        told.push_str("  ")?;
        self.tell(alloc, word, rest, told)?;
        Ok(told.push_str("\n")?)
    }

    fn line_told(&mut self, alloc: Global, word: &[u8], rest: &[u8]) -> Result<String, Fault> {
        let mut told = String::new(alloc);
        self.tell_line(alloc, word, rest, &mut told)?;
        Ok(told)
    }
}

impl Cases for Data {
    fn answer(&mut self, alloc: Global, line: &[u8]) -> Result<String, Fault> {
        let (word, rest) = cut_word(line);
        match word {
            b"bind" => tell_bound(alloc, &self.made, rest),
            b"make" => tell_joined(alloc, self.hash_keys, &mut self.made, rest),
            b"rows" => tell_query(alloc, &self.made, Asked::Rows(0), rest),
            b"fresh" => tell_fresh(alloc, &self.made, rest),
            b"plain" => tell_query(alloc, &self.made, Asked::Answers(0), rest),
            b"failing" => tell_failing(alloc, &self.made, rest),
            b"view" => tell_kept(alloc, &mut self.made, rest),
            _ => self.line_told(alloc, word, rest),
        }
    }
}

/// What is asked of scores, masks and weights, or of others.
fn tell_ranks(alloc: Global, word: &[u8], rest: &[u8], told: &mut String) -> Result<(), Fault> {
    match word {
        b"sort" => tell_sorted(alloc, rest, told),
        b"answers" => tell_answers(alloc, rest, told),
        b"mask" => tell_mask(rest, told),
        b"has" => tell_has(rest, told),
        b"masks" => tell_masks(rest, told),
        b"rest" => tell_rest(rest, told),
        _ => tell_order(alloc, word, rest, told),
    }
}

/// What is asked of keys and of the answers of cores, or of queues.
fn tell_order(alloc: Global, word: &[u8], rest: &[u8], told: &mut String) -> Result<(), Fault> {
    match word {
        b"keys" => tell_keys(alloc, rest, told),
        b"find" => tell_place(alloc, rest, told),
        b"asks" => tell_asks(told),
        b"join-asks" => tell_join_asks(told),
        _ => tell_queues(alloc, word, rest, told),
    }
}

fn tell_queues(alloc: Global, word: &[u8], rest: &[u8], told: &mut String) -> Result<(), Fault> {
    match word {
        b"queue" => tell_queue(alloc, rest, told),
        b"key-queue" => tell_key_queue(alloc, rest, told),
        b"key-held" => tell_held(alloc, rest, told),
        b"steps" => tell_steps(alloc, rest, told),
        b"numbers" => tell_numbers(alloc, rest, told),
        b"work" => tell_work(alloc, rest, told),
        _ => Err(Fault::Form),
    }
}
