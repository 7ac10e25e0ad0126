ghost use Rattle.std.specs.Prelude.{◌≡◌, ◌<◌, ◌≤◌, ◌^◌, ◌-◌, length, map, IfOk, MatchResult, Ok, Err};
ghost use Rattle.std.specs.List.{AllByRecursion};
ghost use Rattle.rs_value.specs.Faults.{raised};
ghost use Rattle.rs_value.specs.Outside.{Counts};
ghost use Rattle.rs_expr.specs.Scores.{is_score};
ghost use Rattle.rs_table.specs.Relation.{most_rows};
ghost use Rattle.rs_feed.specs.Feeds.{GivesNext, given_after};
ghost use Rattle.rs_table_feed.specs.TableFeeds.{HasFeedColumns, feed_row_at, feed_rows, first_outside, most_score, new_feed, score_of, table_feed_state};

use crate::range_fault::RangeFault;
use rs_expr::score_within;
use rs_feed::{Feed, FeedFault, FeedRow};
use rs_table::{Cell, Table};
use rs_value::Memory;
use std::marker::Model;

/// The place of the texts by which rows are joined.
const JOIN: u8 = 0;

/// The place of the scores.
const SCORE: u8 = 1;

/// The greatest score of a row.
const MOST_SCORE: u32 = 4_294_967_295;

/// A feed that gives the rows of a table in their order. It never fails, and keeps nothing beside the table but two numbers.
#[derive(Drop)]
pub struct TableFeed {
    table: Table,
    draws: u64,
    given: u32,
}

impl Model for TableFeed {
    ghost use Rattle.std.specs.Prelude.{◌≡◌, ◌≤◌, length, map, None};
    ghost use Rattle.rs_table.specs.Relation.{most_rows};
    ghost use Rattle.rs_table_feed.specs.TableFeeds.{HasFeedColumns, TableFeedState, feed_row, first_outside};

    ghost Value = { TableFeedState };

    ghost view = { λ f. record { rows = map feed_row f.table.rows; draws = f.draws; given = f.given } };

    ghost invariant = { λ f. HasFeedColumns f.table.schema × (first_outside 1 f.table.rows ≡ None) × (f.given ≤ length f.table.rows)
        × (length f.table.rows ≤ most_rows) };
}

impl TableFeed {
    /// The feed of a table whose columns are a TEXT and an INT, of which nothing is drawn: its rows in their order,
    /// each with the text by which it is joined and the number as its score. It takes no memory.
    ///
    /// # Errors
    ///
    /// - `RangeFault`: exactly where a number lies outside 0 to 4,294,967,295, with the first such row.
    pub fn new(table: Table) -> Result<TableFeed, RangeFault>
        requires { HasFeedColumns table.schema }
        ensures value { MatchResult result (λ feed. feed_rows table ≡ Ok feed.rows) (λ fault. feed_rows table ≡ Err fault) }
        ensures unused { IfOk result (λ feed. feed ≡ new_feed feed.rows) }
        ensures scores { IfOk result (λ feed. AllByRecursion (λ row. row.score < 2 ^ 32) feed.rows) }
        ensures few { IfOk result (λ feed. length feed.rows ≤ most_rows) }
    {
        match outside(&table) {
            Some(fault) => Err(fault),
            None => {
                let _rows = table.len();
                Ok(TableFeed {
                    table,
                    draws: 0,
                    given: 0,
                })
            }
        }
    }

    /// How many draws were made.
    pub fn draws(&self) -> u64
        ensures { result ≡ self.now.draws }
    {
        self.draws
    }

    /// The row that is given next. There is to be one.
    fn next_row(&self) -> Result<FeedRow, Memory>
        requires { self.now.given < length self.now.rows }
        ensures { IfOk result (λ row. row ≡ feed_row_at self.now.rows self.now.given) }
    {
        let row = self.given + 1;
        let join = self.table.text(row, JOIN).copy()?;
        match score_within(number(&self.table, row) as i128, MOST_SCORE) {
            Some(score) => Ok(FeedRow { join, score }),
            None => unreachable!(),
        }
    }
}

impl Feed for TableFeed {
    ghost state = { table_feed_state };

    fn draw(&mut self) -> Result<Option<FeedRow>, FeedFault>
        ensures row { GivesNext (table_feed_state self.old).outside.told (table_feed_state self.old).given result }
        ensures told { (table_feed_state self.new).outside.told ≡ (table_feed_state self.old).outside.told }
        ensures draws { (table_feed_state self.new).draws ≡ raised (table_feed_state self.old).draws }
        ensures given { (table_feed_state self.new).given ≡ given_after result (table_feed_state self.old).given }
        ensures counts { Counts (result ≡ Err FeedFault.Failed) (table_feed_state self.old).outside (table_feed_state self.new).outside }
    {
        self.draws = self.draws.saturating_add(1);
        if self.given == self.table.len() {
            return Ok(None);
        }
        let Ok(row) = self.next_row() else {
            return Err(FeedFault::Memory);
        };
        self.given += 1;
        Ok(Some(row))
    }
}

/// The first row whose number is no score.
fn outside(table: &Table) -> Option<RangeFault>
    requires { HasFeedColumns table.now.schema }
    ensures { result ≡ first_outside 1 table.now.rows }
{
    for index in 0..table.len() {
        let row = index + 1;
        let got = number(table, row);
        if !is_score(got) {
            return Some(RangeFault { row, got });
        }
    }
    None
}

/// Whether a number is the score of a row.
fn is_score(number: i64) -> bool
    ensures { result ≡ is_score most_score number }
{
    score_within(number as i128, MOST_SCORE).is_some()
}

/// The number of a row, counted from 1.
fn number(table: &Table, row: u32) -> i64
    requires columns { HasFeedColumns table.now.schema }
    requires some_row { 1 ≤ row }
    requires within { row ≤ length table.now.rows }
    ensures { result ≡ score_of table.now.rows (row - 1) }
{
    match table.cell(row, SCORE) {
        Cell::Number(number) => number,
        Cell::Text(_) => unreachable!(),
    }
}
