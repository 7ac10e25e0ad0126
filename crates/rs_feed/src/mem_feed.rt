ghost use Rattle.std.specs.Prelude.{◌≡◌, [], ◌∷◌, ◌++◌, ◌<◌, length, OnOk, OnErr, Result, Option, slice_get, IfOk};
ghost use Rattle.rs_value.specs.Answer.{Gives};
ghost use Rattle.rs_value.specs.Faults.{raised};
ghost use Rattle.rs_value.specs.Outside.{Counts};
ghost use Rattle.rs_feed.specs.Feeds.{GivesNext, given_after};
ghost use Rattle.rs_feed.specs.MemFeed.{after_draw, draw_answer, feed_state, is_draw_planned, no_rows};

use crate::feed::{Feed, FeedFault};
use crate::feed_row::FeedRow;
use rs_value::{Memory, Text};
use std::alloc::Global;
use std::marker::Model;

/// A feed in memory, for tests of what draws from feeds. It gives its rows in the order of adding, and fails where it is told.
#[derive(Debug, Drop)]
pub struct MemFeed {
    rows: Vec<FeedRow>,
    draws: u64,
    given: usize,
    failing: Vec<u64>,
    faults: u64,
}

impl Model for MemFeed {
    ghost use Rattle.std.specs.Prelude.{◌≤◌, length};
    ghost use Rattle.rs_feed.specs.MemFeed.{MemFeedState};

    ghost Value = { MemFeedState };

    ghost view = { λ m. record {
      rows = m.rows.items;
      draws = m.draws;
      given = m.given;
      failing = m.failing.items;
      faults = m.faults;
    } };

    ghost invariant = { λ m. m.given ≤ length m.rows.items };
}

impl MemFeed {
    /// A feed without a row. It takes no memory.
    pub fn new(alloc: Global) -> MemFeed
        ensures { result ≡ no_rows }
    {
        MemFeed {
            rows: Vec::new(alloc),
            draws: 0,
            given: 0,
            failing: Vec::new(alloc),
            faults: 0,
        }
    }

    /// Adds a row as the last one. Nothing is to be drawn yet.
    ///
    /// # Errors
    ///
    /// - `Memory`: at any call; nothing changes.
    pub fn add(&mut self, join: Text, score: u32) -> Result<(), Memory>
        requires { self.old.draws ≡ 0 }
        ensures ok { OnOk result (self.new ≡ record self.old {
          rows = self.old.rows ++ record { join = join; score = score } ∷ [];
        }) }
        ensures err { OnErr result (self.new ≡ self.old) }
    {
        self.rows.push(FeedRow { join, score })?;
        Ok(())
    }

    /// Plans that the draw of this number, counted from 1, fails. Several may be planned.
    ///
    /// # Errors
    ///
    /// - `Memory`: at any call; nothing changes.
    pub fn fail_at(&mut self, call: u64) -> Result<(), Memory>
        ensures ok { OnOk result (self.new ≡ record self.old { failing = self.old.failing ++ call ∷ [] }) }
        ensures err { OnErr result (self.new ≡ self.old) }
    {
        self.failing.push(call)?;
        Ok(())
    }

    /// How many draws were made.
    pub fn draws(&self) -> u64
        ensures { result ≡ self.now.draws }
    {
        self.draws
    }

    /// Whether the next draw is to fail.
    fn is_next_planned(&self) -> bool
        ensures { result ≡ is_draw_planned self.now }
    {
        self.failing
            .iter()
            .any(|call| *call > self.draws && *call - 1 == self.draws)
    }

    /// The next row, or none at the end.
    fn next_row(&self) -> Result<Option<FeedRow>, Memory>
        ensures { IfOk result (λ row. row ≡ slice_get self.now.rows self.now.given) }
    {
        match self.rows.get(self.given) {
            Some(row) => Ok(Some(row.copy()?)),
            None => Ok(None),
        }
    }
}

impl Feed for MemFeed {
    ghost state = { feed_state };

    fn draw(&mut self) -> Result<Option<FeedRow>, FeedFault>
        ensures row { GivesNext (feed_state self.old).outside.told (feed_state self.old).given result }
        ensures told { (feed_state self.new).outside.told ≡ (feed_state self.old).outside.told }
        ensures draws { (feed_state self.new).draws ≡ raised (feed_state self.old).draws }
        ensures given { (feed_state self.new).given ≡ given_after result (feed_state self.old).given }
        ensures counts { Counts (result ≡ Err FeedFault.Failed) (feed_state self.old).outside (feed_state self.new).outside }

        // The answer, which only want of memory can replace, and what the call leaves.
        ensures answer { Gives FeedFault.Memory (draw_answer self.old) result }
        ensures after { self.new ≡ after_draw result self.old }
    {
        let fails = self.is_next_planned();
        self.draws = self.draws.saturating_add(1);
        if fails {
            self.faults = self.faults.saturating_add(1);
            return Err(FeedFault::Failed);
        }
        let Ok(row) = self.next_row() else {
            return Err(FeedFault::Memory);
        };
        if row.is_some() {
            self.given += 1;
        }
        Ok(row)
    }
}
