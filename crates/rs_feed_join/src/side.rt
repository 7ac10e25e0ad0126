ghost use Rattle.std.specs.Prelude.{◌≡◌, ◌<◌, ◌^◌, [], ◌∷◌, ◌++◌, false, is_err, length, Err, IfErr, None, OnErr, OnOk};
ghost use Rattle.rs_feed_join.specs.Cuts.{refusal};
ghost use Rattle.rs_feed_join.specs.Sides.{AreTaken, Drew, IsCause, IsDrawnOf, new_side, side_of};
ghost use Rattle.rs_value.specs.Outside.{Counts};

use crate::fault::JoinFault;
use rs_feed::{Feed, FeedFault, FeedRow};
use std::alloc::Global;

/// The most rows that a join takes of a feed.
pub(crate) const MOST_ROWS: usize = 131_072;

/// What a join keeps of a side: the rows that it took, whether a draw said that there are no more, and how many draws it made.
#[derive(Drop)]
pub(crate) struct DrawnSide {
    pub(crate) rows: Vec<FeedRow>,
    pub(crate) ended: bool,
    pub(crate) draws: u64,
}

impl DrawnSide {
    /// A side of which nothing is drawn. It takes no memory.
    pub(crate) fn new(alloc: Global) -> DrawnSide
        ensures { side_of result ≡ new_side }
    {
        DrawnSide {
            rows: Vec::new(alloc),
            ended: false,
            draws: 0,
        }
    }

    /// Draws the next row, which is taken unless it is one too many or its score rises. Answers whether there was one.
    pub(crate) fn draw<F: Feed>(&mut self, side: u8, feed: &mut F) -> Result<bool, JoinFault>
        requires going { self.old.ended ≡ false }
        requires rows { AreTaken self.old.rows.items }
        requires drawn { IsDrawnOf false (F.state feed.old) (side_of self.old) }
        ensures step { Drew side (F.state feed.old).outside.told (side_of self.old) result (side_of self.new) }
        ensures drawn { IsDrawnOf (is_err result) (F.state feed.new) (side_of self.new) }
        ensures told { (F.state feed.new).outside.told ≡ (F.state feed.old).outside.told }
        ensures counts { Counts (result ≡ Err (JoinFault.Failed side)) (F.state feed.old).outside (F.state feed.new).outside }
    {
        self.draws = self.draws.saturating_add(1);
        match feed.draw() {
            Ok(Some(row)) => {
                self.take(side, row)?;
                Ok(true)
            }
            Ok(None) => {
                self.ended = true;
                Ok(false)
            }
            Err(FeedFault::Failed) => Err(JoinFault::Failed { side }),
            Err(FeedFault::Memory) => Err(JoinFault::Memory),
        }
    }

    /// Takes a row, unless it is refused.
    fn take(&mut self, side: u8, row: FeedRow) -> Result<(), JoinFault>
        requires { AreTaken self.old.rows.items }
        ensures ok { OnOk result (refusal side self.old.rows.items row.score ≡ None) }
        ensures rows { OnOk result (side_of self.new ≡ record (side_of self.old) { rows = self.old.rows.items ++ row ∷ [] }) }
        ensures err { OnErr result (side_of self.new ≡ side_of self.old) }
        ensures cause { IfErr result (λ fault. IsCause side self.old.rows.items row.score fault) }
        ensures score { row.score < 2 ^ 32 }
    {
        if let Some(fault) = self.refusal(side, row.score) {
            return Err(fault);
        }
        if self.rows.push(row).is_err() {
            return Err(JoinFault::Memory);
        }
        Ok(())
    }

    /// Why a row with this score isn't taken next, if it isn't.
    fn refusal(&self, side: u8, score: u32) -> Option<JoinFault>
        requires { AreTaken self.now.rows.items }
        ensures value { result ≡ refusal side self.now.rows.items score }
        ensures score { score < 2 ^ 32 }
    {
        if self.rows.len() == MOST_ROWS {
            return Some(JoinFault::TooLong { side });
        }
        let Some(last) = self.rows.last() else {
            return None;
        };
        if last.score >= score {
            return None;
        }
        Some(JoinFault::OutOfOrder {
            side,
            row: self.rows.len() as u32 + 1,
            before: last.score,
            got: score,
        })
    }
}
