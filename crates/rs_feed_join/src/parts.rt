ghost use Rattle.std.specs.Prelude.{◌≡◌, ◌+◌, ◌<◌, [], ◌∷◌, ◌++◌, length, List, IfOk, OnErr, OnOk, is_err, false, slice_get, IsSome, Some, Ok, Err, ◌^◌};
ghost use Rattle.rs_feed.specs.declared.feed_row.FeedRow.{FeedRow};
ghost use Rattle.rs_feed_join.specs.Joins.{given_after, pairs_drawn};
ghost use Rattle.rs_feed_join.specs.Parts.{Advanced, IsStanding, SideDrew, StandsAt, asked_once_more, new_parts, parts_of};
ghost use Rattle.rs_feed_join.specs.Ranked.{feed_weights, left_row, left_side, right_row, right_side, same_texts};
ghost use Rattle.rs_feed_join.specs.Sides.{IsDrawnOf, side_of};
ghost use Rattle.rs_hrjn.specs.Hashed.{HaveTheirValues, MatchTheirValues, hash_left, hash_right, joined_of, new_hashed};
ghost use Rattle.rs_order.specs.Last.{last_of};
ghost use Rattle.rs_order.specs.Schedule.{Left, Right, SideAsk};
ghost use Rattle.rs_rank.specs.declared.ask.JoinAsk.TheVariants.{NeedLeft, NeedRight, Ready};
ghost use Rattle.rs_ripple.specs.Joined.{CanFeedLeft, CanFeedRight, Fits};
ghost use Rattle.rs_ripple.specs.Ripple.{ask_of};
ghost use Rattle.rs_value.specs.Outside.{Counts};
ghost use Rattle.rs_value.specs.declared.value.Value.TheVariants.{Text};

use crate::fault::JoinFault;
use crate::feed_pair::FeedPair;
use crate::side::DrawnSide;
use crate::texts::SameTexts;
use rs_feed::{Feed, FeedRow};
use rs_hrjn::Hrjn;
use rs_rank::{Ids, JoinAsk, RankRow, Weights};
use rs_ripple::Side;
use rs_value::{Memory, Value};
use std::alloc::Global;

/// A join's core, and what it keeps of its sides. The rows stand beside the core, since the core keeps none once it failed.
#[derive(Drop)]
pub(crate) struct JoinParts {
    pub(crate) alloc: Global,
    pub(crate) core: Hrjn,
    pub(crate) left: DrawnSide,
    pub(crate) right: DrawnSide,
    pub(crate) given: u64,
}

impl JoinParts {
    /// The parts of a join of which nothing is drawn. It takes no memory.
    pub(crate) fn new(alloc: Global) -> JoinParts
        ensures { parts_of result ≡ new_parts }
    {
        JoinParts {
            alloc,
            core: new_core(alloc),
            left: DrawnSide::new(alloc),
            right: DrawnSide::new(alloc),
            given: 0,
        }
    }

    /// The next pair. Both feeds are drawn until no pair still to come can precede it.
    pub(crate) fn advance<L: Feed, R: Feed>(
        &mut self,
        left: &mut L,
        right: &mut R,
    ) -> Result<Option<FeedPair>, JoinFault>
        requires standing { IsStanding (parts_of self.old) }
        requires left { IsDrawnOf false (L.state left.old) (side_of self.old.left) }
        requires right { IsDrawnOf false (R.state right.old) (side_of self.old.right) }
        ensures { Advanced (parts_of self.old) (parts_of self.new) (L.state left.old) (L.state left.new) (R.state right.old) (R.state right.new) result }
    {
        loop {
            match self.core.ask() {
                JoinAsk::NeedLeft => self.draw_left(left)?,
                JoinAsk::NeedRight => self.draw_right(right)?,
                JoinAsk::Ready => return self.give(),
                JoinAsk::End => return Ok(None),
            }
        }
    }

    /// Draws of the left feed, and tells the core what came.
    fn draw_left<F: Feed>(&mut self, feed: &mut F) -> Result<(), JoinFault>
        requires standing { IsStanding (parts_of self.old) }
        requires need { ask_of self.old.core.ripple ≡ NeedLeft }
        requires drawn { IsDrawnOf false (F.state feed.old) (side_of self.old.left) }
        ensures stands { OnOk result ((made : List SideAsk) → StandsAt made (parts_of self.old)
            → StandsAt (asked_once_more Left made) (parts_of self.new)) }
        ensures step { SideDrew 1 (F.state feed.old).outside.told (side_of self.old.left) result (side_of self.new.left) }
        ensures other { side_of self.new.right ≡ side_of self.old.right }
        ensures given { self.new.given ≡ self.old.given }
        ensures drawn { IsDrawnOf (is_err result) (F.state feed.new) (side_of self.new.left) }
        ensures told { (F.state feed.new).outside.told ≡ (F.state feed.old).outside.told }
        ensures counts { Counts (result ≡ Err (JoinFault.Failed 1)) (F.state feed.old).outside (F.state feed.new).outside }
    {
        if !self.left.draw(1, feed)? {
            self.core.left_ended();
            return Ok(());
        }
        let fed = feed_left(
            self.alloc,
            &mut self.core,
            &self.left.rows,
            &self.right.rows,
        );
        if fed.is_err() {
            self.left.rows.pop();
            return Err(JoinFault::Memory);
        }
        Ok(())
    }

    /// Draws of the right feed, and tells the core what came.
    fn draw_right<F: Feed>(&mut self, feed: &mut F) -> Result<(), JoinFault>
        requires standing { IsStanding (parts_of self.old) }
        requires need { ask_of self.old.core.ripple ≡ NeedRight }
        requires drawn { IsDrawnOf false (F.state feed.old) (side_of self.old.right) }
        ensures stands { OnOk result ((made : List SideAsk) → StandsAt made (parts_of self.old)
            → StandsAt (asked_once_more Right made) (parts_of self.new)) }
        ensures step { SideDrew 2 (F.state feed.old).outside.told (side_of self.old.right) result (side_of self.new.right) }
        ensures other { side_of self.new.left ≡ side_of self.old.left }
        ensures given { self.new.given ≡ self.old.given }
        ensures drawn { IsDrawnOf (is_err result) (F.state feed.new) (side_of self.new.right) }
        ensures told { (F.state feed.new).outside.told ≡ (F.state feed.old).outside.told }
        ensures counts { Counts (result ≡ Err (JoinFault.Failed 2)) (F.state feed.old).outside (F.state feed.new).outside }
    {
        if !self.right.draw(2, feed)? {
            self.core.right_ended();
            return Ok(());
        }
        let fed = feed_right(
            self.alloc,
            &mut self.core,
            &self.left.rows,
            &self.right.rows,
        );
        if fed.is_err() {
            self.right.rows.pop();
            return Err(JoinFault::Memory);
        }
        Ok(())
    }

    /// The first held pair of a join that is ready.
    fn give(&mut self) -> Result<Option<FeedPair>, JoinFault>
        requires standing { IsStanding (parts_of self.old) }
        requires ready { ask_of self.old.core.ripple ≡ Ready }
        ensures left { side_of self.new.left ≡ side_of self.old.left }
        ensures right { side_of self.new.right ≡ side_of self.old.right }
        ensures pair { IfOk result (λ pair. pair ≡ slice_get (pairs_drawn (side_of self.old.left) (side_of self.old.right)) self.old.given) }
        ensures given { self.new.given ≡ given_after result self.old.given }
        ensures stands { OnOk result ((made : List SideAsk) → StandsAt made (parts_of self.old) → StandsAt made (parts_of self.new)) }
        ensures err { OnErr result (result ≡ Err JoinFault.Memory) }
    {
        let Some(row) = self.core.take_ready() else {
            return Ok(None);
        };
        let left = row.ids.rows[0];
        let right = row.ids.rows[1];
        let pair = FeedPair::of(&self.left.rows, left, &self.right.rows, right)?;
        self.given += 1;
        Ok(Some(pair))
    }
}

/// The core of a join of two feeds: a score is the worth of a term of weight 1, and each side has an entry and a term.
fn new_core(alloc: Global) -> Hrjn
    ensures { result ≡ new_hashed feed_weights left_side right_side }
{
    let weights = Weights {
        weight: [1, 1, 0, 0, 0, 0, 0, 0],
        max: [u32::MAX, u32::MAX, 0, 0, 0, 0, 0, 0],
    };
    Hrjn::new(
        alloc,
        weights,
        Side { mask: 1, terms: 1 },
        Side { mask: 2, terms: 2 },
    )
}

/// Feeds a core the last left row.
fn feed_left(
    alloc: Global,
    core: &mut Hrjn,
    lefts: &[FeedRow],
    rights: &[FeedRow],
) -> Result<(), Memory>
    requires last { IsSome (last_of lefts.now) }
    requires can { (row : FeedRow) → last_of lefts.now ≡ Some row → CanFeedLeft (left_row (length lefts.now) row) (joined_of core.old) }
    requires fits { Fits (same_texts lefts.now rights.now) (joined_of core.old) }
    requires values { (row : FeedRow) → last_of lefts.now ≡ Some row → HaveTheirValues (same_texts lefts.now rights.now (left_row (length lefts.now) row)) (Text row.join ∷ []) core.old.rights }
    requires exact { (row : FeedRow) → last_of lefts.now ≡ Some row → MatchTheirValues (same_texts lefts.now rights.now (left_row (length lefts.now) row)) (Text row.join ∷ []) core.old.rights }
    requires few { length lefts.now < 2 ^ 32 }
    ensures { OnOk result ((row : FeedRow) → last_of lefts.now ≡ Some row
        → core.new ≡ hash_left (same_texts lefts.now rights.now) (left_row (length lefts.now) row) (Text row.join ∷ []) core.old) }
{
    let last = &lefts[lefts.len() - 1];
    let values = join_values(alloc, last)?;
    let row = left_row(lefts.len() as u32, last.score);
    let mut texts = SameTexts {
        lefts,
        rights,
        calls: 0,
    };
    core.feed_left(row, values, true, &mut texts)
}

/// Feeds a core the last right row.
fn feed_right(
    alloc: Global,
    core: &mut Hrjn,
    lefts: &[FeedRow],
    rights: &[FeedRow],
) -> Result<(), Memory>
    requires last { IsSome (last_of rights.now) }
    requires can { (row : FeedRow) → last_of rights.now ≡ Some row → CanFeedRight (right_row (length rights.now) row) (joined_of core.old) }
    requires fits { Fits (same_texts lefts.now rights.now) (joined_of core.old) }
    requires values { (row : FeedRow) → last_of rights.now ≡ Some row → HaveTheirValues ((λ left. same_texts lefts.now rights.now left (right_row (length rights.now) row))) (Text row.join ∷ []) core.old.lefts }
    requires exact { (row : FeedRow) → last_of rights.now ≡ Some row → MatchTheirValues ((λ left. same_texts lefts.now rights.now left (right_row (length rights.now) row))) (Text row.join ∷ []) core.old.lefts }
    requires few { length rights.now < 2 ^ 32 }
    ensures { OnOk result ((row : FeedRow) → last_of rights.now ≡ Some row
        → core.new ≡ hash_right (same_texts lefts.now rights.now) (right_row (length rights.now) row) (Text row.join ∷ []) core.old) }
{
    let last = &rights[rights.len() - 1];
    let values = join_values(alloc, last)?;
    let row = right_row(rights.len() as u32, last.score);
    let mut texts = SameTexts {
        lefts,
        rights,
        calls: 0,
    };
    core.feed_right(row, values, true, &mut texts)
}

/// What a row is joined by.
fn join_values(alloc: Global, row: &FeedRow) -> Result<Vec<Value>, Memory>
    ensures { IfOk result (λ values. values.items ≡ Text row.now.join ∷ []) }
{
    let text = row.join.copy()?;
    let mut values = Vec::new(alloc);
    values.push(Value::Text(text))?;
    Ok(values)
}

/// A left row by its number, from 1.
fn left_row(number: u32, score: u32) -> RankRow
    ensures { (row : FeedRow) → row.score ≡ score → result ≡ left_row number row }
{
    RankRow {
        ids: Ids {
            block: 1,
            mask: 1,
            rows: [number, 0, 0, 0, 0, 0],
        },
        sum: u64::from(score),
    }
}

/// A right row by its number, from 1.
fn right_row(number: u32, score: u32) -> RankRow
    ensures { (row : FeedRow) → row.score ≡ score → result ≡ right_row number row }
{
    RankRow {
        ids: Ids {
            block: 1,
            mask: 2,
            rows: [0, number, 0, 0, 0, 0],
        },
        sum: u64::from(score),
    }
}
