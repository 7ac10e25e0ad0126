ghost use Rattle.std.specs.Prelude.{◌≡◌, ◌↔◌, ◌≤◌, ◌-◌, ◌||◌, List, length, slice_get, None, Some, Ok, Err, true, false};
ghost use Rattle.rs_feed.specs.declared.feed_row.FeedRow.{FeedRow};
ghost use Rattle.rs_feed_join.specs.Answers.{HasToldRefused, IsNext, MayBe};
ghost use Rattle.rs_feed_join.specs.Cuts.{HaveScores, most_rows};
ghost use Rattle.rs_feed_join.specs.Joins.{IsAfter, IsKept, IsRefusal, new_feed_join, side_in};
ghost use Rattle.rs_feed_join.specs.Sides.{IsCounted, IsDrawnOf, side_of};
ghost use Rattle.rs_value.specs.Outside.{Counts};

use crate::fault::JoinFault;
use crate::feed_pair::FeedPair;
use crate::parts::JoinParts;
use crate::side::DrawnSide;
use rs_feed::Feed;
use rs_value::Text;
use std::alloc::Global;
use std::marker::Model;

/// The join of two ranked feeds by the texts of their rows. It draws one row at a time, of the feed whose threshold comes first: that is
/// the key of the last row drawn of it with the first row of the other feed. It gives each pair once it comes at or before both
/// thresholds, so that no pair that is still to come can precede it.
///
/// The rows that it drew stay with it, also after a failure. After a call that answered a fault every later one answers `Broken`, and
/// draws nothing.
#[derive(Drop)]
pub struct FeedJoin {
    parts: JoinParts,
    finished: bool,
    broken: bool,
}

impl Model for FeedJoin {
    ghost use Rattle.std.specs.Prelude.{◌≡◌, false, true};
    ghost use Rattle.rs_feed_join.specs.Joins.{FeedJoinState, IsKept};
    ghost use Rattle.rs_feed_join.specs.Parts.{IsStanding, join_state, parts_of};
    ghost use Rattle.rs_rank.specs.declared.ask.JoinAsk.TheVariants.{End};
    ghost use Rattle.rs_ripple.specs.Ripple.{ask_of};

    ghost Value = { FeedJoinState };

    ghost view = { λ f. join_state (parts_of f.parts) f.finished f.broken };

    ghost invariant = { λ f. (f.broken ≡ false → IsStanding (parts_of f.parts))
        × (f.broken ≡ false → f.finished ≡ true → ask_of f.parts.core.ripple ≡ End)
        × IsKept (join_state (parts_of f.parts) f.finished f.broken) };
}

impl FeedJoin {
    /// A join of which nothing is drawn. It takes no memory.
    pub fn new(alloc: Global) -> FeedJoin
        ensures { result ≡ new_feed_join }
    {
        FeedJoin {
            parts: JoinParts::new(alloc),
            finished: false,
            broken: false,
        }
    }

    /// The next pair, the greatest sum of both scores first, at equal sums the lesser left number, and then the lesser
    /// right one; or none at the end. Of each feed it takes the longest front in which no score rises, of at most
    /// 131,072 rows, and it refuses the row behind that front, where it draws it.
    ///
    /// Both feeds are to be the ones of all calls, and no other is to draw of them. Behind a call that gave a pair they
    /// were drawn exactly as often as the pairs up to it take. What is said of feeds that tell their rows asks that
    /// each score is below 2^32, as those of all rows are.
    ///
    /// The pairs that were given are the first of all that the feeds can have, and no pair that is still to come
    /// precedes the last of them. That stays so once a call failed: such a call made the first of its draws, and a draw
    /// that failed is the last of these. A side that ended is drawn no more, and behind the end nothing is drawn.
    ///
    /// # Errors
    ///
    /// - `None`: where the feeds tell their rows, exactly behind the last pair of both fronts, unless a row is refused
    ///   or a call fails before; where they tell none, the same for whatever rows they may have.
    /// - `OutOfOrder`: where no call fails before, exactly where a drawn row's score is greater than that of the row
    ///   before it, and the row isn't one too many.
    /// - `TooLong`: where no call fails before, exactly where a row is drawn of a side that gave 131,072, whatever its
    ///   score.
    /// - `Failed`: only where that feed's count of faults rose; of a steady feed never.
    /// - `Broken`: exactly where an earlier call failed.
    /// - `Memory`: at any call; the join is broken from then on.
    pub fn next<L: Feed, R: Feed>(
        &mut self,
        left: &mut L,
        right: &mut R,
    ) -> Result<Option<FeedPair>, JoinFault>
        requires left { IsDrawnOf self.old.broken (L.state left.old) self.old.left }
        requires right { IsDrawnOf self.old.broken (R.state right.old) self.old.right }
        // The answer and the draws, of feeds that tell their rows, and of all others that may have such rows.
        ensures told { (lefts rights : List FeedRow) → (L.state left.old).outside.told ≡ Some lefts → (R.state right.old).outside.told ≡ Some rights
            → HaveScores lefts → HaveScores rights → IsNext lefts rights self.old.given self.new.left self.new.right result }
        ensures untold { (lefts rights : List FeedRow) → MayBe 1 lefts self.new.left result → MayBe 2 rights self.new.right result
            → IsNext lefts rights self.old.given self.new.left self.new.right result }

        // A row that is refused, whatever its feed tells, and where it tells its rows.
        ensures refused { IsRefusal self.new result }
        ensures left_refused { HasToldRefused 1 (L.state left.old).outside.told self.new.left result }
        ensures right_refused { HasToldRefused 2 (R.state right.old).outside.told self.new.right result }

        // An earlier call failed exactly where this one says so. Behind such a call, and behind the end, nothing is drawn.
        ensures broken { (result ≡ Err JoinFault.Broken) ↔ (self.old.broken ≡ true) }
        ensures over { self.old.broken ≡ false → self.old.finished ≡ true → result ≡ Ok None }
        ensures still { (self.old.broken || self.old.finished) ≡ true
            → (self.new ≡ self.old) × (L.state left.new ≡ L.state left.old) × (R.state right.new ≡ R.state right.old) }

        // What the call leaves.
        ensures after { IsAfter self.old self.new result }
        ensures kept { IsKept self.new }
        ensures counted { self.new.broken ≡ false → IsCounted self.new.left × IsCounted self.new.right }
        ensures left { IsDrawnOf self.new.broken (L.state left.new) self.new.left }
        ensures right { IsDrawnOf self.new.broken (R.state right.new) self.new.right }
        ensures left_told { (L.state left.new).outside.told ≡ (L.state left.old).outside.told }
        ensures right_told { (R.state right.new).outside.told ≡ (R.state right.old).outside.told }
        ensures left_counts { Counts (result ≡ Err (JoinFault.Failed 1)) (L.state left.old).outside (L.state left.new).outside }
        ensures right_counts { Counts (result ≡ Err (JoinFault.Failed 2)) (R.state right.old).outside (R.state right.new).outside }
    {
        if self.broken {
            return Err(JoinFault::Broken);
        }
        let result = self.parts.advance(left, right);
        match &result {
            Ok(Some(_)) => {}
            Ok(None) => self.finished = true,
            Err(_) => self.broken = true,
        }
        result
    }

    /// How many rows of a side were drawn and taken. Sides are 1, the left one, and 2. A row that was refused, or for which there was no
    /// memory, isn't one of them.
    pub fn drawn(&self, side: u8) -> u32
        ensures value { result ≡ length (side_in side self.now).rows }
        ensures few { result ≤ most_rows }
        ensures kept { IsKept self.now }
    {
        self.side(side).rows.len() as u32
    }

    /// The text and the score of a row of a side, counted from 1 in the order of drawing.
    pub fn row(&self, side: u8, row: u32) -> (&Text, u32)
        requires some_row { 1 ≤ row }
        requires drawn { row ≤ length (side_in side self.now).rows }
        ensures text { (drawn : FeedRow) → slice_get (side_in side self.now).rows (row - 1) ≡ Some drawn → result.0.now ≡ drawn.join }
        ensures score { (drawn : FeedRow) → slice_get (side_in side self.now).rows (row - 1) ≡ Some drawn → result.1 ≡ drawn.score }
    {
        let drawn = &self.side(side).rows[row as usize - 1];
        (&drawn.join, drawn.score)
    }

    /// Whether a draw of a side said that there are no more rows.
    pub fn ended(&self, side: u8) -> bool
        ensures { result ≡ (side_in side self.now).ended }
    {
        self.side(side).ended
    }

    /// What the join keeps of a side.
    fn side(&self, side: u8) -> &DrawnSide
        ensures side { side_of result.now ≡ side_in side self.now }
        ensures few { length result.now.rows.items ≤ most_rows }
        ensures kept { IsKept self.now }
    {
        if side == 1 {
            &self.parts.left
        } else {
            &self.parts.right
        }
    }
}
