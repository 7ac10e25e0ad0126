ghost use Rattle.std.specs.Prelude.{◌≡◌, ◌+◌, ◌≤◌, ◌<◌, Bool, IsTrue, false, true, length, OnOk, OnErr};
ghost use Rattle.std.specs.List.{AllByRecursion};
ghost use Rattle.rs_hrjn.specs.Drawn.{alike};
ghost use Rattle.rs_hrjn.specs.Hashed.{Hashed, HaveTheirValues, MatchTheirValues, hash_left, hash_right, joined_of, new_hashed, rows_at};
ghost use Rattle.rs_rank.specs.declared.ask.JoinAsk.TheVariants.{NeedLeft, NeedRight, Ready};
ghost use Rattle.rs_order.specs.Climbing.{Climbs};
ghost use Rattle.rs_rank.specs.Keys.{key_cmp};
ghost use Rattle.rs_rank.specs.declared.row.RankRow.{RankRow};
ghost use Rattle.rs_rank.specs.Rows.{CanMergeRows, merge_row};
ghost use Rattle.rs_ripple.specs.Joined.{CanFeedLeft, CanFeedRight, Fits};
ghost use Rattle.rs_ripple.specs.Pairs.{pairs_against, pairs_with};
ghost use Rattle.rs_ripple.specs.Ripple.{CanEnd, CanJoin, HasReached, ask_of, left_ended, left_for, right_ended, taken_for};
ghost use Rattle.rs_ripple.specs.Stands.{CanFindEach, found_each};

use crate::drawn::DrawnRows;
use rs_rank::{JoinAsk, Matcher, RankRow, Weights};
use rs_ripple::{RippleCore, Side};
use rs_value::{Memory, Value};
use std::alloc::Global;
use std::marker::Model;

/// The core of a join of two sides, whose rows come in the order of their keys, each by the terms of its side, and with
/// join values: rows that match have equal ones. It knows no sides: it says which one it needs, is fed, and gives the
/// pairs that match.
///
/// After a call that answered `Memory` it is spent, and no further call is allowed.
#[derive(Drop)]
pub struct Hrjn {
    core: RippleCore,
    lefts: DrawnRows,
    rights: DrawnRows,
}

impl Model for Hrjn {
    ghost use Rattle.std.specs.Prelude.{◌≡◌, false};
    ghost use Rattle.rs_hrjn.specs.Hashed.{Hashed, joined_of};
    ghost use Rattle.rs_ripple.specs.Joined.{IsJoined};

    ghost Value = { Hashed };

    ghost view = { λ h. record { ripple = h.core; lefts = h.lefts; rights = h.rights } };

    ghost invariant = { λ h. h.core.spent ≡ false
        → IsJoined (joined_of (record { ripple = h.core; lefts = h.lefts; rights = h.rights })) };
}

impl Hrjn {
    /// The join of two sides of which nothing is drawn. They are to have no entry and no term in common. It takes no
    /// memory.
    pub fn new(alloc: Global, weights: Weights, left: Side, right: Side) -> Hrjn
        requires { CanJoin weights left right }
        ensures new { result ≡ new_hashed weights left right }
        ensures fits { (matches : RankRow → RankRow → Bool) → Fits matches (joined_of result) }
    {
        Hrjn {
            core: RippleCore::new(alloc, weights, left, right),
            lefts: DrawnRows::new(alloc),
            rights: DrawnRows::new(alloc),
        }
    }

    /// What the join does next. The pairs that it holds are in the order of their keys, and the one taken last came at or
    /// before both thresholds. It asks as `RippleCore::ask` of rs_ripple does.
    pub fn ask(&self) -> JoinAsk
        requires { self.now.ripple.spent ≡ false }
        ensures ask { result ≡ ask_of self.now.ripple }
        ensures ordered { Climbs key_cmp (λ pair. pair.0) self.now.ripple.held }
        ensures reached { HasReached self.now.ripple }
    {
        self.core.ask()
    }

    /// Takes the left side's next row with its join values, and finds the right rows drawn so far that it matches. The
    /// matcher is asked only of those that have equal join values.
    ///
    /// Where `exact` is set, the matcher isn't asked: rows that have equal join values match.
    ///
    /// # Errors
    ///
    /// - `Memory`: at any call, be it of the join or of the matcher; the join is spent from then on.
    pub fn feed_left<M: Matcher>(
        &mut self,
        row: RankRow,
        join: Vec<Value>,
        exact: bool,
        matcher: &mut M,
    ) -> Result<(), Memory>
        requires row { CanFeedLeft row (joined_of self.old) }
        requires fits { Fits (M.truth matcher.old) (joined_of self.old) }
        requires values { HaveTheirValues (M.truth matcher.old row) join.items self.old.rights }
        requires exact { IsTrue exact → MatchTheirValues (M.truth matcher.old row) join.items self.old.rights }
        ensures ok { OnOk result (self.new ≡ hash_left (M.truth matcher.old) row join.items self.old) }
        ensures fits { OnOk result (Fits (M.truth matcher.old) (joined_of self.new)) }
        ensures err { OnErr result (self.new.ripple.spent ≡ true) }
        ensures truth { M.truth matcher.new ≡ M.truth matcher.old }
        ensures calls { M.calls matcher.new ≤ M.calls matcher.old + length (alike join.items self.old.rights) }
        ensures unasked { IsTrue exact → M.calls matcher.new ≡ M.calls matcher.old }
    {
        let key = self.core.left_key(&row);
        self.core.left_drawn(key);
        let places = self.rights.places(&join);
        find_right(
            &mut self.core,
            &row,
            self.rights.rows(),
            places,
            exact,
            matcher,
        )?;
        if self.lefts.push(row, join).is_err() {
            self.core.give_up();
            return Err(Memory);
        }
        Ok(())
    }

    /// Takes the right side's next row with its join values, and finds the left rows drawn so far that it matches. The
    /// matcher is asked only of those that have equal join values.
    ///
    /// Where `exact` is set, the matcher isn't asked: rows that have equal join values match.
    ///
    /// # Errors
    ///
    /// - `Memory`: at any call, be it of the join or of the matcher; the join is spent from then on.
    pub fn feed_right<M: Matcher>(
        &mut self,
        row: RankRow,
        join: Vec<Value>,
        exact: bool,
        matcher: &mut M,
    ) -> Result<(), Memory>
        requires row { CanFeedRight row (joined_of self.old) }
        requires fits { Fits (M.truth matcher.old) (joined_of self.old) }
        requires values { HaveTheirValues (λ left. M.truth matcher.old left row) join.items self.old.lefts }
        requires exact { IsTrue exact → MatchTheirValues (λ left. M.truth matcher.old left row) join.items self.old.lefts }
        ensures ok { OnOk result (self.new ≡ hash_right (M.truth matcher.old) row join.items self.old) }
        ensures fits { OnOk result (Fits (M.truth matcher.old) (joined_of self.new)) }
        ensures err { OnErr result (self.new.ripple.spent ≡ true) }
        ensures truth { M.truth matcher.new ≡ M.truth matcher.old }
        ensures calls { M.calls matcher.new ≤ M.calls matcher.old + length (alike join.items self.old.lefts) }
        ensures unasked { IsTrue exact → M.calls matcher.new ≡ M.calls matcher.old }
    {
        let key = self.core.right_key(&row);
        self.core.right_drawn(key);
        let places = self.lefts.places(&join);
        find_left(
            &mut self.core,
            self.lefts.rows(),
            places,
            &row,
            exact,
            matcher,
        )?;
        if self.rights.push(row, join).is_err() {
            self.core.give_up();
            return Err(Memory);
        }
        Ok(())
    }

    /// The left side has no more rows.
    pub fn left_ended(&mut self)
        requires { CanEnd NeedLeft self.old.ripple }
        ensures ended { self.new ≡ record self.old { ripple = left_ended self.old.ripple } }
        ensures fits { (matches : RankRow → RankRow → Bool)
            → Fits matches (joined_of self.old) → Fits matches (joined_of self.new) }
    {
        self.core.left_ended();
    }

    /// The right side has no more rows.
    pub fn right_ended(&mut self)
        requires { CanEnd NeedRight self.old.ripple }
        ensures ended { self.new ≡ record self.old { ripple = right_ended self.old.ripple } }
        ensures fits { (matches : RankRow → RankRow → Bool)
            → Fits matches (joined_of self.old) → Fits matches (joined_of self.new) }
    {
        self.core.right_ended();
    }

    /// Takes the first held pair, if the join is ready.
    ///
    /// # Errors
    ///
    /// - `None`: exactly where the operator isn't ready. Then nothing changes.
    pub fn take(&mut self) -> Option<RankRow>
        requires { self.old.ripple.spent ≡ false }
        ensures row { result ≡ taken_for (ask_of self.old.ripple) self.old.ripple }
        ensures left { self.new ≡ record self.old { ripple = left_for (ask_of self.old.ripple) self.old.ripple } }
        ensures fits { (matches : RankRow → RankRow → Bool)
            → Fits matches (joined_of self.old) → Fits matches (joined_of self.new) }
    {
        self.core.take()
    }

    /// Takes the first held pair of a join that is ready.
    ///
    /// # Errors
    ///
    /// - `None`: never, since the join has to be ready.
    pub fn take_ready(&mut self) -> Option<RankRow>
        requires alive { self.old.ripple.spent ≡ false }
        requires ready { ask_of self.old.ripple ≡ Ready }
        ensures row { result ≡ taken_for (ask_of self.old.ripple) self.old.ripple }
        ensures left { self.new ≡ record self.old { ripple = left_for (ask_of self.old.ripple) self.old.ripple } }
        ensures fits { (matches : RankRow → RankRow → Bool)
            → Fits matches (joined_of self.old) → Fits matches (joined_of self.new) }
    {
        self.core.take_ready()
    }
}

/// Tells the core each pair of a left row with one of the right rows at these places that it matches. Where `exact` is set
/// it matches all of them, and the matcher isn't asked.
fn find_right<M: Matcher>(
    core: &mut RippleCore,
    row: &RankRow,
    rights: &[RankRow],
    places: &[usize],
    exact: bool,
    matcher: &mut M,
) -> Result<(), Memory>
    requires alive { core.old.spent ≡ false }
    requires rows { AllByRecursion (CanMergeRows row.now) rights.now }
    requires within { AllByRecursion (λ place. place < length rights.now) places.now }
    requires exact { IsTrue exact → AllByRecursion (λ right. M.truth matcher.old row.now right ≡ true) (rows_at row.now places.now rights.now) }
    requires pairs { CanFindEach (pairs_with (M.truth matcher.old) merge_row (rows_at row.now places.now rights.now) row.now) core.old }
    ensures ok { OnOk result (core.new ≡ found_each (pairs_with (M.truth matcher.old) merge_row (rows_at row.now places.now rights.now) row.now) core.old) }
    ensures err { OnErr result (core.new.spent ≡ true) }
    ensures truth { M.truth matcher.new ≡ M.truth matcher.old }
    ensures calls { M.calls matcher.new ≤ M.calls matcher.old + length places.now }
    ensures unasked { IsTrue exact → M.calls matcher.new ≡ M.calls matcher.old }
{
    for place in places {
        if exact {
            core.found(row.merge(&rights[*place]))?;
        } else {
            core.try_pair(row, &rights[*place], matcher)?;
        }
    }
    Ok(())
}

/// Tells the core each pair of one of the left rows at these places with a right row that it matches. Where `exact` is set
/// it matches all of them, and the matcher isn't asked.
fn find_left<M: Matcher>(
    core: &mut RippleCore,
    lefts: &[RankRow],
    places: &[usize],
    row: &RankRow,
    exact: bool,
    matcher: &mut M,
) -> Result<(), Memory>
    requires alive { core.old.spent ≡ false }
    requires rows { AllByRecursion (λ left. CanMergeRows left row.now) lefts.now }
    requires within { AllByRecursion (λ place. place < length lefts.now) places.now }
    requires exact { IsTrue exact → AllByRecursion (λ left. M.truth matcher.old left row.now ≡ true) (rows_at row.now places.now lefts.now) }
    requires pairs { CanFindEach (pairs_against (M.truth matcher.old) merge_row (rows_at row.now places.now lefts.now) row.now) core.old }
    ensures ok { OnOk result (core.new ≡ found_each (pairs_against (M.truth matcher.old) merge_row (rows_at row.now places.now lefts.now) row.now) core.old) }
    ensures err { OnErr result (core.new.spent ≡ true) }
    ensures truth { M.truth matcher.new ≡ M.truth matcher.old }
    ensures calls { M.calls matcher.new ≤ M.calls matcher.old + length places.now }
    ensures unasked { IsTrue exact → M.calls matcher.new ≡ M.calls matcher.old }
{
    for place in places {
        if exact {
            core.found(lefts[*place].merge(row))?;
        } else {
            core.try_pair(&lefts[*place], row, matcher)?;
        }
    }
    Ok(())
}
