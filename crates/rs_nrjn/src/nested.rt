ghost use Rattle.std.specs.Prelude.{◌≡◌, ◌+◌, ◌≤◌, Bool, false, true, length, OnOk, OnErr};
ghost use Rattle.std.specs.List.{AllByRecursion};
ghost use Rattle.rs_order.specs.Climbing.{Climbs};
ghost use Rattle.rs_rank.specs.Keys.{key_cmp};
ghost use Rattle.rs_rank.specs.declared.row.RankRow.{RankRow};
ghost use Rattle.rs_rank.specs.Rows.{CanMergeRows, merge_row};
ghost use Rattle.rs_ripple.specs.Joined.{CanFeedLeft, CanFeedRight, Fits, Joined, end_left, end_right, fed_left, fed_right, new_joined, rest_for};
ghost use Rattle.rs_ripple.specs.Pairs.{pairs_against, pairs_with};
ghost use Rattle.rs_ripple.specs.Ripple.{CanEnd, CanJoin, HasReached, ask_of, taken_for};
ghost use Rattle.rs_ripple.specs.Stands.{CanFindEach, found_each};
ghost use Rattle.rs_rank.specs.declared.ask.JoinAsk.TheVariants.{NeedLeft, NeedRight, Ready};

use rs_rank::{JoinAsk, Matcher, RankRow, Weights};
use rs_ripple::{RippleCore, Side};
use rs_value::Memory;
use std::alloc::Global;
use std::marker::Model;

/// The core of a join of two sides, whose rows come in the order of their keys, each by the terms of its side. It knows
/// no sides: it says which one it needs, is fed, and gives the pairs that match.
///
/// After a call that answered `Memory` it is spent, and no further call is allowed.
#[derive(Drop)]
pub struct Nrjn {
    core: RippleCore,
    // The rows drawn of each side, in the order in which they came.
    lefts: Vec<RankRow>,
    rights: Vec<RankRow>,
}

impl Model for Nrjn {
    ghost use Rattle.std.specs.Prelude.{◌≡◌, false};
    ghost use Rattle.rs_ripple.specs.Joined.{IsJoined, Joined};

    ghost Value = { Joined };

    ghost view = { λ n. record { ripple = n.core; lefts = n.lefts.items; rights = n.rights.items } };

    ghost invariant = { λ n. n.core.spent ≡ false
        → IsJoined (record { ripple = n.core; lefts = n.lefts.items; rights = n.rights.items }) };
}

impl Nrjn {
    /// The join of two sides of which nothing is drawn. They are to have no entry and no term in common. It takes no
    /// memory.
    pub fn new(alloc: Global, weights: Weights, left: Side, right: Side) -> Nrjn
        requires { CanJoin weights left right }
        ensures new { result ≡ new_joined weights left right }
        ensures fits { (matches : RankRow → RankRow → Bool) → Fits matches result }
    {
        Nrjn {
            core: RippleCore::new(alloc, weights, left, right),
            lefts: Vec::new(alloc),
            rights: Vec::new(alloc),
        }
    }

    /// What the join does next. The pairs that it holds are in the order of their keys, and the one taken last came at or
    /// before both thresholds. It asks as `RippleCore::ask` of rs_ripple does.
    pub fn ask(&self) -> JoinAsk
        requires { self.now.ripple.spent ≡ false }
        ensures ask { result ≡ ask_of self.now.ripple }
        ensures ordered { Climbs key_cmp (λ pair. pair.0) self.now.ripple.held }
        ensures reached { HasReached self.now.ripple }
    {
        self.core.ask()
    }

    /// Takes the left side's next row, and finds the right rows drawn so far that it matches.
    ///
    /// # Errors
    ///
    /// - `Memory`: at any call, be it of the join or of the matcher; the join is spent from then on.
    pub fn feed_left<M: Matcher>(&mut self, row: RankRow, matcher: &mut M) -> Result<(), Memory>
        requires row { CanFeedLeft row self.old }
        requires fits { Fits (M.truth matcher.old) self.old }
        ensures ok { OnOk result (self.new ≡ fed_left (M.truth matcher.old) row self.old) }
        ensures fits { OnOk result (Fits (M.truth matcher.old) self.new) }
        ensures err { OnErr result (self.new.ripple.spent ≡ true) }
        ensures truth { M.truth matcher.new ≡ M.truth matcher.old }
        ensures calls { M.calls matcher.new ≤ M.calls matcher.old + length self.old.rights }
    {
        let key = self.core.left_key(&row);
        self.core.left_drawn(key);
        find_right(&mut self.core, &row, &self.rights, matcher)?;
        if self.lefts.push(row).is_err() {
            self.core.give_up();
            return Err(Memory);
        }
        Ok(())
    }

    /// Takes the right side's next row, and finds the left rows drawn so far that it matches.
    ///
    /// # Errors
    ///
    /// - `Memory`: at any call, be it of the join or of the matcher; the join is spent from then on.
    pub fn feed_right<M: Matcher>(&mut self, row: RankRow, matcher: &mut M) -> Result<(), Memory>
        requires row { CanFeedRight row self.old }
        requires fits { Fits (M.truth matcher.old) self.old }
        ensures ok { OnOk result (self.new ≡ fed_right (M.truth matcher.old) row self.old) }
        ensures fits { OnOk result (Fits (M.truth matcher.old) self.new) }
        ensures err { OnErr result (self.new.ripple.spent ≡ true) }
        ensures truth { M.truth matcher.new ≡ M.truth matcher.old }
        ensures calls { M.calls matcher.new ≤ M.calls matcher.old + length self.old.lefts }
    {
        let key = self.core.right_key(&row);
        self.core.right_drawn(key);
        find_left(&mut self.core, &self.lefts, &row, matcher)?;
        if self.rights.push(row).is_err() {
            self.core.give_up();
            return Err(Memory);
        }
        Ok(())
    }

    /// The left side has no more rows.
    pub fn left_ended(&mut self)
        requires { CanEnd NeedLeft self.old.ripple }
        ensures ended { self.new ≡ end_left self.old }
        ensures fits { (matches : RankRow → RankRow → Bool) → Fits matches self.old → Fits matches self.new }
    {
        self.core.left_ended();
    }

    /// The right side has no more rows.
    pub fn right_ended(&mut self)
        requires { CanEnd NeedRight self.old.ripple }
        ensures ended { self.new ≡ end_right self.old }
        ensures fits { (matches : RankRow → RankRow → Bool) → Fits matches self.old → Fits matches self.new }
    {
        self.core.right_ended();
    }

    /// Takes the first held pair, if the join is ready.
    ///
    /// # Errors
    ///
    /// - `None`: exactly where the operator isn't ready. Then nothing changes.
    pub fn take(&mut self) -> Option<RankRow>
        requires { self.old.ripple.spent ≡ false }
        ensures row { result ≡ taken_for (ask_of self.old.ripple) self.old.ripple }
        ensures left { self.new ≡ rest_for (ask_of self.old.ripple) self.old }
        ensures fits { (matches : RankRow → RankRow → Bool) → Fits matches self.old → Fits matches self.new }
    {
        self.core.take()
    }

    /// Takes the first held pair of a join that is ready.
    ///
    /// # Errors
    ///
    /// - `None`: never, since the join has to be ready.
    pub fn take_ready(&mut self) -> Option<RankRow>
        requires alive { self.old.ripple.spent ≡ false }
        requires ready { ask_of self.old.ripple ≡ Ready }
        ensures row { result ≡ taken_for (ask_of self.old.ripple) self.old.ripple }
        ensures left { self.new ≡ rest_for (ask_of self.old.ripple) self.old }
        ensures fits { (matches : RankRow → RankRow → Bool) → Fits matches self.old → Fits matches self.new }
    {
        self.core.take_ready()
    }
}

/// Tells the core each pair of a left row with one of these right rows that it matches.
fn find_right<M: Matcher>(
    core: &mut RippleCore,
    row: &RankRow,
    rights: &[RankRow],
    matcher: &mut M,
) -> Result<(), Memory>
    requires alive { core.old.spent ≡ false }
    requires rows { AllByRecursion (CanMergeRows row.now) rights.now }
    requires pairs { CanFindEach (pairs_with (M.truth matcher.old) merge_row rights.now row.now) core.old }
    ensures ok { OnOk result (core.new ≡ found_each (pairs_with (M.truth matcher.old) merge_row rights.now row.now) core.old) }
    ensures err { OnErr result (core.new.spent ≡ true) }
    ensures truth { M.truth matcher.new ≡ M.truth matcher.old }
    ensures calls { M.calls matcher.new ≤ M.calls matcher.old + length rights.now }
{
    for right in rights {
        core.try_pair(row, right, matcher)?;
    }
    Ok(())
}

/// Tells the core each pair of one of these left rows with a right row that it matches.
fn find_left<M: Matcher>(
    core: &mut RippleCore,
    lefts: &[RankRow],
    row: &RankRow,
    matcher: &mut M,
) -> Result<(), Memory>
    requires alive { core.old.spent ≡ false }
    requires rows { AllByRecursion (λ left. CanMergeRows left row.now) lefts.now }
    requires pairs { CanFindEach (pairs_against (M.truth matcher.old) merge_row lefts.now row.now) core.old }
    ensures ok { OnOk result (core.new ≡ found_each (pairs_against (M.truth matcher.old) merge_row lefts.now row.now) core.old) }
    ensures err { OnErr result (core.new.spent ≡ true) }
    ensures truth { M.truth matcher.new ≡ M.truth matcher.old }
    ensures calls { M.calls matcher.new ≤ M.calls matcher.old + length lefts.now }
{
    for left in lefts {
        core.try_pair(left, row, matcher)?;
    }
    Ok(())
}
