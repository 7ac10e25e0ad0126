ghost use Rattle.std.specs.Prelude.{◌≡◌, bit_or, false, true, if◌then◌else◌, OnOk, OnErr, Some};
ghost use Rattle.rs_rank.specs.declared.ask.JoinAsk.TheVariants.{NeedLeft, NeedRight, Ready};
ghost use Rattle.std.specs.Option.{option_map};
ghost use Rattle.rs_order.specs.Climbing.{Climbs};
ghost use Rattle.rs_rank.specs.Keys.{key_cmp};
ghost use Rattle.rs_rank.specs.Merging.{CanMerge};
ghost use Rattle.rs_rank.specs.Rows.{CanMergeRows, HasSum, first_key, key_of, merge_row};
ghost use Rattle.rs_ripple.specs.declared.side.Drawn.{Drawn};
ghost use Rattle.rs_ripple.specs.Ripple.{CanDrawLeft, CanDrawRight, CanEnd, CanFind, CanJoin, HasReached, IsRipple, ask_first, ask_of, first_side, found, full_key, is_reached, left_drawn, left_ended, left_for, left_threshold, new_ripple, pair_key, right_drawn, right_ended, right_threshold, sides_of, taken_for};
ghost use Rattle.rs_value.specs.Faults.{raised};

use crate::side::{Input, Side};
use rs_queue::Queue;
use rs_rank::{JoinAsk, Key, Matcher, RankRow, Weights, union};
use rs_value::Memory;
use std::alloc::Global;
use std::marker::Model;

/// The core of a join of two sides, whose rows come in the order of their keys, each by the terms of its side. It knows
/// no rows but the pairs: it says which side it needs, is told the key of each row drawn and each pair found, and gives.
///
/// The pairs of a row that was drawn are to be told, in any order and each once, before the core is asked again. After a
/// call that answered `Memory` it is spent, and no further call is allowed.
#[derive(Drop)]
pub struct RippleCore {
    weights: Weights,
    left: Input,
    right: Input,
    // Where both sides have a row, the keys that no pair with a left or with a right row still to come precedes.
    to_left: Option<Key>,
    to_right: Option<Key>,
    // What the terms that the left side doesn't have can give to a score at most, what those can that the right side
    // doesn't have, and what those can that neither side has.
    left_rest: u64,
    right_rest: u64,
    above: u64,
    // The key of the pair that was taken last.
    taken: Option<Key>,
    // Of each pair held its key, in which its ids stand, and its sum.
    held: Queue<Key, u64>,
    spent: bool,
}

impl Model for RippleCore {
    ghost use Rattle.std.specs.Prelude.{◌≡◌, bit_or};
    ghost use Rattle.rs_rank.specs.Rows.{rows_of_sums};
    ghost use Rattle.rs_rank.specs.Weights.{rest};
    ghost use Rattle.rs_ripple.specs.Ripple.{AreThresholds, IsRipple, IsTakenReached, Ripple, sides_of};

    ghost Value = { Ripple };

    ghost view = { λ r. record {
      weights = r.weights;
      left = r.left;
      right = r.right;
      taken = r.taken;
      held = rows_of_sums r.held;
      spent = r.spent;
    } };

    ghost invariant = { λ r. IsRipple (record {
      weights = r.weights;
      left = r.left;
      right = r.right;
      taken = r.taken;
      held = rows_of_sums r.held;
      spent = r.spent;
    }) × AreThresholds r.to_left r.to_right (sides_of r.weights r.left r.right)
        × (r.left_rest ≡ rest r.weights r.left.side.terms) × (r.right_rest ≡ rest r.weights r.right.side.terms)
        × (r.above ≡ rest r.weights (bit_or r.left.side.terms r.right.side.terms))
        × IsTakenReached r.taken r.left.drawn r.right.drawn (sides_of r.weights r.left r.right) };
}

impl RippleCore {
    /// The join of two sides of which nothing is drawn. They are to have no entry and no term in common. It takes no
    /// memory.
    pub fn new(alloc: Global, weights: Weights, left: Side, right: Side) -> RippleCore
        requires { CanJoin weights left right }
        ensures { result ≡ new_ripple weights left right }
    {
        RippleCore {
            weights,
            left: Input::new(left),
            right: Input::new(right),
            to_left: None,
            to_right: None,
            left_rest: weights.rest(left.terms),
            right_rest: weights.rest(right.terms),
            above: weights.rest(union(left.terms, right.terms)),
            taken: None,
            held: Queue::new(alloc),
            spent: false,
        }
    }

    /// What the join does next. The pairs that it holds are in the order of their keys, and the one taken last came at or
    /// before both thresholds. A side of which no row was drawn is asked first, the left one before the right one;
    /// where such a side has ended, it is `End`. Behind that it is `Ready` where a held pair comes at or before both
    /// thresholds, and else the side is asked whose threshold comes first, the left one on a tie. A side that has ended
    /// has its threshold beyond all keys; where both have, and no pair is held, it is `End`.
    pub fn ask(&self) -> JoinAsk
        requires { self.now.spent ≡ false }
        ensures ask { result ≡ ask_of self.now }
        ensures ordered { Climbs key_cmp (λ pair. pair.0) self.now.held }
        ensures reached { HasReached self.now }
    {
        self.ask_by(self.held.peek())
    }

    /// What the join does next, by the first key that it holds.
    fn ask_by(&self, first: Option<&Key>) -> JoinAsk
        requires { option_map (λ key. key.now) first ≡ first_key self.now.held }
        ensures { result ≡ ask_of self.now }
    {
        let Some(_) = &self.left.drawn else {
            return if self.left.ended {
                JoinAsk::End
            } else {
                JoinAsk::NeedLeft
            };
        };
        let Some(_) = &self.right.drawn else {
            return if self.right.ended {
                JoinAsk::End
            } else {
                JoinAsk::NeedRight
            };
        };
        ask_first(&self.to_left, &self.to_right, first)
    }

    /// The key of a left row, by the terms of its side.
    pub fn left_key(&self, row: &RankRow) -> Key
        requires { HasSum self.now.weights self.now.left.side.terms row.now }
        ensures { result ≡ key_of self.now.weights self.now.left.side.terms row.now }
    {
        Key {
            bound: row.sum + self.left_rest,
            ids: row.ids,
        }
    }

    /// The key of a right row, by the terms of its side.
    pub fn right_key(&self, row: &RankRow) -> Key
        requires { HasSum self.now.weights self.now.right.side.terms row.now }
        ensures { result ≡ key_of self.now.weights self.now.right.side.terms row.now }
    {
        Key {
            bound: row.sum + self.right_rest,
            ids: row.ids,
        }
    }

    /// Takes the key of the left side's next row.
    pub fn left_drawn(&mut self, key: Key)
        requires { CanDrawLeft key self.old }
        ensures { self.new ≡ left_drawn key self.old }
    {
        let mut left = self.left;
        left.draw(key);
        let to_left = self.left_threshold(&left, &self.right);
        // Of the left keys the right side's threshold takes the first alone, which stays.
        let to_right = if self.left.drawn.is_some() {
            self.to_right
        } else {
            self.right_threshold(&left, &self.right)
        };
        self.left = left;
        self.to_left = to_left;
        self.to_right = to_right;
    }

    /// Takes the key of the right side's next row.
    pub fn right_drawn(&mut self, key: Key)
        requires { CanDrawRight key self.old }
        ensures { self.new ≡ right_drawn key self.old }
    {
        let mut right = self.right;
        right.draw(key);
        // Of the right keys the left side's threshold takes the first alone, which stays.
        let to_left = if self.right.drawn.is_some() {
            self.to_left
        } else {
            self.left_threshold(&self.left, &right)
        };
        let to_right = self.right_threshold(&self.left, &right);
        self.right = right;
        self.to_left = to_left;
        self.to_right = to_right;
    }

    /// Where both sides have a row, the key that no pair with a left row still to come precedes. Once the left side has
    /// ended it lies beyond all keys.
    fn left_threshold(&self, left: &Input, right: &Input) -> Option<Key>
        requires keys { IsRipple (sides_of self.now.weights left.now right.now) }
        requires left { left.now.side ≡ self.now.left.side }
        requires right { right.now.side ≡ self.now.right.side }
        ensures { (left_keys right_keys : Drawn) → left.now.drawn ≡ Some left_keys → right.now.drawn ≡ Some right_keys
            → result ≡ left_threshold (sides_of self.now.weights left.now right.now) left_keys right_keys }
    {
        if left.ended {
            return None;
        }
        match (&left.drawn, &right.drawn) {
            (Some(left_keys), Some(right_keys)) => {
                Some(self.pair_key(&left_keys.last, &right_keys.first))
            }
            _ => None,
        }
    }

    /// Where both sides have a row, the key that no pair with a right row still to come precedes. Once the right side has
    /// ended it lies beyond all keys.
    fn right_threshold(&self, left: &Input, right: &Input) -> Option<Key>
        requires keys { IsRipple (sides_of self.now.weights left.now right.now) }
        requires left { left.now.side ≡ self.now.left.side }
        requires right { right.now.side ≡ self.now.right.side }
        ensures { (left_keys right_keys : Drawn) → left.now.drawn ≡ Some left_keys → right.now.drawn ≡ Some right_keys
            → result ≡ right_threshold (sides_of self.now.weights left.now right.now) left_keys right_keys }
    {
        if right.ended {
            return None;
        }
        match (&left.drawn, &right.drawn) {
            (Some(left_keys), Some(right_keys)) => {
                Some(self.pair_key(&left_keys.first, &right_keys.last))
            }
            _ => None,
        }
    }

    /// The key of a pair, of a key of each side.
    fn pair_key(&self, left: &Key, right: &Key) -> Key
        requires { CanMerge self.now.weights self.now.left.side.terms self.now.right.side.terms left.now right.now }
        ensures { result ≡ pair_key self.now left.now right.now }
    {
        let evaluated = (left.bound - self.left_rest) + (right.bound - self.right_rest);
        Key {
            bound: evaluated + self.above,
            ids: left.ids.merge(&right.ids),
        }
    }

    /// The left side has no more rows.
    pub fn left_ended(&mut self)
        requires { CanEnd NeedLeft self.old }
        ensures { self.new ≡ left_ended self.old }
    {
        self.left.end();
        self.to_left = None;
    }

    /// The right side has no more rows.
    pub fn right_ended(&mut self)
        requires { CanEnd NeedRight self.old }
        ensures { self.new ≡ right_ended self.old }
    {
        self.right.end();
        self.to_right = None;
    }

    /// Takes a pair of rows of both sides.
    ///
    /// # Errors
    ///
    /// - `Memory`: at any call; the operator is spent from then on.
    pub fn found(&mut self, row: RankRow) -> Result<(), Memory>
        requires { CanFind row self.old }
        ensures ok { OnOk result (self.new ≡ found row self.old) }
        ensures err { OnErr result (self.new ≡ record self.old { spent = true }) }
    {
        let key = self.full_key(&row);
        match self.held.push(key, row.sum) {
            Ok(()) => Ok(()),
            Err(_) => {
                self.give_up();
                Err(Memory)
            }
        }
    }

    /// The key of a pair, by the terms of both sides.
    fn full_key(&self, row: &RankRow) -> Key
        requires { HasSum self.now.weights (bit_or self.now.left.side.terms self.now.right.side.terms) row.now }
        ensures { result ≡ full_key self.now row.now }
    {
        Key {
            bound: row.sum + self.above,
            ids: row.ids,
        }
    }

    /// Takes the pair of a left row and a right row, if they match.
    ///
    /// # Errors
    ///
    /// - `Memory`: at any call, be it of the core or of the matcher; the core is spent from then on.
    pub fn try_pair<M: Matcher>(
        &mut self,
        left: &RankRow,
        right: &RankRow,
        matcher: &mut M,
    ) -> Result<(), Memory>
        requires alive { self.old.spent ≡ false }
        requires rows { CanMergeRows left.now right.now }
        requires pair { M.truth matcher.old left.now right.now ≡ true → CanFind (merge_row left.now right.now) self.old }
        ensures ok { OnOk result (self.new ≡ (if M.truth matcher.old left.now right.now then found (merge_row left.now right.now) self.old else self.old)) }
        ensures err { OnErr result (self.new ≡ record self.old { spent = true }) }
        ensures truth { M.truth matcher.new ≡ M.truth matcher.old }
        ensures calls { M.calls matcher.new ≡ raised (M.calls matcher.old) }
    {
        match matcher.matches(left, right) {
            Ok(true) => self.found(left.merge(right)),
            Ok(false) => Ok(()),
            Err(Memory) => {
                self.give_up();
                Err(Memory)
            }
        }
    }

    /// Memory ran out elsewhere, while pairs were still to be told: no further call is allowed.
    pub fn give_up(&mut self)
        ensures { self.new ≡ record self.old { spent = true } }
    {
        self.spent = true;
    }

    /// Takes the first held pair, if the join is ready.
    ///
    /// # Errors
    ///
    /// - `None`: exactly where the operator isn't ready. Then nothing changes.
    pub fn take(&mut self) -> Option<RankRow>
        requires { self.old.spent ≡ false }
        ensures row { result ≡ taken_for (ask_of self.old) self.old }
        ensures left { self.new ≡ left_for (ask_of self.old) self.old }
    {
        match self.ask() {
            JoinAsk::Ready => self.take_ready(),
            JoinAsk::NeedLeft => None,
            JoinAsk::NeedRight => None,
            JoinAsk::End => None,
        }
    }

    /// Takes the first held pair of a join that is ready.
    ///
    /// # Errors
    ///
    /// - `None`: never, since the join has to be ready.
    pub fn take_ready(&mut self) -> Option<RankRow>
        requires alive { self.old.spent ≡ false }
        requires ready { ask_of self.old ≡ Ready }
        ensures row { result ≡ taken_for (ask_of self.old) self.old }
        ensures left { self.new ≡ left_for (ask_of self.old) self.old }
    {
        match self.held.pop() {
            Some((key, sum)) => {
                self.taken = Some(key);
                Some(RankRow { ids: key.ids, sum })
            }
            None => None,
        }
    }
}

/// What is done next, by both thresholds and the first key held.
fn ask_first(to_left: &Option<Key>, to_right: &Option<Key>, first: Option<&Key>) -> JoinAsk
    ensures { result ≡ ask_first to_left.now to_right.now (option_map (λ key. key.now) first.entry) }
{
    match first {
        Some(first) => {
            if is_reached(to_left, first) && is_reached(to_right, first) {
                JoinAsk::Ready
            } else {
                first_side(to_left, to_right)
            }
        }
        None => first_side(to_left, to_right),
    }
}

/// Whether a key comes at or before a threshold.
fn is_reached(threshold: &Option<Key>, key: &Key) -> bool
    ensures { result ≡ is_reached threshold.now key.now }
{
    match threshold {
        Some(threshold) => key.cmp(threshold).is_le(),
        None => true,
    }
}

/// The side whose threshold comes first, the left one on a tie.
fn first_side(left: &Option<Key>, right: &Option<Key>) -> JoinAsk
    ensures { result ≡ first_side left.now right.now }
{
    match (left, right) {
        (None, None) => JoinAsk::End,
        (None, Some(_)) => JoinAsk::NeedRight,
        (Some(_), None) => JoinAsk::NeedLeft,
        (Some(left), Some(right)) => {
            if left.cmp(right).is_gt() {
                JoinAsk::NeedRight
            } else {
                JoinAsk::NeedLeft
            }
        }
    }
}
