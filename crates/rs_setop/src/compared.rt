ghost use Rattle.std.specs.Prelude.{◌≡◌, Bool, false, true, OnOk, OnErr};
ghost use Rattle.rs_rank.specs.declared.ask.JoinAsk.TheVariants.{NeedLeft, NeedRight};
ghost use Rattle.rs_rank.specs.Rows.{HasSum};
ghost use Rattle.rs_rank.specs.Weights.{IsWeights};
ghost use Rattle.rs_setop.specs.Compared.{ask_of, is_unwanted, left_ended, left_fed, left_for, new_compared, passed, right_ended, right_fed, settled, taken_for};
ghost use Rattle.rs_setop.specs.Held.{held_of, row_of};

use crate::held::Head;
use crate::reached::Reached;
use rs_outputs::Outputs;
use rs_rank::{JoinAsk, RankRow, Weights};
use rs_value::{Memory, Value};
use std::alloc::Global;
use std::marker::{Model, PhantomData};

/// Which left rows a comparison gives: those whose output values the right side has, or those whose values it hasn't.
pub trait Choice {
    ghost use Rattle.std.specs.Prelude.{◌≡◌, Bool};

    ghost shared: { Bool };

    fn is_shared() -> bool
        ensures { result ≡ Self.shared };
}

/// The rows whose values the right side has.
pub struct SharedRows;

impl Choice for SharedRows {
    ghost use Rattle.std.specs.Prelude.{true};

    ghost shared = { true };

    fn is_shared() -> bool {
        true
    }
}

/// The rows whose values the right side hasn't.
pub struct OtherRows;

impl Choice for OtherRows {
    ghost use Rattle.std.specs.Prelude.{false};

    ghost shared = { false };

    fn is_shared() -> bool {
        false
    }
}

/// The core of INTERSECT.
pub type IntersectCore = Compared<SharedRows>;

/// The core of EXCEPT.
pub type ExceptCore = Compared<OtherRows>;

/// The core of INTERSECT or EXCEPT over two sides, whose rows come in the order of their keys, both by the same terms. It
/// knows no sides: it says which one it needs, is fed, and gives the left rows of its choice, of rows with the same values
/// the first.
///
/// The right side is asked only for a left row, and no further than rows to come can have that row's values: equal output
/// values are to have equal bounds. After a call that answered `Memory` the core is spent, and no further call is allowed.
#[derive(Drop)]
pub struct Compared<C: Choice> {
    weights: Weights,
    terms: u8,
    choice: PhantomData<C>,
    left: Head,
    // The output values of the left rows that were taken or dropped. There is room for those of the held row.
    passed: Outputs,
    right: Reached,
    spent: bool,
}

impl<C: Choice> Model for Compared<C> {
    ghost use Rattle.std.specs.Prelude.{◌≤◌};
    ghost use Rattle.rs_rank.specs.Weights.{IsWeights};
    ghost use Rattle.rs_setop.specs.Compared.{Comparison};
    ghost use Rattle.rs_setop.specs.Held.{count_of};

    ghost Value = { Comparison };

    ghost view = { λ c. record {
      weights = c.weights;
      terms = c.terms;
      shared = C.shared;
      left = c.left;
      passed = c.passed.lists;
      right = c.right;
      spent = c.spent;
    } };

    ghost invariant = { λ c. IsWeights c.weights × (count_of c.left ≤ c.passed.room) };
}

impl<C: Choice> Compared<C> {
    /// The operator over sides on whose rows `terms` are evaluated. It takes no memory.
    pub fn new(alloc: Global, weights: Weights, terms: u8) -> Compared<C>
        requires { IsWeights weights }
        ensures { result ≡ new_compared weights terms C.shared }
    {
        Compared {
            weights,
            terms,
            choice: PhantomData,
            left: Head::Unknown,
            passed: Outputs::new(alloc),
            right: Reached::new(alloc),
            spent: false,
        }
    }

    /// What is done next: the right side is asked until none of its rows to come can have the held row's values. The
    /// left side is asked where no row of it is held, and where that side has ended it is `End`.
    pub fn ask(&self) -> JoinAsk
        requires { self.now.spent ≡ false }
        ensures ask { result ≡ ask_of self.now }
        ensures shared { self.now.shared ≡ C.shared }
    {
        match &self.left {
            Head::Unknown => JoinAsk::NeedLeft,
            Head::Held(held) => {
                if self.right.is_past(held.key.bound) {
                    JoinAsk::Ready
                } else {
                    JoinAsk::NeedRight
                }
            }
            Head::Ended => JoinAsk::End,
        }
    }

    /// Takes the left side's next row, and its output values. A row whose values a left row had before is dropped at
    /// once.
    ///
    /// # Errors
    ///
    /// - `Memory`: at any call; the operator is spent from then on.
    pub fn feed_left(&mut self, row: RankRow, values: Vec<Value>) -> Result<(), Memory>
        requires alive { self.old.spent ≡ false }
        requires need { ask_of self.old ≡ NeedLeft }
        requires sum { HasSum self.old.weights self.old.terms row }
        ensures ok { OnOk result (self.new ≡ left_fed row values.items self.old) }
        ensures err { OnErr result (self.new ≡ record self.old { spent = true }) }
    {
        if self.passed.has(&values) {
            return Ok(());
        }
        if self.passed.make_room(1).is_err() {
            self.spent = true;
            return Err(Memory);
        }
        self.left = Head::of(&self.weights, self.terms, row, values);
        self.drop_unwanted();
        Ok(())
    }

    /// Takes the right side's next row, and its output values. Once that side is past the bound of the held row, the row is
    /// dropped where it isn't of the choice.
    ///
    /// # Errors
    ///
    /// - `Memory`: at any call; the operator is spent from then on.
    pub fn feed_right(&mut self, row: RankRow, values: Vec<Value>) -> Result<(), Memory>
        requires alive { self.old.spent ≡ false }
        requires need { ask_of self.old ≡ NeedRight }
        requires sum { HasSum self.old.weights self.old.terms row }
        ensures ok { OnOk result (self.new ≡ right_fed row values.items self.old) }
        ensures err { OnErr result (self.new ≡ record self.old { spent = true }) }
    {
        let key = row.key(&self.weights, self.terms);
        if self.right.feed(key.bound, values).is_err() {
            self.spent = true;
            return Err(Memory);
        }
        self.drop_unwanted();
        Ok(())
    }

    /// The left side has no more rows.
    pub fn left_ended(&mut self)
        requires alive { self.old.spent ≡ false }
        requires need { ask_of self.old ≡ NeedLeft }
        ensures { self.new ≡ left_ended self.old }
    {
        self.left = Head::Ended;
    }

    /// The right side has no more rows.
    pub fn right_ended(&mut self)
        requires alive { self.old.spent ≡ false }
        requires need { ask_of self.old ≡ NeedRight }
        ensures { self.new ≡ right_ended self.old }
    {
        self.right.end();
        self.drop_unwanted();
    }

    /// Takes the held row, if the right side was asked far enough for it.
    ///
    /// # Errors
    ///
    /// - `None`: exactly where the operator isn't ready. Then nothing changes.
    pub fn take(&mut self) -> Option<RankRow>
        requires { self.old.spent ≡ false }
        ensures row { result ≡ taken_for (ask_of self.old) self.old }
        ensures left { self.new ≡ left_for (ask_of self.old) self.old }
    {
        match self.ask() {
            JoinAsk::Ready => self.pass(),
            JoinAsk::NeedLeft => None,
            JoinAsk::NeedRight => None,
            JoinAsk::End => None,
        }
    }

    /// Drops the held row where the right side was asked far enough for it, and it isn't one of those that count.
    fn drop_unwanted(&mut self)
        ensures { self.new ≡ settled self.old }
    {
        if self.is_unwanted() {
            let _ = self.pass();
        }
    }

    /// Whether that row is to be dropped.
    fn is_unwanted(&self) -> bool
        ensures { result ≡ is_unwanted self.now }
    {
        match &self.left {
            Head::Unknown => false,
            Head::Held(held) => {
                self.right.is_past(held.key.bound)
                    && self.right.has(held.values.items()) != C::is_shared()
            }
            Head::Ended => false,
        }
    }

    /// Takes the held row out, and keeps its output values.
    fn pass(&mut self) -> Option<RankRow>
        ensures row { result ≡ row_of (held_of self.old.left) }
        ensures passed { self.new ≡ passed self.old }
    {
        match self.left.take() {
            Some(held) => {
                self.passed.add_in_room(held.values.into_items());
                Some(held.row)
            }
            None => None,
        }
    }
}
