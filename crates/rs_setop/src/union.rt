ghost use Rattle.std.specs.Prelude.{◌≡◌, Bool, false, true, Ok, OnOk, OnErr};
ghost use Rattle.rs_rank.specs.declared.ask.JoinAsk.TheVariants.{NeedLeft, NeedRight};
ghost use Rattle.rs_rank.specs.Rows.{HasSum};
ghost use Rattle.rs_rank.specs.Weights.{IsWeights};
ghost use Rattle.rs_setop.specs.Heads.{ask_of};
ghost use Rattle.rs_setop.specs.Union.{first_was_taken, left_ended, left_fed, left_for, new_union, right_ended, right_fed, settled, taken_for};

use crate::heads::Heads;
use crate::held::{Head, HeldRow};
use rs_outputs::Outputs;
use rs_rank::{JoinAsk, RankRow, Weights};
use rs_value::{Memory, Value};
use std::alloc::Global;
use std::marker::{Model, PhantomData};

/// Which rows a union gives: all, or of the rows with the same output values the first.
pub trait Repeats {
    ghost use Rattle.std.specs.Prelude.{◌≡◌, Bool};

    ghost distinct: { Bool };

    fn is_distinct() -> bool
        ensures { result ≡ Self.distinct };
}

/// All rows.
pub struct AllRows;

impl Repeats for AllRows {
    ghost use Rattle.std.specs.Prelude.{false};

    ghost distinct = { false };

    fn is_distinct() -> bool {
        false
    }
}

/// The first of the rows with the same output values.
pub struct FirstRows;

impl Repeats for FirstRows {
    ghost use Rattle.std.specs.Prelude.{true};

    ghost distinct = { true };

    fn is_distinct() -> bool {
        true
    }
}

/// The core of UNION ALL.
pub type UnionAllCore = Merged<AllRows>;

/// The core of UNION.
pub type UnionCore = Merged<FirstRows>;

/// The core of UNION ALL or UNION over two sides, whose rows come in the order of their keys, both by the same terms. It knows
/// no sides: it says which one it needs, is fed, and gives the rows of both, or of those with the same output values the first.
///
/// UNION drops a row only once its key comes first and the next row of each side is known. After a call that answered
/// `Memory` its core is spent, and no further call is allowed. UNION ALL takes no memory, and is never spent.
#[derive(Drop)]
pub struct Merged<R: Repeats> {
    weights: Weights,
    terms: u8,
    repeats: PhantomData<R>,
    heads: Heads,
    // The output values of the rows that UNION gave. There is room for those of the held rows.
    taken: Outputs,
    spent: bool,
}

impl<R: Repeats> Model for Merged<R> {
    ghost use Rattle.std.specs.Prelude.{◌≡◌, ◌≤◌, false};
    ghost use Rattle.rs_rank.specs.Weights.{IsWeights};
    ghost use Rattle.rs_setop.specs.Union.{Union, room_for};

    ghost Value = { Union };

    ghost view = { λ u. record {
      weights = u.weights;
      terms = u.terms;
      distinct = R.distinct;
      heads = u.heads;
      taken = u.taken.lists;
      spent = u.spent;
    } };

    ghost invariant = { λ u. IsWeights u.weights × (room_for R.distinct u.heads ≤ u.taken.room) × (R.distinct ≡ false → u.spent ≡ false) };
}

impl<R: Repeats> Merged<R> {
    /// The operator over sides on whose rows `terms` are evaluated. It takes no memory.
    pub fn new(alloc: Global, weights: Weights, terms: u8) -> Merged<R>
        requires { IsWeights weights }
        ensures { result ≡ new_union weights terms R.distinct }
    {
        Merged {
            weights,
            terms,
            repeats: PhantomData,
            heads: Heads::new(),
            taken: Outputs::new(alloc),
            spent: false,
        }
    }

    /// What the operator does next. A side whose next row isn't known is asked, the left one first. Once both are known
    /// it is `Ready` where a row is held, and else `End`.
    pub fn ask(&self) -> JoinAsk
        requires { self.now.spent ≡ false }
        ensures { result ≡ ask_of self.now.heads }
    {
        self.heads.ask()
    }

    /// Takes the left side's next row, and its output values. UNION then drops the row whose key comes first, if the
    /// next row of each side is known and the values of that row were taken.
    ///
    /// # Errors
    ///
    /// - `Memory`: at any call of UNION, which is spent from then on; never under UNION ALL.
    pub fn feed_left(&mut self, row: RankRow, values: Vec<Value>) -> Result<(), Memory>
        requires alive { self.old.spent ≡ false }
        requires need { ask_of self.old.heads ≡ NeedLeft }
        requires sum { HasSum self.old.weights self.old.terms row }
        ensures ok { OnOk result (self.new ≡ left_fed row values.items self.old) }
        ensures err { OnErr result (self.new ≡ record self.old { spent = true }) }
        ensures all { R.distinct ≡ false → result ≡ Ok tt }
    {
        if R::is_distinct() && self.taken.make_room(2).is_err() {
            self.spent = true;
            return Err(Memory);
        }
        self.heads.left = Head::of(&self.weights, self.terms, row, values);
        self.drop_taken();
        Ok(())
    }

    /// Takes the right side's next row, and its output values. UNION then drops the row whose key comes first, if the
    /// next row of each side is known and the values of that row were taken.
    ///
    /// # Errors
    ///
    /// - `Memory`: at any call of UNION, which is spent from then on; never under UNION ALL.
    pub fn feed_right(&mut self, row: RankRow, values: Vec<Value>) -> Result<(), Memory>
        requires alive { self.old.spent ≡ false }
        requires need { ask_of self.old.heads ≡ NeedRight }
        requires sum { HasSum self.old.weights self.old.terms row }
        ensures ok { OnOk result (self.new ≡ right_fed row values.items self.old) }
        ensures err { OnErr result (self.new ≡ record self.old { spent = true }) }
        ensures all { R.distinct ≡ false → result ≡ Ok tt }
    {
        if R::is_distinct() && self.taken.make_room(2).is_err() {
            self.spent = true;
            return Err(Memory);
        }
        self.heads.right = Head::of(&self.weights, self.terms, row, values);
        self.drop_taken();
        Ok(())
    }

    /// The left side has no more rows.
    pub fn left_ended(&mut self)
        requires alive { self.old.spent ≡ false }
        requires need { ask_of self.old.heads ≡ NeedLeft }
        ensures { self.new ≡ left_ended self.old }
    {
        self.heads.left = Head::Ended;
        self.drop_taken();
    }

    /// The right side has no more rows.
    pub fn right_ended(&mut self)
        requires alive { self.old.spent ≡ false }
        requires need { ask_of self.old.heads ≡ NeedRight }
        ensures { self.new ≡ right_ended self.old }
    {
        self.heads.right = Head::Ended;
        self.drop_taken();
    }

    /// Takes the held row whose key comes first, if the operator is ready.
    ///
    /// # Errors
    ///
    /// - `None`: exactly where the operator isn't ready. Then nothing changes.
    pub fn take(&mut self) -> Option<RankRow>
        requires { self.old.spent ≡ false }
        ensures row { result ≡ taken_for (ask_of self.old.heads) self.old }
        ensures left { self.new ≡ left_for (ask_of self.old.heads) self.old }
    {
        match self.heads.ask() {
            JoinAsk::Ready => match self.heads.take_first() {
                Some(HeldRow { row, values, .. }) => {
                    if R::is_distinct() {
                        self.taken.add_in_room(values.into_items());
                    }
                    Some(row)
                }
                None => None,
            },
            JoinAsk::NeedLeft => None,
            JoinAsk::NeedRight => None,
            JoinAsk::End => None,
        }
    }

    /// UNION drops the held row whose key comes first, where the next row of each side is known and its values were taken.
    fn drop_taken(&mut self)
        ensures { self.new ≡ settled self.old }
    {
        if self.first_was_taken() {
            let _ = self.heads.take_first();
        }
    }

    /// Whether that row is to be dropped.
    fn first_was_taken(&self) -> bool
        ensures { result ≡ first_was_taken self.now }
    {
        if !R::is_distinct() || self.heads.ask() != JoinAsk::Ready {
            return false;
        }
        match self.heads.first() {
            Some(held) => self.taken.has(held.values.items()),
            None => false,
        }
    }
}
