//! Which rows a set operator gives.

ghost use Rattle.std.specs.Prelude.{◌≡◌, OnOk, false};
ghost use Rattle.rs_rank.specs.Rows.{HasSum};
ghost use Rattle.rs_rank.specs.Weights.{IsWeights};
ghost use Rattle.rs_rank.specs.declared.ask.JoinAsk.TheVariants.{NeedLeft, NeedRight};
ghost use Rattle.rs_exec.specs.SetCores.{core_ask, is_spent, left_ended, left_fed, left_in, new_core, right_ended, right_fed, taken_from, terms_of_core, weights_of_core};

use rs_rank::{JoinAsk, RankRow, Weights};
use rs_setop::{ExceptCore, IntersectCore, UnionAllCore, UnionCore};
use rs_value::{Memory, SetOp, Value};
use std::alloc::Global;

/// The core of a set operator over two sides.
#[derive(Drop)]
pub(crate) enum SetCore {
    UnionAll(UnionAllCore),
    Union(UnionCore),
    Intersect(IntersectCore),
    Except(ExceptCore),
}

impl SetCore {
    /// The core of an operator over sides on whose rows `terms` are evaluated. No side was asked.
    pub(crate) fn new(alloc: Global, op: SetOp, weights: Weights, terms: u8) -> SetCore
        requires { IsWeights weights }
        ensures { result ≡ new_core op weights terms }
    {
        match op {
            SetOp::UnionAll => SetCore::UnionAll(UnionAllCore::new(alloc, weights, terms)),
            SetOp::Union => SetCore::Union(UnionCore::new(alloc, weights, terms)),
            SetOp::Intersect => SetCore::Intersect(IntersectCore::new(alloc, weights, terms)),
            SetOp::Except => SetCore::Except(ExceptCore::new(alloc, weights, terms)),
        }
    }

    /// What the operator does next.
    pub(crate) fn ask(&self) -> JoinAsk
        requires { is_spent self.now ≡ false }
        ensures { result ≡ core_ask self.now }
    {
        match self {
            SetCore::UnionAll(core) => core.ask(),
            SetCore::Union(core) => core.ask(),
            SetCore::Intersect(core) => core.ask(),
            SetCore::Except(core) => core.ask(),
        }
    }

    /// Takes the left side's next row, and its output values.
    pub(crate) fn feed_left(&mut self, row: RankRow, values: Vec<Value>) -> Result<(), Memory>
        requires alive { is_spent self.old ≡ false }
        requires need { core_ask self.old ≡ NeedLeft }
        requires sum { HasSum (weights_of_core self.old) (terms_of_core self.old) row }
        ensures { OnOk result (self.new ≡ left_fed row values.items self.old) }
    {
        match self {
            SetCore::UnionAll(core) => core.feed_left(row, values),
            SetCore::Union(core) => core.feed_left(row, values),
            SetCore::Intersect(core) => core.feed_left(row, values),
            SetCore::Except(core) => core.feed_left(row, values),
        }
    }

    /// Takes the right side's next row, and its output values.
    pub(crate) fn feed_right(&mut self, row: RankRow, values: Vec<Value>) -> Result<(), Memory>
        requires alive { is_spent self.old ≡ false }
        requires need { core_ask self.old ≡ NeedRight }
        requires sum { HasSum (weights_of_core self.old) (terms_of_core self.old) row }
        ensures { OnOk result (self.new ≡ right_fed row values.items self.old) }
    {
        match self {
            SetCore::UnionAll(core) => core.feed_right(row, values),
            SetCore::Union(core) => core.feed_right(row, values),
            SetCore::Intersect(core) => core.feed_right(row, values),
            SetCore::Except(core) => core.feed_right(row, values),
        }
    }

    /// The left side has no row more.
    pub(crate) fn end_left(&mut self)
        requires alive { is_spent self.old ≡ false }
        requires need { core_ask self.old ≡ NeedLeft }
        ensures { self.new ≡ left_ended self.old }
    {
        match self {
            SetCore::UnionAll(core) => core.left_ended(),
            SetCore::Union(core) => core.left_ended(),
            SetCore::Intersect(core) => core.left_ended(),
            SetCore::Except(core) => core.left_ended(),
        }
    }

    /// The right side has no row more.
    pub(crate) fn end_right(&mut self)
        requires alive { is_spent self.old ≡ false }
        requires need { core_ask self.old ≡ NeedRight }
        ensures { self.new ≡ right_ended self.old }
    {
        match self {
            SetCore::UnionAll(core) => core.right_ended(),
            SetCore::Union(core) => core.right_ended(),
            SetCore::Intersect(core) => core.right_ended(),
            SetCore::Except(core) => core.right_ended(),
        }
    }

    /// Takes the row that comes next, if the operator is ready.
    pub(crate) fn take(&mut self) -> Option<RankRow>
        requires { is_spent self.old ≡ false }
        ensures row { result ≡ taken_from self.old }
        ensures left { self.new ≡ left_in self.old }
    {
        match self {
            SetCore::UnionAll(core) => core.take(),
            SetCore::Union(core) => core.take(),
            SetCore::Intersect(core) => core.take(),
            SetCore::Except(core) => core.take(),
        }
    }
}
