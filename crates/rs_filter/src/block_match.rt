ghost use Rattle.std.specs.Prelude.{◌≡◌};
ghost use Rattle.rs_query.specs.WellFormed.{IsBlock};
ghost use Rattle.rs_filter.specs.Conditions.{AreConditions};
ghost use Rattle.rs_filter.specs.Matching.{joins, new_matching};

use crate::choice::is_choice;
use crate::conditions::JoinConditions;
use rs_catalog::Snapshot;
use rs_query::Block;
use rs_rank::{Matcher, RankRow};
use rs_value::Memory;
use std::marker::Model;

/// What matches the rows of two sides of a join. The conjuncts that speak of one side alone are those of the sides. The ones that
/// are left speak of entries of both, and are looked at here. Rows that aren't of the sides, or have a number that isn't that of a row
/// of their table, match nothing.
#[derive(Drop)]
pub struct BlockMatch<'a> {
    catalog: &'a Snapshot<'a>,
    block: &'a Block,
    conditions: &'a JoinConditions,
    calls: u64,
}

impl<'a> Model for BlockMatch<'a> {
    ghost use Rattle.rs_query.specs.WellFormed.{IsBlock};
    ghost use Rattle.rs_filter.specs.Conditions.{AreConditions};
    ghost use Rattle.rs_filter.specs.Matching.{Matching};
    ghost use Rattle.rs_filter.specs.Stored.{matching_code};

    ghost Value = { Matching };

    ghost coded = { matching_code };

    ghost view = { λ m. record {
      catalogue = m.catalog.now;
      block = m.block.now;
      left = m.conditions.now.left;
      right = m.conditions.now.right;
      calls = m.calls;
    } };

    ghost invariant = { λ m. IsBlock m.catalog.now m.block.now × AreConditions m.catalog.now m.block.now m.conditions.now };
}

impl<'a> BlockMatch<'a> {
    /// What matches rows of the block by these conditions.
    pub fn new(
        catalog: &'a Snapshot<'a>,
        block: &'a Block,
        conditions: &'a JoinConditions,
    ) -> BlockMatch<'a>
        requires block { IsBlock catalog.now block.now }
        requires conditions { AreConditions catalog.now block.now conditions.now }
        ensures { result ≡ new_matching catalog.now block.now conditions.now.left conditions.now.right }
    {
        BlockMatch {
            catalog,
            block,
            conditions,
            calls: 0,
        }
    }

    /// How many calls were made. It stands still at 2^64 - 1.
    pub fn calls(&self) -> u64
        ensures { result ≡ self.now.calls }
    {
        self.calls
    }
}

impl<'a> Matcher for BlockMatch<'a> {
    ghost truth = { λ m. joins m.catalogue m.block m.left m.right };

    ghost calls = { λ m. m.calls };

    fn matches(&mut self, left: &RankRow, right: &RankRow) -> Result<bool, Memory> {
        self.calls = self.calls.saturating_add(1);
        let conditions = self.conditions;
        if left.ids.mask != conditions.left
            || !is_choice(conditions.left, &conditions.sizes, &left.ids.rows)
        {
            return Ok(false);
        }
        if right.ids.mask != conditions.right
            || !is_choice(conditions.right, &conditions.sizes, &right.ids.rows)
        {
            return Ok(false);
        }
        let ids = left.ids.merge(&right.ids);
        Ok(self.block.holds(self.catalog, conditions.across, &ids))
    }
}
