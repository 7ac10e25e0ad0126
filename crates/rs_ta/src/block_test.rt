ghost use Rattle.std.specs.Prelude.{◌≡◌, IfOk, IsOk, length};
ghost use Rattle.rs_query.specs.Tables.{size_of};
ghost use Rattle.rs_query.specs.WellFormed.{IsBlock};
ghost use Rattle.rs_ta.specs.BlockTests.{holds_on};
ghost use Rattle.rs_ta.specs.Lists.{IsRow};

use crate::row_test::RowTest;
use rs_catalog::{Catalog, Snapshot};
use rs_query::Block;
use rs_rank::Ids;
use rs_value::Memory;
use std::marker::Model;

/// Whether all conditions of a block hold on a row. The block has one FROM entry.
#[derive(Drop)]
pub struct BlockTest<'a> {
    catalog: &'a Catalog,
    block: &'a Block,
}

impl<'a> Model for BlockTest<'a> {
    ghost use Rattle.std.specs.Prelude.{◌≡◌, length};
    ghost use Rattle.rs_query.specs.WellFormed.{IsBlock};
    ghost use Rattle.rs_ta.specs.BlockTests.{BlockTestState, block_test_code};

    ghost Value = { BlockTestState };

    ghost coded = { block_test_code };

    ghost view = { λ t. record { catalogue = t.catalog.now; block = t.block.now } };

    ghost invariant = { λ t. IsBlock t.catalog.now t.block.now × (length t.block.now.from ≡ 1) };
}

impl<'a> BlockTest<'a> {
    /// The conditions of a block. It takes no memory.
    pub fn new(catalog: &'a Catalog, block: &'a Block) -> BlockTest<'a>
        requires block { IsBlock catalog.now block.now }
        requires one_entry { length block.now.from ≡ 1 }
        ensures { result ≡ record { catalogue = catalog.now; block = block.now } }
    {
        BlockTest { catalog, block }
    }
}

impl<'a> RowTest for BlockTest<'a> {
    ghost rows = { λ test. size_of test.catalogue test.block 1 };

    ghost truth = { λ test. holds_on test.catalogue test.block };

    /// It takes no memory.
    fn holds(&self, row: u32) -> Result<bool, Memory>
        requires { IsRow (size_of self.now.catalogue self.now.block 1) row }
        ensures truth { IfOk result (λ holds. holds ≡ holds_on self.now.catalogue self.now.block row) }
        ensures given { IsOk result }
    {
        let ids = Ids {
            block: 1,
            mask: 1,
            rows: [row, 0, 0, 0, 0, 0],
        };
        let conjuncts = self.block.within(1);
        let seen = Snapshot::current(self.catalog);
        Ok(self.block.holds(&seen, conjuncts, &ids))
    }
}
