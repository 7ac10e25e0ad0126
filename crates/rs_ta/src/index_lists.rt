ghost use Rattle.std.specs.Prelude.{◌≡◌, ◌-◌, ◌^◌, length, min};
ghost use Rattle.rs_ta.specs.Lists.{AreUnaccessed, total};
ghost use Rattle.rs_ta.specs.IndexLists.{AreOfOneTable, AreRankings, index_lists_state, new_index_lists};

use crate::access_counts::{raise, sum_of};
use crate::lists::Lists;
use rs_catalog::Catalog;
use std::marker::Model;

/// The rank indexes of one table, as lists. An index may be more than one list: each is counted for itself. Random accesses are
/// counted alone, and none is told: that would take memory at each.
#[derive(Drop)]
pub struct IndexLists<'a> {
    catalog: &'a Catalog,
    indexes: Vec<u8>,
    // How many rows the table has.
    rows: u32,
    sorted: [u64; 8],
    random: [u64; 8],
}

impl<'a> Model for IndexLists<'a> {
    ghost use Rattle.rs_ta.specs.IndexLists.{AreRankings, IndexListsState, index_lists_code};

    ghost Value = { IndexListsState };

    ghost coded = { index_lists_code };

    ghost view = { λ m. record { catalogue = m.catalog.now; indexes = m.indexes.items; sorted = m.sorted; random = m.random } };

    ghost invariant = { λ m. AreRankings m.catalog.now m.indexes.items m.rows };
}

impl<'a> IndexLists<'a> {
    /// The lists of the indexes of these numbers, in this order, of which none was accessed. It takes no memory.
    pub fn new(catalog: &'a Catalog, indexes: Vec<u8>) -> IndexLists<'a>
        requires { AreOfOneTable catalog.now indexes.items }
        ensures value { result ≡ new_index_lists catalog.now indexes.items }
        ensures unaccessed { AreUnaccessed (index_lists_state result) }
    {
        let rows = rows_of(catalog, indexes.as_slice());
        IndexLists {
            catalog,
            indexes,
            rows,
            sorted: [0; 8],
            random: [0; 8],
        }
    }

    /// The sums of the sorted and of the random accesses of all lists. A sum that passes 2^64 - 1 is given as that.
    pub fn counts(&self) -> (u64, u64)
        ensures sorted { result.0 ≡ min (total (length self.now.indexes) (index_lists_state self.now).sorted_count) (2 ^ 64 - 1) }
        ensures random { result.1 ≡ min (total (length self.now.indexes) (index_lists_state self.now).random_count) (2 ^ 64 - 1) }
    {
        let lists = self.indexes.len();
        (sum_of(&self.sorted, lists), sum_of(&self.random, lists))
    }
}

impl<'a> Lists for IndexLists<'a> {
    ghost state = { index_lists_state };

    fn lists(&self) -> u8 {
        self.indexes.len() as u8
    }

    fn sorted(&mut self, list: u8) -> Option<(u32, u32)> {
        let place = self.sorted[usize::from(list - 1)];
        if place >= u64::from(self.rows) {
            return None;
        }
        let index = self.indexes[usize::from(list - 1)];
        raise(&mut self.sorted, list);
        Some(self.catalog.index_row(index, place as u32 + 1))
    }

    fn random(&mut self, list: u8, row: u32) -> u32 {
        let index = self.indexes[usize::from(list - 1)];
        raise(&mut self.random, list);
        self.catalog.score_of(index, row)
    }
}

/// How many rows the table of these indexes has. Each of their rankings has each of them once.
fn rows_of(catalog: &Catalog, indexes: &[u8]) -> u32
    requires { AreOfOneTable catalog.now indexes.now }
    ensures { AreRankings catalog.now indexes.now result }
{
    catalog.limits_hold();
    let mut rows = 0;
    for index in indexes {
        rows = catalog.table(catalog.index(*index).table).len();
    }
    rows
}
