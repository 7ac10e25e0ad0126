ghost use Rattle.std.specs.Prelude.{◌≡◌, ◌≤◌, ◌<◌, Some, length, option_map, slice_get};
ghost use Rattle.std.specs.List.{AllByRecursion, filter};
ghost use Rattle.rs_table.specs.Relation.{most_rows};
ghost use Rattle.rs_catalog.specs.After.{first_entry, is_behind};
ghost use Rattle.rs_catalog.specs.Catalog.{greatest_max};
ghost use Rattle.rs_catalog.specs.Indexes.{IsIndex, IsRanking, predicate_for, ranking_at, rows_for};
ghost use Rattle.rs_catalog.specs.Snapshot.{HaveRows, snapshot};

use crate::catalog::Catalog;
use crate::index::IndexDef;
use rs_expr::Predicate;
use rs_table::FirstRows;
use std::marker::Model;

/// A catalogue as it is, or as it was when its tables had so many rows. Rows that join later are in none of its tables and indexes;
/// tables that join later have no rows in it.
#[derive(Drop)]
pub struct Snapshot<'a> {
    catalog: &'a Catalog,
    sizes: Option<&'a [u32]>,
}

impl<'a> Model for Snapshot<'a> {
    ghost use Rattle.std.specs.Prelude.{IfSome, option_map};
    ghost use Rattle.rs_catalog.specs.Catalog.{CatalogDef};
    ghost use Rattle.rs_catalog.specs.Snapshot.{HaveRows, seen_of};
    ghost use Rattle.rs_catalog.specs.Stored.{catalogue_code};

    ghost Value = { CatalogDef };

    ghost coded = { catalogue_code };

    ghost view = { λ s. seen_of (option_map (λ sizes. sizes.now) s.sizes) s.catalog.now };

    ghost invariant = { λ s. IfSome s.sizes (λ sizes. HaveRows sizes.now s.catalog.now.tables) };
}

impl<'a> Snapshot<'a> {
    /// A catalogue as it was when its tables had so many rows. A table for which no number is given has none.
    pub fn of(catalog: &'a Catalog, sizes: &'a [u32]) -> Snapshot<'a>
        requires { HaveRows sizes.now catalog.now.tables }
        ensures { result ≡ snapshot sizes.now catalog.now }
    {
        Snapshot {
            catalog,
            sizes: Some(sizes),
        }
    }

    /// A catalogue as it is.
    pub fn current(catalog: &'a Catalog) -> Snapshot<'a>
        ensures { result ≡ catalog.now }
    {
        Snapshot {
            catalog,
            sizes: None,
        }
    }

    /// No table has more than 131,072 rows, and no predicate a MAX above 4,294,967,295. It computes nothing; it is called for its
    /// contract.
    pub fn limits_hold(&self)
        ensures rows { AllByRecursion (λ t. length t.table.rows ≤ most_rows) self.now.tables }
        ensures scores { AllByRecursion (λ p. p.max ≤ greatest_max) self.now.predicates }
    {
        self.catalog.limits_hold();
    }

    /// How many rows the table of this number has.
    fn size(&self, number: u8) -> u32
        requires { number < length self.now.tables }
        ensures { option_map (λ t. length t.table.rows) (slice_get self.now.tables number) ≡ Some result }
    {
        match self.sizes {
            None => self.catalog.table(number).len(),
            Some(sizes) => match sizes.get(number as usize) {
                Some(size) => *size,
                None => 0,
            },
        }
    }

    /// The table of this number.
    pub fn table(&self, number: u8) -> FirstRows<'a>
        requires { number < length self.now.tables }
        ensures { option_map (λ t. t.table) (slice_get self.now.tables number) ≡ Some result }
    {
        FirstRows::of(self.catalog.table(number), self.size(number))
    }

    /// The predicate of this number.
    pub fn predicate(&self, number: u8) -> &'a Predicate
        requires { number < length self.now.predicates }
        ensures { slice_get self.now.predicates number ≡ Some result.now }
    {
        self.catalog.predicate(number)
    }

    /// What the index of this number is of. Its ranking has each row of its table once.
    pub fn index(&self, number: u8) -> &'a IndexDef
        requires { number < length self.now.indexes }
        ensures value { option_map (λ i. i.def) (slice_get self.now.indexes number) ≡ Some result.now }
        ensures fits { IsIndex self.now result.now }
        ensures ranking { IsRanking (length (rows_for self.now result.now)) (predicate_for self.now result.now).max
            (ranking_at self.now number) }
    {
        self.catalog.index(number)
    }

    /// The score and the row of the first entry of an index that comes behind `after`; without `after` of its first entry. It
    /// takes no memory.
    ///
    /// # Errors
    ///
    /// - `None`: exactly where no entry comes behind `after`.
    pub fn index_after(&self, index: u8, after: Option<(u32, u32)>) -> Option<(u32, u32)>
        requires { index < length self.now.indexes }
        ensures { result ≡ first_entry (filter (is_behind after) (ranking_at self.now index)) }
    {
        let table = self.catalog.index(index).table;
        self.catalog.index_after(index, after, self.size(table))
    }
}
