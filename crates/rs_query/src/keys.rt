//! The rows of two columns that have equal cells.

ghost use Rattle.std.specs.Prelude.{◌≡◌, ◌≤◌, ◌++◌, ℕ, IfOk, List, Some, [], ◌∷◌, length};
ghost use Rattle.rs_query.specs.EqualRows.{AreKeys};
ghost use Rattle.rs_query.specs.Searching.{AreEqualRows, HasKinds, cell_of};
ghost use Rattle.rs_query.specs.Tables.{size_of};
ghost use Rattle.rs_query.specs.WellFormed.{IsBlock, IsColumn, column_kind};
ghost use Rattle.rs_value.specs.declared.kind.Kind.TheVariants as kind;
ghost use Rattle.rs_value.specs.declared.value.Value.TheVariants as value;

use crate::block::Block;
use crate::equal_rows::{EqualRows, numbered};
use crate::sizes::size_of;
use rs_catalog::Snapshot;
use rs_table::Cell;
use rs_value::{Kind, Memory, Text};
use std::alloc::Global;

impl Block {
    /// For each row of the one column, which rows of the other one have an equal cell. The columns are of one kind.
    pub(crate) fn equal_rows(
        &self,
        alloc: Global,
        catalog: &Snapshot<'_>,
        left: (u8, u8),
        right: (u8, u8),
    ) -> Result<EqualRows, Memory>
        requires block { IsBlock catalog.now self.now }
        requires left { IsColumn catalog.now self.now left }
        requires right { IsColumn catalog.now self.now right }
        requires kinds { column_kind catalog.now self.now left ≡ column_kind catalog.now self.now right }
        ensures { IfOk result (AreEqualRows catalog.now self.now left.0 right.0 ((left, right) ∷ [])) }
    {
        match self.kind(catalog, left) {
            Kind::Int => {
                let lefts = self.numbers(alloc, catalog, left)?;
                let rights = self.numbers(alloc, catalog, right)?;
                EqualRows::of(alloc, &lefts, rights)
            }
            Kind::Text => {
                let lefts = self.texts(alloc, catalog, left)?;
                let rights = self.texts(alloc, catalog, right)?;
                EqualRows::of(alloc, &lefts, rights)
            }
        }
    }

    /// The rows that are equal in some columns, as those that are equal in two more columns too. These are of one kind, and of the
    /// same entries.
    pub(crate) fn refined(
        &self,
        alloc: Global,
        catalog: &Snapshot<'_>,
        rows: EqualRows,
        left: (u8, u8),
        right: (u8, u8),
    ) -> Result<EqualRows, Memory>
        requires block { IsBlock catalog.now self.now }
        requires left { IsColumn catalog.now self.now left }
        requires right { IsColumn catalog.now self.now right }
        requires kinds { column_kind catalog.now self.now left ≡ column_kind catalog.now self.now right }
        requires rows { (columns : List ((ℕ × ℕ) × (ℕ × ℕ))) × AreEqualRows catalog.now self.now left.0 right.0 columns rows }
        ensures { (columns : List ((ℕ × ℕ) × (ℕ × ℕ))) → AreEqualRows catalog.now self.now left.0 right.0 columns rows
            → IfOk result (AreEqualRows catalog.now self.now left.0 right.0 (columns ++ (left, right) ∷ [])) }
    {
        // A table has so few rows that their numbers are u32.
        let _ = size_of(catalog, self, right.0);
        let (left_ends, right_ends) = rows.ends();
        match self.kind(catalog, left) {
            Kind::Int => {
                let lefts = self.numbers(alloc, catalog, left)?;
                let rights = self.numbers(alloc, catalog, right)?;
                let lefts = numbered(alloc, &left_ends, &lefts)?;
                let rights = numbered(alloc, &right_ends, &rights)?;
                EqualRows::of(alloc, &lefts, rights)
            }
            Kind::Text => {
                let lefts = self.texts(alloc, catalog, left)?;
                let rights = self.texts(alloc, catalog, right)?;
                let lefts = numbered(alloc, &left_ends, &lefts)?;
                let rights = numbered(alloc, &right_ends, &rights)?;
                EqualRows::of(alloc, &lefts, rights)
            }
        }
    }

    /// The kind of a column and of its cells.
    pub(crate) fn kind(&self, catalog: &Snapshot<'_>, column: (u8, u8)) -> Kind
        requires block { IsBlock catalog.now self.now }
        requires column { IsColumn catalog.now self.now column }
        ensures value { column_kind catalog.now self.now column ≡ Some result }
        ensures cells { HasKinds catalog.now self.now column }
    {
        self.table(catalog, column.0).schema().columns()[column.1 as usize].1
    }

    /// The numbers of a column of numbers, row by row.
    fn numbers(
        &self,
        alloc: Global,
        catalog: &Snapshot<'_>,
        column: (u8, u8),
    ) -> Result<Vec<i64>, Memory>
        requires block { IsBlock catalog.now self.now }
        requires column { IsColumn catalog.now self.now column }
        requires kind { column_kind catalog.now self.now column ≡ Some kind.Int }
        ensures keys { IfOk result (λ numbers. AreKeys value.Int (cell_of catalog.now self.now column) (size_of catalog.now self.now column.0) numbers.items) }
        ensures few { IfOk result (λ numbers. length numbers.items ≤ 131072) }
    {
        let table = self.table(catalog, column.0);
        let mut numbers = Vec::new(alloc);
        for row in 0..table.len() {
            match table.cell(row + 1, column.1) {
                Cell::Number(number) => numbers.push(number)?,
                Cell::Text(_) => unreachable!(),
            }
        }
        Ok(numbers)
    }

    /// The texts of a column of texts, row by row.
    fn texts<'a>(
        &self,
        alloc: Global,
        catalog: &Snapshot<'a>,
        column: (u8, u8),
    ) -> Result<Vec<&'a Text>, Memory>
        requires block { IsBlock catalog.now self.now }
        requires column { IsColumn catalog.now self.now column }
        requires kind { column_kind catalog.now self.now column ≡ Some kind.Text }
        ensures keys { IfOk result (λ texts. AreKeys (λ text. value.Text text.now) (cell_of catalog.now self.now column) (size_of catalog.now self.now column.0) texts.items) }
        ensures few { IfOk result (λ texts. length texts.items ≤ 131072) }
    {
        let table = self.table(catalog, column.0);
        let mut texts = Vec::new(alloc);
        for row in 0..table.len() {
            texts.push(table.text(row + 1, column.1))?;
        }
        Ok(texts)
    }
}
