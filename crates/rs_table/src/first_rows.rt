ghost use Rattle.std.specs.Prelude.{◌≡◌, ◌≤◌, ◌<◌, ◌==◌, length, slice_get, true, ℕ, List as Seq, Some};
ghost use Rattle.std.specs.List.{AllByRecursion};
ghost use Rattle.rs_value.specs.Value.{fits};
ghost use Rattle.rs_value.specs.declared.kind.Kind.TheVariants as kind;
ghost use Rattle.rs_value.specs.declared.value.Value.TheVariants as value;
ghost use Rattle.rs_table.specs.Column.{Column};
ghost use Rattle.rs_table.specs.FirstRows.{first_rows};
ghost use Rattle.rs_table.specs.Lent.{shown};
ghost use Rattle.rs_table.specs.Relation.{cell_at, most_rows, row_fits};
ghost use Rattle.rs_table.specs.Texts.{column_texts, text_number};

use crate::cell::Cell;
use crate::schema::Schema;
use crate::table::Table;
use rs_value::Text;
use std::marker::Model;

/// The first rows of a table: the table as it was when it had so many. Rows that join it later are none of them.
#[derive(Drop)]
pub struct FirstRows<'a> {
    table: &'a Table,
    len: u32,
}

impl<'a> Model for FirstRows<'a> {
    ghost use Rattle.std.specs.Prelude.{◌≤◌, length};
    ghost use Rattle.rs_table.specs.FirstRows.{first_rows};
    ghost use Rattle.rs_table.specs.Relation.{Relation};

    ghost Value = { Relation };

    ghost view = { λ f. first_rows f.len f.table.now };

    ghost invariant = { λ f. f.len ≤ length f.table.now.rows };
}

impl<'a> FirstRows<'a> {
    /// So many rows of a table.
    pub fn of(table: &'a Table, len: u32) -> FirstRows<'a>
        requires { len ≤ length table.now.rows }
        ensures { result ≡ first_rows len table.now }
    {
        FirstRows { table, len }
    }

    /// The columns.
    pub fn schema(&self) -> &'a Schema
        ensures value { result.now ≡ self.now.schema }
        ensures rows_fit { AllByRecursion (λ row. row_fits self.now.schema row ≡ true) self.now.rows }
    {
        self.table.schema()
    }

    /// How many rows there are.
    pub fn len(&self) -> u32
        ensures value { result ≡ length self.now.rows }
        ensures few { result ≤ most_rows }
    {
        let _ = self.table.len();
        self.len
    }

    /// Whether there is no row.
    pub fn is_empty(&self) -> bool
        ensures { result ≡ (length self.now.rows == 0) }
    {
        self.len == 0
    }

    /// The cell of a row, counted from 1, and a column, counted from 0. It takes no memory.
    pub fn cell(&self, row: u32, column: u8) -> Cell<'a>
        requires some_row { 1 ≤ row }
        requires row_in { row ≤ length self.now.rows }
        requires column_in { column < length self.now.schema }
        ensures cell { cell_at self.now row column ≡ Some (shown result) }
        ensures fits { (c : Column) → slice_get self.now.schema column ≡ Some c → fits c.1 (shown result) ≡ true }
    {
        self.table.cell(row, column)
    }

    /// The text of a row, counted from 1, and a column of texts, counted from 0. It takes no memory.
    pub fn text(&self, row: u32, column: u8) -> &'a Text
        requires some_row { 1 ≤ row }
        requires row_in { row ≤ length self.now.rows }
        requires texts { (name : Seq ℕ) × (slice_get self.now.schema column ≡ Some (name, kind.Text)) }
        ensures { cell_at self.now row column ≡ Some (value.Text result.now) }
    {
        self.table.text(row, column)
    }

    /// The number of the text of a row, counted from 1, and a column of texts, counted from 0, as `Table::text_number` tells it.
    pub fn text_number(&self, row: u32, column: u8) -> u32
        requires some_row { 1 ≤ row }
        requires row_in { row ≤ length self.now.rows }
        requires texts { (name : Seq ℕ) × (slice_get self.now.schema column ≡ Some (name, kind.Text)) }
        ensures { (text : Seq ℕ) → cell_at self.now row column ≡ Some (value.Text text) → result ≡ text_number text (column_texts self.now column) }
    {
        self.table.text_number(row, column)
    }
}
