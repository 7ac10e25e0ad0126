ghost use Rattle.std.specs.Prelude.{◌≡◌, ◌+◌, ◌<◌, ◌≤◌, ◌^◌, ◌∷◌, ◌++◌, [], ℕ, List as Seq, IfOk, OnOk, Some, length, map, slice_get, slice_index_or};
ghost use Rattle.std.specs.List.{All, AllByRecursion};
ghost use Rattle.rs_value.specs.Value.{kind_of};
ghost use Rattle.rs_value.specs.declared.kind.Kind.TheVariants as kind;
ghost use Rattle.rs_value.specs.declared.value.Value.TheVariants as value;
ghost use Rattle.rs_table.specs.Lent.{shown};
ghost use Rattle.rs_table.specs.Stored.{AreEven, HasRoom, cells_in, kinds_in, pushed, rooms_in, rows_across};
ghost use Rattle.rs_table.specs.Texts.{cells_across, text_number, texts_among};

use crate::cell::Cell;
use crate::cells::Cells;
use rs_value::{Kind, List, Memory, Text, Value};
use std::alloc::Global;
use std::hash::RandomState;
use std::marker::Model;

/// Rows that are kept one column after another. Rows and columns count from 0 here. Room for further rows can be made
/// beforehand, so that they take no memory.
#[derive(Drop)]
pub(crate) struct Columns {
    columns: Vec<Cells>,
    len: u32,
}

impl Model for Columns {
    ghost use Rattle.rs_table.specs.Stored.{AreEven, StoredRows, cells_in, stored_in};

    ghost Value = { StoredRows };

    ghost view = { λ c. stored_in c.len c.columns.items };

    ghost invariant = { λ c. AreEven c.len (cells_in c.columns.items) };
}

impl Columns {
    /// So many rows, whose cells these columns have.
    pub fn of(columns: Vec<Cells>, len: u32) -> Columns
        requires { AreEven len (cells_in columns.items) }
        ensures kinds { result.kinds ≡ kinds_in columns.items }
        ensures rows { result.rows ≡ rows_across len (cells_in columns.items) }
    {
        Columns { columns, len }
    }

    /// How many rows there are.
    pub fn len(&self) -> u32
        ensures { result ≡ length self.now.rows }
    {
        self.len
    }

    /// Makes room for a number of further rows.
    pub fn reserve(&mut self, count: usize) -> Result<(), Memory>
        ensures kinds { self.new.kinds ≡ self.old.kinds }
        ensures rows { self.new.rows ≡ self.old.rows }
        ensures ok { OnOk result (HasRoom count self.new) }
    {
        reserve_all(self.columns.as_mut_slice(), count)
    }

    /// Puts a row last. There is to be room for it, and it takes no memory.
    pub fn push_row(&mut self, row: List<Value>)
        requires kinds { map kind_of row ≡ self.old.kinds }
        requires room { HasRoom 1 self.old }
        requires few { length self.old.rows + 1 < 2 ^ 32 }
        ensures kinds { self.new.kinds ≡ self.old.kinds }
        ensures rows { self.new.rows ≡ self.old.rows ++ row ∷ [] }
        ensures room { (n : ℕ) → HasRoom (n + 1) self.old → HasRoom n self.new }
    {
        push_values(self.columns.as_mut_slice(), row.into_items());
        self.len += 1;
    }

    /// Puts rows last. There is to be room for them, and they take no memory.
    pub fn push_rows(&mut self, rows: Vec<List<Value>>)
        requires kinds { AllByRecursion (λ row. map kind_of row ≡ self.old.kinds) rows.items }
        requires room { HasRoom (length rows.items) self.old }
        requires few { length self.old.rows + length rows.items < 2 ^ 32 }
        ensures kinds { self.new.kinds ≡ self.old.kinds }
        ensures rows { self.new.rows ≡ self.old.rows ++ rows.items }
    {
        for row in rows {
            self.push_row(row);
        }
    }

    /// The same rows.
    pub fn copy(&self) -> Result<Columns, Memory>
        ensures kinds { IfOk result (λ copy. copy.kinds ≡ self.now.kinds) }
        ensures rows { IfOk result (λ copy. copy.rows ≡ self.now.rows) }
    {
        let columns = copied_columns(*self.columns.allocator(), self.columns.as_slice())?;
        Ok(Columns {
            columns,
            len: self.len,
        })
    }

    /// The cell of a row and a column.
    pub fn cell(&self, row: usize, column: usize) -> Cell<'_>
        requires row_in { row < length self.now.rows }
        requires column_in { column < length self.now.kinds }
        ensures { slice_get (slice_index_or self.now.rows row []) column ≡ Some (shown result) }
    {
        self.columns[column].cell(row)
    }

    /// The text of a row and a column of texts.
    pub fn text(&self, row: usize, column: usize) -> &Text
        requires row_in { row < length self.now.rows }
        requires texts { slice_get self.now.kinds column ≡ Some kind.Text }
        ensures { slice_get (slice_index_or self.now.rows row []) column ≡ Some (value.Text result.now) }
    {
        self.columns[column].text(row)
    }

    /// The number of the text of a row and a column of texts.
    pub fn text_number(&self, row: usize, column: usize) -> u32
        requires row_in { row < length self.now.rows }
        requires texts { slice_get self.now.kinds column ≡ Some kind.Text }
        ensures { (text : Seq ℕ) → slice_get (slice_index_or self.now.rows row []) column ≡ Some (value.Text text)
            → result ≡ text_number text (texts_among (cells_across column self.now.rows)) }
    {
        self.columns[column].text_number(row)
    }
}

/// A column without cells for each of these, whose texts are to be hashed by these keys.
pub(crate) fn empty_columns(
    alloc: Global,
    hash_keys: RandomState,
    columns: &[(Text, Kind)],
) -> Result<Vec<Cells>, Memory>
    ensures kinds { IfOk result (λ made. kinds_in made.items ≡ map (λ column. column.1) columns.now) }
    ensures cells { IfOk result (λ made. AreEven 0 (cells_in made.items)) }
{
    let mut made = Vec::with_capacity(alloc, columns.len())?;
    for column in columns {
        made.push(Cells::new(alloc, hash_keys, column.1))?;
    }
    Ok(made)
}

/// The same columns.
fn copied_columns(alloc: Global, columns: &[Cells]) -> Result<Vec<Cells>, Memory>
    ensures kinds { IfOk result (λ copies. kinds_in copies.items ≡ kinds_in columns.now) }
    ensures cells { IfOk result (λ copies. cells_in copies.items ≡ cells_in columns.now) }
{
    let mut copies = Vec::with_capacity(alloc, columns.len())?;
    for column in columns {
        copies.push(column.copy()?)?;
    }
    Ok(copies)
}

/// Makes room for a number of further cells in each column.
fn reserve_all(columns: &mut [Cells], count: usize) -> Result<(), Memory>
    ensures kinds { kinds_in columns.new ≡ kinds_in columns.old }
    ensures cells { cells_in columns.new ≡ cells_in columns.old }
    ensures ok { OnOk result (All (λ room. count ≤ room) (rooms_in columns.new)) }
{
    for cells in columns.iter_mut() {
        cells.reserve(count)?;
    }
    Ok(())
}

/// Puts a value into each column, from the last one on.
fn push_values(columns: &mut [Cells], mut values: Vec<Value>)
    requires kinds { map kind_of values.items ≡ kinds_in columns.old }
    requires room { All (λ room. 1 ≤ room) (rooms_in columns.old) }
    requires few { All (λ cells. length cells + 1 < 2 ^ 32) (cells_in columns.old) }
    ensures kinds { kinds_in columns.new ≡ kinds_in columns.old }
    ensures cells { cells_in columns.new ≡ pushed (cells_in columns.old) values.items }
    ensures room { (n : ℕ) → All (λ room. n + 1 ≤ room) (rooms_in columns.old) → All (λ room. n ≤ room) (rooms_in columns.new) }
{
    while let Some(value) = values.pop() {
        let cells = &mut columns[values.len()];
        cells.push(value);
    }
}
