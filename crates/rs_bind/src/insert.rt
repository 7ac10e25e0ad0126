ghost use Rattle.std.specs.Prelude.{◌≡◌, IfOk, length};
ghost use Rattle.rs_catalog.specs.Growing.{CanJoin};
ghost use Rattle.rs_syntax.specs.Syntax.{command_of};
ghost use Rattle.rs_syntax.specs.Written.{IsWritten};
ghost use Rattle.rs_typing.specs.Models.{result_map};
ghost use Rattle.rs_value.specs.Answer.{Gives};
ghost use Rattle.rs_bind.specs.Inserts.{IsInsert, cell_value, cell_values, insert_of, rows_for_table};

use crate::index::number_of;
use rs_catalog::{Catalog, What};
use rs_syntax::{Cell, RowSyn, Statement};
use rs_table::{MOST_ROWS, Table};
use rs_typing::{BindFault, Why};
use rs_value::{Kind, List, Text, Value};
use std::alloc::Global;

/// The number of the table of an INSERT statement, and the rows that join it. The rules are looked at in this order:
/// the table (`NoTable`); then the rows from left to right, at each one whether the table has room for it (`LimitOf`),
/// the number of its cells (`WrongCount`), and its cells from left to right (`WrongKind`). What is answered may join
/// it.
///
/// # Errors
///
/// - `At`: exactly where the statement breaks a rule, with the first one in this order and its place.
/// - `Memory`: at any call, in place of each answer.
pub fn bind_insert(
    alloc: Global,
    catalog: &Catalog,
    statement: &Statement,
) -> Result<(u8, Vec<List<Value>>), BindFault>
    requires form { IsInsert (command_of statement.now) }
    requires written { IsWritten (command_of statement.now) }
    ensures gives { Gives BindFault.Memory (insert_of catalog.now (command_of statement.now)) (result_map (λ made. (made.0, made.1.items)) result) }
    ensures joins { IfOk result (λ made. CanJoin catalog.now made.0 made.1.items) }
{
    let Statement::Insert { table, rows } = statement else {
        unreachable!()
    };
    let number = number_of(catalog, What::Table, table, Why::NoTable)?;
    let rows = bind_rows(alloc, catalog.table(number), rows.items())?;
    Ok((number, rows))
}

/// The rows that join a table, from left to right.
fn bind_rows(alloc: Global, table: &Table, rows: &[RowSyn]) -> Result<Vec<List<Value>>, BindFault>
    ensures { Gives BindFault.Memory (rows_for_table table.now rows.now) (result_map (λ made. made.items) result) }
{
    let columns = table.schema().columns();
    let room = MOST_ROWS - table.len() as usize;
    let mut made = Vec::new(alloc);
    for (index, row) in rows.iter().enumerate() {
        if index >= room {
            return Err(BindFault::At(Why::LimitOf, row.at));
        }
        if row.cells.items().len() != columns.len() {
            return Err(BindFault::At(Why::WrongCount, row.at));
        }
        made.push(bind_cells(alloc, columns, row.cells.items())?)?;
    }
    Ok(made)
}

/// The values of cells, one for each column, from left to right.
fn bind_cells(
    alloc: Global,
    columns: &[(Text, Kind)],
    cells: &[Cell],
) -> Result<List<Value>, BindFault>
    requires { length cells.now ≡ length columns.now }
    ensures { Gives BindFault.Memory (cell_values columns.now cells.now) result }
{
    let mut values = Vec::new(alloc);
    for (index, cell) in cells.iter().enumerate() {
        values.push(bind_cell(columns[index].1, cell)?)?;
    }
    Ok(List::of(values))
}

/// The value of a cell in a column of this kind.
fn bind_cell(kind: Kind, cell: &Cell) -> Result<Value, BindFault>
    ensures { Gives BindFault.Memory (cell_value kind cell.now) result }
{
    match (kind, cell) {
        (Kind::Int, Cell::Int(number, _)) => Ok(Value::Int(*number)),
        (Kind::Text, Cell::Text(text, _)) => Ok(Value::Text(text.copy()?)),
        (Kind::Int, Cell::Text(_, at)) => Err(BindFault::At(Why::WrongKind, *at)),
        (Kind::Text, Cell::Int(_, at)) => Err(BindFault::At(Why::WrongKind, *at)),
    }
}
