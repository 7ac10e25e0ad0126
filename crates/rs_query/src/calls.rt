//! What a block computes for rows of its entries: whether conjuncts hold, and values of columns.

ghost use Rattle.std.specs.Prelude.{◌≡◌, ◌≤◌, ◌-◌, ◌++◌, ◌∷◌, [], IfOk, List, OnOk, Some, length, map, slice_get, true, ℕ};
ghost use Rattle.std.specs.List.{AllByRecursion};
ghost use Rattle.rs_expr.specs.Predicates.{PredicateDef};
ghost use Rattle.rs_expr.specs.Uses.{has_argument};
ghost use Rattle.rs_query.specs.Meaning.{AreInside, all_hold, argument_value, argument_values, column_value, conjunct_holds, is_inside, outputs_of};
ghost use Rattle.rs_query.specs.Tables.{HasRow, HasRows, entry_table};
ghost use Rattle.rs_query.specs.WellFormed.{AreArgs, IsArg, IsBlock, IsColumn, IsConjunct, argument_columns, entries_mask, has_kind, column_kind};
ghost use Rattle.rs_query.specs.declared.term.Term.{Term as BoundTerm};
ghost use Rattle.rs_table.specs.Lent.{shown};
ghost use Rattle.rs_value.specs.Value.{all_fit, fits};
ghost use Rattle.rs_value.specs.declared.kind.Kind.{Kind as ValueKind};
ghost use Rattle.rs_value.specs.declared.value.Value.TheVariants as value;

use crate::block::Block;
use crate::conjunct::Conjunct;
use crate::lent_cells::LentCells;
use rs_catalog::{BoundArg, Snapshot};
use rs_rank::Ids;
use rs_table::{Cell, FirstRows};
use rs_value::{Memory, Text, Value};
use std::alloc::Global;

impl Block {
    /// Whether every conjunct in a mask holds of these rows. The first conjunct has the lowest bit. It takes no memory: what the
    /// conjuncts look at is compared where it stands.
    pub fn holds(&self, catalog: &Snapshot<'_>, conjuncts: u32, ids: &Ids) -> bool
        requires block { IsBlock catalog.now self.now }
        requires inside { AreInside conjuncts ids.now.mask self.now.conjuncts }
        requires rows { HasRows catalog.now self.now ids.now.mask ids.now.rows }
        ensures { result ≡ all_hold catalog.now self.now conjuncts ids.now.rows self.now.conjuncts }
    {
        for (place, conjunct) in self.conjuncts.items().iter().enumerate() {
            if (conjuncts >> place) % 2 == 0 {
                continue;
            }
            if !self.conjunct_holds(catalog, conjunct, ids) {
                return false;
            }
        }
        true
    }

    /// Makes a list that of the arguments of a term, counted from 1, for these rows. They are those that its predicate takes.
    /// The list is to be kept from call to call: what it held goes, and its memory stays, so that numbers take none once it has
    /// grown. After an error it holds some of the arguments.
    ///
    /// # Errors
    ///
    /// - `Memory`: at any call.
    pub fn args(
        &self,
        catalog: &Snapshot<'_>,
        term: u8,
        ids: &Ids,
        args: &mut Vec<Value>,
    ) -> Result<(), Memory>
        requires block { IsBlock catalog.now self.now }
        requires least { 1 ≤ term }
        requires most { term ≤ length self.now.terms }
        requires inside { (t : BoundTerm) → slice_get self.now.terms (term - 1) ≡ Some t → is_inside t.entries ids.now.mask ≡ true }
        requires rows { HasRows catalog.now self.now ids.now.mask ids.now.rows }
        ensures value { (t : BoundTerm) → slice_get self.now.terms (term - 1) ≡ Some t
            → OnOk result (args.new.items ≡ argument_values catalog.now self.now ids.now.rows t) }
        ensures fit { (t : BoundTerm) (p : PredicateDef) → slice_get self.now.terms (term - 1) ≡ Some t
            → slice_get catalog.now.predicates t.predicate ≡ Some p
            → OnOk result (all_fit p.params args.new.items ≡ true) }
    {
        let bound = self.terms.items()[term as usize - 1].args.items();
        self.args_of(catalog, bound, ids, args)
    }

    /// The values of the output columns for these rows.
    ///
    /// # Errors
    ///
    /// - `Memory`: at any call.
    pub fn outputs(
        &self,
        alloc: Global,
        catalog: &Snapshot<'_>,
        ids: &Ids,
    ) -> Result<Vec<Value>, Memory>
        requires block { IsBlock catalog.now self.now }
        requires inside { is_inside (entries_mask self.now.items) ids.now.mask ≡ true }
        requires rows { HasRows catalog.now self.now ids.now.mask ids.now.rows }
        ensures { IfOk result (λ values. values.items ≡ outputs_of catalog.now self.now ids.now.rows) }
    {
        let columns = self.items.items();
        let mut cells = Vec::with_capacity(alloc, columns.len())?;
        self.cells_of(catalog, columns, ids, &mut cells)?;
        Ok(cells)
    }

    /// Whether a conjunct of the block holds of these rows. Columns of two entries that it equates are compared at once, without a
    /// walk through the condition.
    fn conjunct_holds(&self, catalog: &Snapshot<'_>, conjunct: &Conjunct, ids: &Ids) -> bool
        requires block { IsBlock catalog.now self.now }
        requires conjunct { IsConjunct catalog.now self.now conjunct.now }
        requires inside { is_inside conjunct.now.entries ids.now.mask ≡ true }
        requires rows { HasRows catalog.now self.now ids.now.mask ids.now.rows }
        ensures { result ≡ conjunct_holds catalog.now self.now ids.now.rows conjunct.now }
    {
        if let Some((left, right)) = conjunct.equality() {
            return self.cell(catalog, left, &ids.rows) == self.cell(catalog, right, &ids.rows);
        }
        let cells = LentCells::of(catalog, self, conjunct.columns(), &ids.rows);
        conjunct.condition().test_lent(&cells)
    }

    /// Makes a list that of the values of columns for these rows, each of its column's kind.
    fn cells_of(
        &self,
        catalog: &Snapshot<'_>,
        columns: &[(u8, u8)],
        ids: &Ids,
        cells: &mut Vec<Value>,
    ) -> Result<(), Memory>
        requires block { IsBlock catalog.now self.now }
        requires columns { AllByRecursion (IsColumn catalog.now self.now) columns.now }
        requires inside { is_inside (entries_mask columns.now) ids.now.mask ≡ true }
        requires rows { HasRows catalog.now self.now ids.now.mask ids.now.rows }
        ensures value { OnOk result (cells.new.items ≡ map (column_value catalog.now self.now ids.now.rows) columns.now) }
        ensures fit { (kind : ValueKind) (i : ℕ) → has_kind catalog.now self.now columns.now kind i ≡ true
            → OnOk result (has_argument cells.new.items kind i ≡ true) }
    {
        cells.clear();
        for column in columns {
            self.push_cell(catalog, *column, &ids.rows, cells)?;
        }
        Ok(())
    }

    /// Makes a list that of the values of arguments for these rows.
    fn args_of(
        &self,
        catalog: &Snapshot<'_>,
        args: &[BoundArg],
        ids: &Ids,
        values: &mut Vec<Value>,
    ) -> Result<(), Memory>
        requires block { IsBlock catalog.now self.now }
        requires args { (kinds : List ValueKind) × AreArgs catalog.now self.now kinds args.now }
        requires inside { is_inside (entries_mask (argument_columns args.now)) ids.now.mask ≡ true }
        requires rows { HasRows catalog.now self.now ids.now.mask ids.now.rows }
        ensures value { OnOk result (values.new.items ≡ map (argument_value catalog.now self.now ids.now.rows) args.now) }
        ensures fit { (kinds : List ValueKind) → AreArgs catalog.now self.now kinds args.now
            → OnOk result (all_fit kinds values.new.items ≡ true) }
    {
        values.clear();
        for arg in args {
            self.push_arg(catalog, arg, ids, values)?;
        }
        Ok(())
    }

    /// Appends the value of an argument for these rows.
    fn push_arg(
        &self,
        catalog: &Snapshot<'_>,
        arg: &BoundArg,
        ids: &Ids,
        values: &mut Vec<Value>,
    ) -> Result<(), Memory>
        requires block { IsBlock catalog.now self.now }
        requires arg { (kind : ValueKind) × IsArg catalog.now self.now kind arg.now }
        requires inside { is_inside (entries_mask (argument_columns (arg.now ∷ []))) ids.now.mask ≡ true }
        requires rows { HasRows catalog.now self.now ids.now.mask ids.now.rows }
        ensures value { OnOk result (values.new.items ≡ values.old.items ++ argument_value catalog.now self.now ids.now.rows arg.now ∷ []) }
        ensures fit { (kind : ValueKind) → IsArg catalog.now self.now kind arg.now → fits kind (argument_value catalog.now self.now ids.now.rows arg.now) ≡ true }
    {
        match arg {
            BoundArg::Column(entry, column) => {
                self.push_cell(catalog, (*entry, *column), &ids.rows, values)
            }
            BoundArg::Int(number) => push_number(values, *number),
            BoundArg::Text(text) => push_text(values, text),
        }
    }

    /// Appends a copy of the cell of a column for these rows, which is of the column's kind. A number is put straight into the
    /// list, and takes no memory where the list has room.
    ///
    /// # Errors
    ///
    /// - `Memory`: at any call. No clause says what the list then holds.
    pub fn push_cell(
        &self,
        catalog: &Snapshot<'_>,
        column: (u8, u8),
        rows: &[u32; 6],
        values: &mut Vec<Value>,
    ) -> Result<(), Memory>
        requires block { IsBlock catalog.now self.now }
        requires column { IsColumn catalog.now self.now column }
        requires row { HasRow catalog.now self.now rows.now column.0 }
        ensures value { OnOk result (values.new.items ≡ values.old.items ++ column_value catalog.now self.now rows.now column ∷ []) }
        ensures fit { (kind : ValueKind) → column_kind catalog.now self.now column ≡ Some kind
            → fits kind (column_value catalog.now self.now rows.now column) ≡ true }
    {
        push_copy(values, self.cell(catalog, column, rows))
    }

    /// The cell of a column for these rows, of the column's kind.
    pub(crate) fn cell<'a>(
        &self,
        catalog: &Snapshot<'a>,
        column: (u8, u8),
        rows: &[u32; 6],
    ) -> Cell<'a>
        requires block { IsBlock catalog.now self.now }
        requires column { IsColumn catalog.now self.now column }
        requires row { HasRow catalog.now self.now rows.now column.0 }
        ensures value { shown result ≡ column_value catalog.now self.now rows.now column }
        ensures fit { (kind : ValueKind) → column_kind catalog.now self.now column ≡ Some kind → fits kind (shown result) ≡ true }
    {
        let row = rows[column.0 as usize - 1];
        self.table(catalog, column.0).cell(row, column.1)
    }

    /// The table of an entry.
    pub(crate) fn table<'a>(&self, catalog: &Snapshot<'a>, entry: u8) -> FirstRows<'a>
        requires block { IsBlock catalog.now self.now }
        requires least { 1 ≤ entry }
        requires most { entry ≤ length self.now.from }
        ensures { entry_table catalog.now self.now entry ≡ Some result }
    {
        catalog.table(self.from.items()[entry as usize - 1].0)
    }
}

/// Appends a copy of a cell.
fn push_copy(values: &mut Vec<Value>, cell: Cell<'_>) -> Result<(), Memory>
    ensures { OnOk result (values.new.items ≡ values.old.items ++ shown cell.entry ∷ []) }
{
    match cell {
        Cell::Number(number) => push_number(values, number),
        Cell::Text(text) => push_text(values, text),
    }
}

/// Appends a number. It stands apart from the copy of a text, so that no result with a value in it is moved about for a number.
fn push_number(values: &mut Vec<Value>, number: i64) -> Result<(), Memory>
    ensures { OnOk result (values.new.items ≡ values.old.items ++ value.Int number ∷ []) }
{
    Ok(values.push(Value::Int(number))?)
}

/// Appends a copy of a text.
fn push_text(values: &mut Vec<Value>, text: &Text) -> Result<(), Memory>
    ensures { OnOk result (values.new.items ≡ values.old.items ++ value.Text text.now ∷ []) }
{
    Ok(values.push(Value::Text(text.copy()?))?)
}
