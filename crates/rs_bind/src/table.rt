ghost use Rattle.std.specs.Prelude.{◌≤◌, length};
ghost use Rattle.rs_value.specs.Answer.{Gives};
ghost use Rattle.rs_bind.specs.Names.{columns_of};

use crate::names::distinct_columns;
use rs_syntax::Name;
use rs_table::{MOST_COLUMNS, Schema};
use rs_typing::BindFault;
use rs_value::Kind;
use std::alloc::Global;

/// The columns of a CREATE TABLE statement: at most 64, no two of one name. From left to right, at each column its number
/// is looked at first (`LimitOf`), and then its name (`NameTwice`).
///
/// # Errors
///
/// - `At`: exactly where the statement breaks a rule, with the first one in this order and its place.
/// - `Memory`: at any call, in place of each answer.
pub fn bind_table(alloc: Global, columns: &[(Name, Kind)]) -> Result<Schema, BindFault>
    requires { 1 ≤ length columns.now }
    ensures { Gives BindFault.Memory (columns_of columns.now) result }
{
    match distinct_columns(alloc, columns, MOST_COLUMNS) {
        Ok(columns) => Ok(Schema::make(columns)),
        Err(fault) => Err(fault),
    }
}
