ghost use Rattle.std.specs.Prelude.{◌≡◌, ◌≤◌, length};
ghost use Rattle.std.specs.List.{AllByRecursion};
ghost use Rattle.std.proofs.Props.{props};
ghost use Rattle.rs_bind.specs.Queries.{called, output_columns};
ghost use Rattle.rs_bind.specs.Sources.{the_only};
ghost use Rattle.rs_bind.specs.Terms.{IsEntryItem};

use crate::columns::Columns;
use rs_catalog::BoundArg;
use rs_lex::Span;
use rs_syntax::ColRef;
use rs_typing::{BindFault, Why, span_of_column};
use rs_value::{Kind, Text};

/// The output columns of a block of a set query, under the names of those of the left block. A term's column is written
/// without a dot, and stands for the only output column of its name.
#[derive(Drop)]
pub struct OutputColumns<'a> {
    /// The names of the output columns of the left block.
    pub names: &'a [Text],
    pub items: &'a [((u8, u8), Kind)],
    ghost named: { length names.now ≤ length items.now },
    ghost few: { AllByRecursion IsEntryItem items.now } by { Prim.hlevel props },
}

impl Columns for OutputColumns<'_> {
    ghost finds = { λ outputs. output_columns outputs.names.now outputs.items.now };

    fn find(&self, column: &ColRef) -> Result<(BoundArg, Kind), BindFault> {
        let at = span_of_column(column);
        if column.alias.is_some() {
            return Err(BindFault::At(Why::NoColumn, at));
        }
        let (found, kind) = only_called(self.names, self.items, &column.column.text, at)?;
        Ok((BoundArg::Column(found.0, found.1), kind))
    }
}

/// The only output column of this name.
fn only_called(
    names: &[Text],
    items: &[((u8, u8), Kind)],
    name: &Text,
    at: Span,
) -> Result<((u8, u8), Kind), BindFault>
    requires { length names.now ≤ length items.now }
    ensures { result ≡ the_only at (called name.now names.now items.now) }
{
    let mut found = None;
    for (place, own) in names.iter().enumerate() {
        if own.as_str() == name.as_str() {
            if found.is_some() {
                return Err(BindFault::At(Why::Ambiguous, at));
            }
            found = Some(items[place]);
        }
    }
    found.ok_or(BindFault::At(Why::NoColumn, at))
}
