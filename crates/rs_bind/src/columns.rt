ghost use Rattle.std.specs.Prelude.{◌≡◌};
ghost use Rattle.rs_typing.specs.Parameters.{placed};
ghost use Rattle.rs_bind.specs.Indexes.{entry_column, is_of_entry};

use rs_catalog::BoundArg;
use rs_syntax::{ColRef, Name};
use rs_table::Schema;
use rs_typing::{BindFault, Why, span_of_column};
use rs_value::{Kind, Text};

/// What the columns of a term stand for: columns of FROM entries, with their kinds.
pub trait Columns {
    ghost use Rattle.std.specs.Prelude.{Result};
    ghost use Rattle.rs_value.specs.declared.kind.Kind.{Kind};
    ghost use Rattle.rs_syntax.specs.declared.name.ColRef.{ColRef};
    ghost use Rattle.rs_catalog.specs.declared.index.BoundArg.{BoundArg};
    ghost use Rattle.rs_typing.specs.declared.fault.BindFault.{BindFault};

    /// The argument that a column stands for, with its kind, or why it stands for none.
    ghost finds: { Self → ColRef → Result (BoundArg × Kind) BindFault };

    fn find(&self, column: &ColRef) -> Result<(BoundArg, Kind), BindFault>
        ensures { result ≡ finds self.now column.now };
}

/// The columns of one FROM entry, the first one.
#[derive(Drop)]
pub struct OneEntry<'a> {
    /// The name of the entry, which a column may have before a dot.
    pub alias: &'a Text,
    pub schema: &'a Schema,
}

impl OneEntry<'_> {
    /// Whether a column with this alias before its dot, or with no dot, can be one of the entry's.
    fn has(&self, alias: &Option<Name>) -> bool
        ensures { result ≡ is_of_entry self.now.alias.now alias.now }
    {
        match alias {
            None => true,
            Some(name) => name.text.as_str() == self.alias.as_str(),
        }
    }
}

impl Columns for OneEntry<'_> {
    ghost finds = { λ entry. entry_column entry.alias.now entry.schema.now };

    fn find(&self, column: &ColRef) -> Result<(BoundArg, Kind), BindFault> {
        let fault = BindFault::At(Why::NoColumn, span_of_column(column));
        if !self.has(&column.alias) {
            return Err(fault);
        }
        match place_in(self.schema, &column.column.text) {
            Some((place, kind)) => Ok((BoundArg::Column(1, place), kind)),
            None => Err(fault),
        }
    }
}

/// The place of the first column of this name, counted from 0, and its kind.
fn place_in(schema: &Schema, name: &Text) -> Option<(u8, Kind)>
    ensures { result ≡ placed name.now schema.now }
{
    let place = schema.place(name)?;
    Some((place, schema.columns()[place as usize].1))
}
