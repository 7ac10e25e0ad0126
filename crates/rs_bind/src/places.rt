ghost use Rattle.std.specs.Prelude.{◌≡◌, ◌≤◌, ◌<◌, IfSome, length, position};
ghost use Rattle.rs_query.specs.WellFormed.{same_column};
ghost use Rattle.rs_bind.specs.Conditions.{places_in};
ghost use Rattle.rs_bind.specs.Sources.{most_block_columns, sources_of};

use crate::sources::Sources;
use rs_syntax::ColRef;
use rs_typing::{BindFault, Scope, Why, span_of_column};
use rs_value::Kind;

/// Columns of FROM entries as the arguments of a condition: each is the argument of its place.
#[derive(Drop)]
pub struct Places<'a> {
    pub sources: &'a Sources<'a>,
    pub columns: &'a [(u8, u8)],
    ghost few: { length columns.now ≤ most_block_columns },
}

impl Scope for Places<'_> {
    ghost finds = { λ places. places_in places.columns.now (sources_of places.sources.now.catalog.now places.sources.now.from.now) };

    fn find(&self, column: &ColRef) -> Result<(u16, Kind), BindFault> {
        let (found, kind) = self.sources.column(column)?;
        match place_of(self.columns, found) {
            Some(place) => Ok((place as u16, kind)),
            None => Err(BindFault::At(Why::NoColumn, span_of_column(column))),
        }
    }
}

/// The first place of a column among these, where it is one of them.
fn place_of(columns: &[(u8, u8)], column: (u8, u8)) -> Option<usize>
    ensures value { result ≡ position (same_column column) columns.now }
    ensures within { IfSome result (λ place. place < length columns.now) }
{
    columns
        .iter()
        .position(|other| column.0 == other.0 && column.1 == other.1)
}
