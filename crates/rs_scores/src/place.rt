ghost use Rattle.std.specs.Prelude.{◌≡◌};
ghost use Rattle.rs_scores.specs.Places.{is_record, place_after, place_unquoted};

/// Where in a file of comma-separated fields the next byte stands.
#[derive(Clone, Copy)]
pub(crate) enum Place {
    /// At the front of a record.
    Record,
    /// At the front of a field, or behind a carriage return.
    Field,
    /// In a field without quotes.
    Plain,
    /// In a field between quotes.
    Quoted,
    /// Behind a quotation mark that ended a field, unless another one follows.
    Closed,
}

/// The place behind a byte that stands in no quotes.
fn unquoted(byte: u8) -> Place
    ensures { result ≡ place_unquoted byte }
{
    match byte {
        b'\n' => Place::Record,
        b'\r' | b',' => Place::Field,
        _ => Place::Plain,
    }
}

impl Place {
    /// The place behind this byte.
    pub(crate) fn after(self, byte: u8) -> Place
        ensures { result ≡ place_after self byte }
    {
        match (self, byte) {
            (Place::Record | Place::Field | Place::Closed, b'"') => Place::Quoted,
            (Place::Quoted, b'"') => Place::Closed,
            (Place::Quoted, _) => Place::Quoted,
            _ => unquoted(byte),
        }
    }

    /// Whether a record begins here.
    pub(crate) fn is_record(self) -> bool
        ensures { result ≡ is_record self }
    {
        matches!(self, Place::Record)
    }
}
