/// The lists of a catalogue.
#[derive(Clone, Copy, Debug, PartialEq, Eq)]
pub enum What {
    Table,
    Predicate,
    Index,
}

/// Why nothing of a name may join a list of the catalogue.
#[derive(Clone, Copy, Debug, PartialEq, Eq)]
pub enum RoomFault {
    /// The list has the name.
    NameTaken,
    /// The list has as many as it may have: 16 tables, 64 predicates, 64 indexes.
    Full,
}
