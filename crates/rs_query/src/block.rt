use crate::conjunct::Conjunct;
use crate::term::Term;
use rs_value::{List, Text};

/// A bound block: FROM, WHERE, SELECT and the terms of ORDER BY.
///
/// A column is a FROM entry, counted from 1, and a column of its table, counted from 0.
#[derive(Debug, Drop)]
pub struct Block {
    /// The FROM entries, 1 to 6: the number of the table in the catalogue, counted from 0, and the alias.
    pub from: List<(u8, Text)>,
    /// At most 32.
    pub conjuncts: List<Conjunct>,
    /// The output columns, at most 384.
    pub items: List<(u8, u8)>,
    /// At most 8.
    pub terms: List<Term>,
    pub distinct: bool,
}
