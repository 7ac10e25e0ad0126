ghost use Rattle.std.specs.Prelude.{◌≡◌};
ghost use Rattle.rs_rank.specs.Rows.{HasSum};
ghost use Rattle.rs_rank.specs.Weights.{IsWeights};
ghost use Rattle.rs_setop.specs.Held.{head_of_row, held_of, without_held};

use rs_rank::{Key, RankRow, Weights};
use rs_value::{List, Value};
use std::mem;

/// A row that is held: its key by the terms that are evaluated, and the values of its output columns.
#[derive(Drop)]
pub struct HeldRow {
    pub key: Key,
    pub row: RankRow,
    pub values: List<Value>,
}

/// What is known of the next row of a side.
#[derive(Drop)]
pub enum Head {
    /// Nothing yet: the side is to be asked.
    Unknown,
    Held(HeldRow),
    /// There is none: the side has ended.
    Ended,
}

impl Head {
    /// A row that came, of which `terms` are evaluated, with the values of its output columns.
    pub(crate) fn of(weights: &Weights, terms: u8, row: RankRow, values: Vec<Value>) -> Head
        requires weights { IsWeights weights.now }
        requires sum { HasSum weights.now terms row }
        ensures { result ≡ head_of_row weights.now terms row values.items }
    {
        Head::Held(HeldRow {
            key: row.key(weights, terms),
            row,
            values: List::of(values),
        })
    }

    /// Takes the held row out, if there is one. Then nothing is known of the next row.
    pub(crate) fn take(&mut self) -> Option<HeldRow>
        ensures row { result ≡ held_of self.old }
        ensures left { self.new ≡ without_held self.old }
    {
        match mem::replace(self, Head::Unknown) {
            Head::Unknown => None,
            Head::Held(held) => Some(held),
            Head::Ended => {
                *self = Head::Ended;
                None
            }
        }
    }
}
