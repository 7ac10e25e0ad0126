ghost use Rattle.std.specs.Prelude.{◌≡◌, ◌<◌, [], ◌∷◌, ◌++◌, length, OnOk, OnErr};
ghost use Rattle.std.specs.List.{AllByRecursion};
ghost use Rattle.rs_hrjn.specs.Drawn.{alike, places_alike, rows_of};
ghost use Rattle.rs_hrjn.specs.Index.{index_of, with_place};

use rs_rank::RankRow;
use rs_value::{Memory, Value};
use std::alloc::Global;
use std::collections::BTreeMap;
use std::marker::Model;

/// The rows drawn of a side with their join values, in the order in which they came. Those with given join values are
/// found by a map; each list of these values stands in it once, and nowhere else. The map is an ordered one: a map by
/// hashes whose seed is known is slow on input that was made for it.
#[derive(Drop)]
pub struct DrawnRows {
    alloc: Global,
    rows: Vec<RankRow>,
    // The places of the rows that have these join values, counted from 0.
    places: BTreeMap<Vec<Value>, Vec<usize>>,
}

impl Model for DrawnRows {
    ghost use Rattle.std.specs.Prelude.{List};
    ghost use Rattle.rs_hrjn.specs.Drawn.{DrawnRow};
    ghost use Rattle.rs_hrjn.specs.Index.{IsIndex, drawn_rows, index_of};

    ghost Value = { List DrawnRow };

    ghost view = { λ d. drawn_rows (index_of d.places) 0 d.rows.items };

    ghost invariant = { λ d. IsIndex (index_of d.places) d.rows.items };
}

impl DrawnRows {
    /// No row. It takes no memory.
    pub fn new(alloc: Global) -> DrawnRows
        ensures { result ≡ [] }
    {
        DrawnRows {
            alloc,
            rows: Vec::new(alloc),
            places: BTreeMap::new(alloc),
        }
    }

    /// The rows alone.
    pub fn rows(&self) -> &[RankRow]
        ensures { result.now ≡ rows_of self.now }
    {
        &self.rows
    }

    /// The places of the rows with these join values, counted from 0.
    pub fn places(&self, values: &Vec<Value>) -> &[usize]
        ensures places { result.now ≡ places_alike values.now.items 0 self.now }
        ensures within { AllByRecursion (λ place. place < length (rows_of self.now)) result.now }
        ensures count { length result.now ≡ length (alike values.now.items self.now) }
    {
        match self.places.get(values) {
            Some(places) => places,
            None => &[],
        }
    }

    /// Takes one more row with its join values. Where there is no memory for it, nothing changes.
    pub fn push(&mut self, row: RankRow, values: Vec<Value>) -> Result<(), Memory>
        ensures ok { OnOk result (self.new ≡ self.old ++ record { row = row; values = values.items } ∷ []) }
        ensures err { OnErr result (self.new ≡ self.old) }
    {
        let place = self.rows.len();
        self.rows.push(row)?;
        if add_place(self.alloc, &mut self.places, values, place).is_err() {
            self.rows.pop();
            return Err(Memory);
        }
        Ok(())
    }
}

/// Adds a place to those of some join values.
fn add_place(
    alloc: Global,
    places: &mut BTreeMap<Vec<Value>, Vec<usize>>,
    values: Vec<Value>,
    place: usize,
) -> Result<(), Memory>
    ensures ok { OnOk result (index_of places.new ≡ with_place values.items place (index_of places.old)) }
    ensures err { OnErr result (index_of places.new ≡ index_of places.old) }
{
    match places.get_mut(&values) {
        Some(list) => list.push(place)?,
        None => {
            let list = vec![in alloc; place]?;
            places.insert(values, list)?;
        }
    }
    Ok(())
}
