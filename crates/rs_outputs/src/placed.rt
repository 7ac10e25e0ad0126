ghost use Rattle.std.specs.Prelude.{◌≡◌, ◌++◌, ◌∷◌, [], false, IfErr, OnOk, OnErr};
ghost use Rattle.rs_outputs.specs.Seen.{has_list};

use rs_value::Value;
use std::alloc::Global;
use std::collections::BTreeMap;
use std::marker::Model;

/// Lists of output values, each one once, in the order of adding.
///
/// They are found by an ordered map: a map by hashes whose seed is known is slow on input that was made for it.
#[derive(Drop)]
pub(crate) struct Placed {
    // The place of each list in the order of adding, counted from 0.
    places: BTreeMap<Vec<Value>, usize>,
}

impl Model for Placed {
    ghost use Rattle.std.specs.Prelude.{List};
    ghost use Rattle.rs_value.specs.declared.value.Value.{Value as CellValue};
    ghost use Rattle.rs_outputs.specs.Places.{ArePlaces, by_place, entries_of};

    ghost Value = { List (List CellValue) };

    ghost view = { λ p. by_place (entries_of p.places) };

    ghost invariant = { λ p. ArePlaces (entries_of p.places) };
}

impl Placed {
    /// No lists. It takes no memory.
    pub(crate) fn new(alloc: Global) -> Placed
        ensures { result ≡ [] }
    {
        Placed {
            places: BTreeMap::new(alloc),
        }
    }

    /// Whether these values are one of the lists.
    pub(crate) fn has(&self, values: &[Value]) -> bool
        ensures { result ≡ has_list values.now self.now }
    {
        self.places.contains_key(values)
    }

    /// Adds values that are none of the lists. Where there is no memory for it, they come back.
    pub(crate) fn add(&mut self, values: Vec<Value>) -> Result<(), Vec<Value>>
        requires { has_list values.items self.old ≡ false }
        ensures ok { OnOk result (self.new ≡ self.old ++ values.items ∷ []) }
        ensures err { OnErr result (self.new ≡ self.old) }
        ensures back { IfErr result (λ back. back ≡ values) }
    {
        let place = self.places.len();
        if let Err(refused) = self.places.insert(values, place) {
            let (values, _) = refused.value;
            return Err(values);
        }
        Ok(())
    }
}
