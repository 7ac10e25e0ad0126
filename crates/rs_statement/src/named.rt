//! Values that are held by name: the cursors of a session, and the views of a script.

ghost use Rattle.std.specs.Prelude.{◌≡◌, ◌<◌, ◌↔◌, ◌++◌, ◌∷◌, [], IfOk, IsSome, OnErr, OnOk, false, length, map, nat_eq, slice_get};
ghost use Rattle.std.specs.Borrow.{sem};
ghost use Rattle.std.specs.Cmp.Lexicographic.{pointwise};
ghost use Rattle.std.specs.List.{IsDistinct};
ghost use Rattle.std.specs.Map.{keys_of, lookup};
ghost use Rattle.std.specs.Option.{option_copied_mut};
ghost use Rattle.rs_value.specs.Answer.{Gives};
ghost use Rattle.std.specs.Result.{result_map_both};
ghost use Rattle.rs_catalog.specs.Catalog.{has_name};
ghost use Rattle.rs_statement.specs.Named.{named_in, room_for, without};
ghost use Rattle.rs_statement.specs.Parts.Named.{entries, lends_at, lends_named};

use crate::fault::{Fault, SessionFault};
use crate::session::session_fault;
use indexmap::IndexMap;
use rs_value::{Memory, Text};
use std::alloc::Global;

/// The most values that may be held at once.
const MOST_NAMED: usize = 64;

/// Values by name, in the order in which they were added. No two have the same name.
#[derive(Drop)]
pub struct Named<V> {
    held: IndexMap<Text, V>,
}

impl<V: Drop> Named<V> {
    /// No values.
    pub fn new(alloc: Global) -> Named<V>
        ensures { entries result ≡ [] }
    {
        Named {
            held: IndexMap::new(alloc),
        }
    }

    /// Whether a value of this name can be added.
    ///
    /// # Errors
    ///
    /// - `Session`: `NameTaken` exactly where a value of the name is held, and `Full` exactly where 64 are held and the name is free.
    /// - `Memory`: at any time, in place of what else would come.
    /// - `Read`, `Write`, `Table`, `BadScore`, `Probe`, `Script`: never.
    pub fn room(&self, name: &Text) -> Result<(), Fault>
        ensures gives { Gives Fault.Memory (room_for name.now (keys_of (entries self.now))) result }
        ensures free { IfOk result (λ _. has_name name.now (keys_of (entries self.now)) ≡ false) }
    {
        if self.held.contains_key(name) {
            return Err(session_fault(SessionFault::NameTaken, name));
        }
        if self.held.len() == MOST_NAMED {
            return Err(session_fault(SessionFault::Full, name));
        }
        Ok(())
    }

    /// Makes a value the last one, under a name that is free. Where there is no memory, it isn't held.
    ///
    /// # Errors
    ///
    /// - `Memory`: at any time.
    pub fn add(&mut self, name: &Text, value: V) -> Result<(), Memory>
        requires { has_name name.now (keys_of (entries self.old)) ≡ false }
        ensures ok { OnOk result (entries self.new ≡ entries self.old ++ (name.now, value) ∷ []) }
        ensures err { OnErr result (entries self.new ≡ entries self.old) }
    {
        match name.copy() {
            Ok(name) => self.insert(name, value),
            Err(Memory) => {
                drop(value);
                Err(Memory)
            }
        }
    }

    /// Makes a value that has this name the last one. Where there is no memory, it isn't held.
    fn insert(&mut self, name: Text, value: V) -> Result<(), Memory>
        requires { has_name name (keys_of (entries self.old)) ≡ false }
        ensures ok { OnOk result (entries self.new ≡ entries self.old ++ (name, value) ∷ []) }
        ensures err { OnErr result (entries self.new ≡ entries self.old) }
    {
        match self.held.insert(name, value) {
            Ok(none) => {
                drop(none);
                Ok(())
            }
            Err(failed) => {
                drop(failed);
                Err(Memory)
            }
        }
    }

    /// The value of this name.
    ///
    /// # Errors
    ///
    /// - `Session`: `Unknown` exactly where no value of the name is held.
    /// - `Memory`: only where there is none, in its place.
    /// - `Read`, `Write`, `Table`, `BadScore`, `Probe`, `Script`: never.
    pub fn named(&self, name: &Text) -> Result<&V, Fault>
        ensures { Gives Fault.Memory (named_in (λ entry. entry.0) (λ entry. entry.1) name.now (entries self.now)) (result_map_both (λ value. value.now) (λ fault. fault) result) }
    {
        match self.held.get(name) {
            Some(value) => Ok(value),
            None => Err(session_fault(SessionFault::Unknown, name)),
        }
    }

    /// Lets go of the value of this name. All others stay in their order.
    ///
    /// # Errors
    ///
    /// - `Session`: `Unknown` exactly where no value of the name is held.
    /// - `Memory`: only where there is none, in its place.
    /// - `Read`, `Write`, `Table`, `BadScore`, `Probe`, `Script`: never.
    pub fn remove(&mut self, name: &Text) -> Result<(), Fault>
        ensures gives { Gives Fault.Memory (named_in (λ entry. entry.0) (λ entry. tt) name.now (entries self.old)) result }
        ensures left { entries self.new ≡ without (λ entry. entry.0) name.now (entries self.old) }
    {
        match self.held.shift_remove(name) {
            Some(value) => {
                drop(value);
                Ok(())
            }
            None => Err(session_fault(SessionFault::Unknown, name)),
        }
    }

    /// How many values are held.
    pub fn len(&self) -> usize
        ensures len { result ≡ length (entries self.now) }
    {
        self.held.len()
    }

    /// The value of this name, to write.
    ///
    /// # Errors
    ///
    /// - `None`: exactly where no value of the name is held.
    pub fn named_mut(&mut self, name: &Text) -> Option<&mut V>
        ensures* writes_back { sem 𝓛 (lends_named V.row self.entry name.now result) }
        ensures value { option_copied_mut result ≡ lookup (pointwise nat_eq name.now) (entries self.old) }
        ensures unique { IsDistinct (pointwise nat_eq) (keys_of (entries self.old)) }
    {
        self.held.get_mut(name)
    }

    /// The value at this place in the order, to write.
    ///
    /// # Errors
    ///
    /// - `None`: exactly where there are no more than so many.
    pub fn at_mut(&mut self, place: usize) -> Option<&mut V>
        ensures* writes_back { sem 𝓛 (lends_at V.row self.entry place result) }
        ensures value { option_copied_mut result ≡ slice_get (map (λ entry. entry.1) (entries self.old)) place }
        ensures found { IsSome result ↔ (place < length (entries self.old)) }
    {
        self.held.get_index_mut(place)
    }
}
