ghost use Rattle.std.specs.Prelude.{◌≡◌, ◌<◌, ◌≤◌, ◌+◌, ◌++◌, [], not, IfOk, OnOk, OnErr, IsOk};
ghost use Rattle.std.specs.VecDeque.{deque_capacity, deque_len};
ghost use Rattle.rs_outputs.specs.Seen.{has_list, with_list};
ghost use Rattle.rs_outputs.specs.Waiting.{AreNew, lists_in};

use crate::placed::Placed;
use rs_value::{Memory, Value};
use std::alloc::Global;
use std::collections::VecDeque;
use std::marker::Model;

/// Lists of output values, each one once, in the order of adding. Room for further ones can be made beforehand, so that
/// adding them takes no memory.
#[derive(Drop)]
pub struct Outputs {
    alloc: Global,
    placed: Placed,
    // The lists that were added in room that was made for them. They are placed when room is made again.
    waiting: VecDeque<Vec<Value>>,
}

impl Model for Outputs {
    ghost use Rattle.std.specs.Prelude.{◌++◌, ◌-◌};
    ghost use Rattle.std.specs.VecDeque.{deque_capacity, deque_len};
    ghost use Rattle.rs_outputs.specs.Seen.{Seen};
    ghost use Rattle.rs_outputs.specs.Waiting.{AreNew, lists_in};

    ghost Value = { Seen };

    ghost view = { λ o. record {
      lists = o.placed ++ lists_in o.waiting.items;
      room = deque_capacity o.waiting - deque_len o.waiting;
    } };

    ghost invariant = { λ o. AreNew o.placed (lists_in o.waiting.items) };
}

impl Outputs {
    /// No lists. It takes no memory.
    pub fn new(alloc: Global) -> Outputs
        ensures { result.lists ≡ [] }
    {
        Outputs {
            alloc,
            placed: Placed::new(alloc),
            waiting: VecDeque::new(alloc),
        }
    }

    /// Whether these values are one of the lists.
    pub fn has(&self, values: &[Value]) -> bool
        ensures { result ≡ has_list values.now self.now.lists }
    {
        let (front, back) = self.waiting.as_slices();
        self.placed.has(values) || is_among(front, values) || is_among(back, values)
    }

    /// Adds these values, where they are none of the lists. Says whether they were none. It takes no memory where there
    /// is room for a further list.
    ///
    /// # Errors
    ///
    /// - `Memory`: at any call where there is no room for a further list; the lists stay as they were.
    pub fn add(&mut self, values: Vec<Value>) -> Result<bool, Memory>
        ensures new { IfOk result (λ new. new ≡ not (has_list values.items self.old.lists)) }
        ensures ok { OnOk result (self.new.lists ≡ with_list values.items self.old.lists) }
        ensures err { OnErr result (self.new.lists ≡ self.old.lists) }
        ensures room { self.old.room ≤ self.new.room + 1 }
        ensures succeeds { 0 < self.old.room → IsOk result }
    {
        if self.has(&values) {
            return Ok(false);
        }
        if self.waiting.len() < self.waiting.capacity() {
            self.waiting.push_back_reserved(values);
            return Ok(true);
        }
        place_all(&mut self.placed, &mut self.waiting)?;
        match self.placed.add(values) {
            Ok(()) => Ok(true),
            Err(_) => Err(Memory),
        }
    }

    /// Adds a copy of these values, where they are none of the lists. Says whether they were none. The copy is made
    /// only where they were none.
    ///
    /// # Errors
    ///
    /// - `Memory`: at any call; the lists stay as they were.
    pub fn add_copy(&mut self, values: &[Value]) -> Result<bool, Memory>
        ensures new { IfOk result (λ new. new ≡ not (has_list values.now self.old.lists)) }
        ensures ok { OnOk result (self.new.lists ≡ with_list values.now self.old.lists) }
        ensures err { OnErr result (self.new.lists ≡ self.old.lists) }
    {
        if self.has(values) {
            return Ok(false);
        }
        let list = copy(self.alloc, values)?;
        self.add(list)
    }

    /// Makes room for a number of further lists.
    ///
    /// # Errors
    ///
    /// - `Memory`: at any call; the lists stay as they were.
    pub fn make_room(&mut self, more: usize) -> Result<(), Memory>
        ensures lists { self.new.lists ≡ self.old.lists }
        ensures room { OnOk result (more ≤ self.new.room) }
        ensures kept { self.old.room ≤ self.new.room }
    {
        place_all(&mut self.placed, &mut self.waiting)?;
        self.waiting.reserve(more)?;
        Ok(())
    }

    /// Adds these values, where they are none of the lists. There is to be room for them, and it takes no memory.
    pub fn add_in_room(&mut self, values: Vec<Value>)
        requires { 0 < self.old.room }
        ensures lists { self.new.lists ≡ with_list values.items self.old.lists }
        ensures room { self.old.room ≤ self.new.room + 1 }
    {
        if !self.has(&values) {
            self.waiting.push_back_reserved(values);
        }
    }
}

/// Whether these values are one of some lists.
fn is_among(lists: &[Vec<Value>], values: &[Value]) -> bool
    ensures { result ≡ has_list values.now (lists_in lists.now) }
{
    for list in lists {
        if values == list.as_slice() {
            return true;
        }
    }
    false
}

/// Places the lists that wait, in their order. Where memory runs out, the rest of them wait on.
fn place_all(placed: &mut Placed, waiting: &mut VecDeque<Vec<Value>>) -> Result<(), Memory>
    requires { AreNew placed.old (lists_in waiting.old.items) }
    ensures lists { placed.new ++ lists_in waiting.new.items ≡ placed.old ++ lists_in waiting.old.items }
    ensures new { AreNew placed.new (lists_in waiting.new.items) }
    ensures none { OnOk result (waiting.new.items ≡ []) }
    ensures capacity { deque_capacity waiting.new ≡ deque_capacity waiting.old }
    ensures fewer { deque_len waiting.new ≤ deque_len waiting.old }
{
    while let Some(values) = waiting.pop_front() {
        if let Err(back) = placed.add(values) {
            waiting.push_front_reserved(back);
            return Err(Memory);
        }
    }
    Ok(())
}

/// Equal values, in the same order.
fn copy(alloc: Global, values: &[Value]) -> Result<Vec<Value>, Memory>
    ensures { IfOk result (λ copies. copies.items ≡ values.now) }
{
    let mut copies = Vec::new(alloc);
    for value in values {
        copies.push(value.copy()?)?;
    }
    Ok(copies)
}
