ghost use Rattle.std.specs.Prelude.{◌≡◌, ◌==◌, ◌+◌, ◌<◌, ◌≤◌, ◌^◌, ◌∷◌, ◌++◌, [], IfOk, OnErr, OnOk, Some, length, slice_get, slice_index_or};
ghost use Rattle.std.specs.Cmp.Lexicographic.{pointwise};
ghost use Rattle.indexmap.specs.IndexSet.{insert_key};
ghost use Rattle.rs_table.specs.Texts.{text_number};

use crate::sought::Sought;
use indexmap::IndexSet;
use rs_value::{Memory, Text};
use std::alloc::Global;
use std::hash::RandomState;
use std::marker::Model;

/// The texts of a column, row by row. Each different text is kept once, by first occurrence, and a row has the number of
/// its text, counted from 0. Room for further rows can be made beforehand, so that they take no memory.
#[derive(Drop)]
pub(crate) struct Texts {
    kept: IndexSet<Text, RandomState>,
    numbers: Vec<u32>,
}

impl Model for Texts {
    ghost use Rattle.std.specs.Prelude.{◌-◌, min, vec_len, vec_capacity};
    ghost use Rattle.indexmap.specs.IndexSet.{spare};
    ghost use Rattle.rs_table.specs.Stored.{IsNumbered, TextCells, texts_of};

    ghost Value = { TextCells };

    ghost view = { λ t. record { texts = texts_of t.kept.keys t.numbers.items; room = min (spare t.kept) (vec_capacity t.numbers - vec_len t.numbers) } };

    ghost invariant = { λ t. IsNumbered t.kept.keys t.numbers.items };
}

impl Texts {
    /// No texts, which are to be hashed by these keys. It takes no memory.
    pub fn new(alloc: Global, hash_keys: RandomState) -> Texts
        ensures { result.texts ≡ [] }
    {
        Texts {
            kept: IndexSet::with_hasher(alloc, hash_keys),
            numbers: Vec::new(alloc),
        }
    }

    /// Makes room for a number of further texts.
    pub fn reserve(&mut self, count: usize) -> Result<(), Memory>
        ensures texts { self.new.texts ≡ self.old.texts }
        ensures ok { OnOk result (count ≤ self.new.room) }
    {
        self.kept.reserve(count)?;
        self.numbers.reserve(count)?;
        Ok(())
    }

    /// Puts a text last. There is to be room for it, and it takes no memory.
    pub fn push(&mut self, text: Text)
        requires room { 0 < self.old.room }
        requires few { length self.old.texts + 1 < 2 ^ 32 }
        ensures texts { self.new.texts ≡ self.old.texts ++ text ∷ [] }
        ensures room { self.old.room ≤ self.new.room + 1 }
    {
        match self.kept.insert_full(text) {
            Ok((number, _)) => self.numbers.push_reserved(number as u32),
            Err(_) => unreachable!(),
        }
    }

    /// Puts a text last, where there is memory for it. Else the texts stay as they were. It is copied only where it isn't
    /// kept yet.
    pub fn add(&mut self, text: &str) -> Result<(), Memory>
        requires few { length self.old.texts + 1 < 2 ^ 32 }
        ensures ok { OnOk result (self.new.texts ≡ self.old.texts ++ text.now ∷ []) }
        ensures err { OnErr result (self.new.texts ≡ self.old.texts) }
    {
        self.numbers.reserve(1)?;
        let number = kept_number(&mut self.kept, text)?;
        self.numbers.push_reserved(number as u32);
        Ok(())
    }

    /// The same texts, with the same numbers.
    pub fn copy(&self) -> Result<Texts, Memory>
        ensures { IfOk result (λ copy. copy.texts ≡ self.now.texts) }
    {
        let kept = copied_set(&self.kept)?;
        let mut numbers = Vec::new(*self.numbers.allocator());
        numbers.extend_from_slice(self.numbers.as_slice())?;
        Ok(Texts { kept, numbers })
    }

    /// The text at a place, which counts from 0.
    pub fn get(&self, place: usize) -> &Text
        requires { place < length self.now.texts }
        ensures { result.now ≡ slice_index_or self.now.texts place [] }
    {
        &self.kept[self.numbers[place] as usize]
    }

    /// The number of the text at a place, which counts from 0.
    pub fn number(&self, place: usize) -> u32
        requires { place < length self.now.texts }
        ensures { result ≡ text_number (slice_index_or self.now.texts place []) self.now.texts }
    {
        self.numbers[place]
    }
}

/// The number of a text, a copy of which is kept where it wasn't yet. Without memory for it the kept texts stay as they
/// were.
fn kept_number(kept: &mut IndexSet<Text, RandomState>, text: &str) -> Result<usize, Memory>
    ensures keys { OnOk result (kept.new.keys ≡ insert_key (pointwise ◌==◌) kept.old.keys text.now) }
    ensures stored { IfOk result (λ number. slice_get kept.new.keys number ≡ Some text.now) }
    ensures err { OnErr result (kept.new.keys ≡ kept.old.keys) }
{
    if let Some(number) = kept.get_index_of(Sought(text)) {
        return Ok(number);
    }
    let chars = String::from_str(*kept.allocator(), text)?;
    let (number, _) = kept.insert_full(Text::from(chars))?;
    Ok(number)
}

/// The same texts in the same order, hashed by the same keys.
fn copied_set(texts: &IndexSet<Text, RandomState>) -> Result<IndexSet<Text, RandomState>, Memory>
    ensures { IfOk result (λ copy. copy.keys ≡ texts.now.keys) }
{
    let mut copy = IndexSet::with_capacity_and_hasher(
        *texts.allocator(),
        texts.len(),
        *texts.hasher(),
    )?;
    for number in 0..texts.len() {
        copy.insert(texts[number].copy()?)?;
    }
    Ok(copy)
}
