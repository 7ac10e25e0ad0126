ghost use Rattle.std.specs.Prelude.{◌≡◌, ◌+◌, ◌<◌, ◌≤◌, ◌^◌, ◌∷◌, ◌++◌, [], ◌⊎◌, Err, IfErr, IfOk, Ok, OnErr, OnOk, Some, length, slice_get, List, ℕ};
ghost use Rattle.rs_value.specs.Value.{kind_of};
ghost use Rattle.rs_value.specs.declared.kind.Kind.TheVariants as kind;
ghost use Rattle.rs_value.specs.declared.value.Value.TheVariants as value;
ghost use Rattle.rs_table.specs.Lent.{shown};
ghost use Rattle.rs_table.specs.Reading.{cell_of};
ghost use Rattle.rs_table.specs.Texts.{text_number, texts_among};

use crate::cell::Cell;
use crate::fault::TableFault;
use crate::texts::Texts;
use rs_value::{Kind, Memory, Text, Value, int_of};
use std::alloc::Global;
use std::hash::RandomState;
use std::marker::Model;

/// Cells of one kind.
#[derive(Drop)]
enum Kept {
    Ints(Vec<i64>),
    Texts(Texts),
}

/// The cells of a column, row by row. Places count from 0.
#[derive(Drop)]
pub(crate) struct Cells {
    kept: Kept,
}

impl Model for Cells {
    ghost use Rattle.rs_table.specs.Kept.{cells_of};
    ghost use Rattle.rs_table.specs.Stored.{StoredCells};

    ghost Value = { StoredCells };

    ghost view = { λ c. cells_of c.kept };
}

impl Cells {
    /// No cells of this kind, whose texts are to be hashed by these keys. It takes no memory.
    pub fn new(alloc: Global, hash_keys: RandomState, kind: Kind) -> Cells
        ensures kind { result.kind ≡ kind }
        ensures cells { result.cells ≡ [] }
    {
        match kind {
            Kind::Int => Cells {
                kept: Kept::Ints(Vec::new(alloc)),
            },
            Kind::Text => Cells {
                kept: Kept::Texts(Texts::new(alloc, hash_keys)),
            },
        }
    }

    /// Makes room for a number of further cells.
    pub fn reserve(&mut self, count: usize) -> Result<(), Memory>
        ensures kind { self.new.kind ≡ self.old.kind }
        ensures cells { self.new.cells ≡ self.old.cells }
        ensures ok { OnOk result (count ≤ self.new.room) }
    {
        match &mut self.kept {
            Kept::Ints(numbers) => Ok(numbers.reserve(count)?),
            Kept::Texts(texts) => texts.reserve(count),
        }
    }

    /// Puts a value last. There is to be room for it, and it takes no memory.
    pub fn push(&mut self, value: Value)
        requires kind { kind_of value ≡ self.old.kind }
        requires room { 0 < self.old.room }
        requires few { length self.old.cells + 1 < 2 ^ 32 }
        ensures kind { self.new.kind ≡ self.old.kind }
        ensures cells { self.new.cells ≡ self.old.cells ++ value ∷ [] }
        ensures room { self.old.room ≤ self.new.room + 1 }
    {
        match &mut self.kept {
            Kept::Ints(numbers) => match value {
                Value::Int(number) => numbers.push_reserved(number),
                Value::Text(_) => unreachable!(),
            },
            Kept::Texts(texts) => match value {
                Value::Text(text) => texts.push(text),
                Value::Int(_) => unreachable!(),
            },
        }
    }

    /// Puts the value of a field last. The row and the column are those that a fault names. After a fault the cells are as
    /// they were.
    pub fn read(&mut self, row: u32, column: u32, field: &[u8]) -> Result<(), TableFault>
        requires few { length self.old.cells + 1 < 2 ^ 32 }
        ensures kind { self.new.kind ≡ self.old.kind }
        ensures ok { OnOk result ((value : Value) × (cell_of self.old.kind row column field.now ≡ Ok value) × (self.new.cells ≡ self.old.cells ++ value ∷ [])) }
        ensures err { IfErr result (λ fault. (fault ≡ TableFault.Memory) ⊎ (cell_of self.old.kind row column field.now ≡ Err fault)) }
        ensures kept { OnErr result (self.new.cells ≡ self.old.cells) }
    {
        match &mut self.kept {
            Kept::Ints(numbers) => match int_of(field) {
                Some(number) => Ok(numbers.push(number)?),
                None => Err(TableFault::NotInt { row, column }),
            },
            Kept::Texts(texts) => match str::from_utf8(field) {
                Ok(text) => Ok(texts.add(text)?),
                Err(_) => Err(TableFault::NotUtf8 { row, column }),
            },
        }
    }

    /// The same cells.
    pub fn copy(&self) -> Result<Cells, Memory>
        ensures kind { IfOk result (λ copy. copy.kind ≡ self.now.kind) }
        ensures cells { IfOk result (λ copy. copy.cells ≡ self.now.cells) }
    {
        match &self.kept {
            Kept::Ints(numbers) => {
                let mut copies = Vec::new(*numbers.allocator());
                copies.extend_from_slice(numbers.as_slice())?;
                Ok(Cells {
                    kept: Kept::Ints(copies),
                })
            }
            Kept::Texts(texts) => Ok(Cells {
                kept: Kept::Texts(texts.copy()?),
            }),
        }
    }

    /// The cell at a place.
    pub fn cell(&self, place: usize) -> Cell<'_>
        requires { place < length self.now.cells }
        ensures { slice_get self.now.cells place ≡ Some (shown result) }
    {
        match &self.kept {
            Kept::Ints(numbers) => Cell::Number(numbers[place]),
            Kept::Texts(texts) => Cell::Text(texts.get(place)),
        }
    }

    /// The text at a place of a column of texts.
    pub fn text(&self, place: usize) -> &Text
        requires kind { self.now.kind ≡ kind.Text }
        requires place { place < length self.now.cells }
        ensures { slice_get self.now.cells place ≡ Some (value.Text result.now) }
    {
        match &self.kept {
            Kept::Ints(_) => unreachable!(),
            Kept::Texts(texts) => texts.get(place),
        }
    }

    /// The number of the text at a place of a column of texts.
    pub fn text_number(&self, place: usize) -> u32
        requires kind { self.now.kind ≡ kind.Text }
        requires place { place < length self.now.cells }
        ensures { (text : List ℕ) → slice_get self.now.cells place ≡ Some (value.Text text) → result ≡ text_number text (texts_among self.now.cells) }
    {
        match &self.kept {
            Kept::Ints(_) => unreachable!(),
            Kept::Texts(texts) => texts.number(place),
        }
    }
}
