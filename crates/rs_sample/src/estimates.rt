//! What is expected of a block by its samples.

ghost use Rattle.std.specs.Prelude.{ℕ, ◌≡◌, ◌<◌, ◌≤◌, ◌-◌, ◌^◌, get_or, length};
ghost use Rattle.std.specs.List.{AllByRecursion};
ghost use Rattle.rs_sample.specs.Quotients.{most_expected, number_at};
ghost use Rattle.std.proofs.Props.{props};

use rs_value::List;

/// What is expected of a block. All numbers that can be asked for are kept: for up to six entries and eight terms 64 times
/// 256 numbers of 16 bytes, so a question is one look into a table.
#[derive(Drop)]
pub struct Estimates {
    pub(crate) entries: u8,
    /// The mask of the entries of each term.
    pub(crate) reads: Vec<u8>,
    /// For each mask of entries and each mask of terms.
    pub(crate) numbers: Vec<List<u128>>,
    /// For each term, over its entries.
    pub(crate) index_numbers: Vec<u128>,
    ghost most_entries: { entries ≤ 6 },
    ghost grid: { length numbers.items ≡ 2 ^ entries },
    ghost rows: { AllByRecursion (λ row. length row ≡ 2 ^ length reads.items) numbers.items } by { Prim.hlevel props },
    ghost limits: { (mask terms : ℕ) → number_at numbers.items mask terms ≤ most_expected mask } by { Prim.hlevel props },
    ghost indexes: { length index_numbers.items ≡ length reads.items },
    ghost index_limits: { (term : ℕ) → get_or index_numbers.items term 0 ≤ most_expected (get_or reads.items term 0) } by { Prim.hlevel props },
}

impl Estimates {
    /// How many combinations of the entries in a mask are expected, under a mask of terms that read these entries alone.
    pub(crate) fn est(&self, entries: u8, terms: u8) -> u128
        requires entries { entries < 2 ^ self.now.entries }
        requires terms { terms < 2 ^ length self.now.reads.items }
        ensures value { result ≡ number_at self.now.numbers.items entries terms }
        ensures limit { result ≤ most_expected entries }
    {
        self.numbers[entries as usize].items()[terms as usize]
    }

    /// How many rows of the entries of a term, counted from 1, are expected under this term alone.
    pub(crate) fn est_index(&self, term: u8) -> u128
        requires least { 1 ≤ term }
        requires most { term ≤ length self.now.reads.items }
        ensures value { result ≡ get_or self.now.index_numbers.items (term - 1) 0 }
        ensures limit { result ≤ most_expected (get_or self.now.reads.items (term - 1) 0) }
    {
        self.index_numbers[term as usize - 1]
    }
}
