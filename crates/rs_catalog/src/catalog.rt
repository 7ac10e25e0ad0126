ghost use Rattle.std.specs.Prelude.{◌≡◌, ℕ, ◌<◌, ◌≤◌, ◌-◌, ◌∷◌, [], ◌+◌, ◌++◌, List as Seq, IfOk, Ok, false, true, OnErr, OnOk, length, slice_get, Some, IfSome, map, option_map};
ghost use Rattle.std.specs.List.{AllByRecursion};
ghost use Rattle.indexmap.specs.IndexMap.{index_map_len, keys, values};
ghost use Rattle.rs_table.specs.Relation.{Relation, most_rows, row_fits};
ghost use Rattle.rs_catalog.specs.After.{entry_after};
ghost use Rattle.rs_catalog.specs.Catalog.{RankIndex as Index, empty, greatest_max, has_name, most_of, names_of, place_of_name, number_named, room_for, room_in, with_predicate, with_table};
ghost use Rattle.rs_expr.specs.InOrder.{Inquires};
ghost use Rattle.rs_catalog.specs.Growing.{CanJoin, GrowsBy, growing, growing_index};
ghost use Rattle.rs_catalog.specs.Grown.{AllOrdered, AreGrown, AreOrdered, HasRoom, HaveRoom, IsGrown, OthersStay, all_renewed_kept, as_renewed, as_renewed_or_same, kept_in, renewed_at, with_rows_at};
ghost use Rattle.rs_catalog.specs.declared.catalog.RankIndex.{RankIndex as Stored};
ghost use Rattle.std.specs.Map.{values_of};
ghost use Rattle.rs_catalog.specs.Indexes.{IsIndexEntry, IsIndex, IsRanking, index_of, making, predicate_for, ranking_at, rows_for, score_in};
ghost use Rattle.rs_catalog.specs.Making.{MakesIndex};
ghost use Rattle.rs_catalog.specs.Snapshot.{sizes_in};
ghost use Rattle.rs_catalog.specs.declared.room.What.{What as Lists};
ghost use Rattle.rs_catalog.specs.declared.room.What.TheVariants as what;

use crate::after::{first_within, place_behind};
use crate::grow::grow_index;
use crate::growth::GrowFault;
use crate::index::{BoundArg, IndexDef, IndexFault};
use crate::make::rank_rows;
use crate::merge::merge_rows;
use crate::ranked::Ranked;
use crate::room::{RoomFault, What};
use indexmap::IndexMap;
use rs_expr::{Predicate, Scorer};
use rs_rank::ScoredRow;
use rs_table::Table;
use rs_value::{List, Memory, Text, Value};
use std::alloc::Global;
use std::marker::Model;

/// The most tables of a catalogue.
const MOST_TABLES: usize = 16;

/// The most predicates of a catalogue.
const MOST_PREDICATES: usize = 64;

/// The most rank indexes of a catalogue.
const MOST_INDEXES: usize = 64;

/// A rank index: what it is of, its rows, the best one first, and their scores by row.
#[derive(Drop)]
pub(crate) struct RankIndex {
    pub def: IndexDef,
    pub ranking: Vec<ScoredRow>,
    pub scores: Vec<u32>,
}

/// The tables, predicates and rank indexes that a session has made, each list in the order of making and without two of
/// one name. Names are compared byte by byte.
#[derive(Drop)]
pub struct Catalog {
    tables: IndexMap<Text, Table>,
    predicates: IndexMap<Text, Predicate>,
    indexes: IndexMap<Text, RankIndex>,
}

impl Model for Catalog {
    ghost use Rattle.rs_catalog.specs.Catalog.{CatalogDef};
    ghost use Rattle.rs_catalog.specs.Inside.{IsInside, catalogue_of};
    ghost use Rattle.rs_catalog.specs.Stored.{catalogue_code};

    ghost Value = { CatalogDef };

    ghost coded = { catalogue_code };

    ghost view = { λ c. catalogue_of c.tables.entries c.predicates.entries c.indexes.entries };

    ghost invariant = { λ c. IsInside c.tables.entries c.predicates.entries c.indexes.entries };
}

impl Catalog {
    /// A catalogue of nothing. It takes no memory.
    pub fn new(alloc: Global) -> Catalog
        ensures { result ≡ empty }
    {
        Catalog {
            tables: IndexMap::new(alloc),
            predicates: IndexMap::new(alloc),
            indexes: IndexMap::new(alloc),
        }
    }

    /// Whether one more of this name may join a list: not where the list has the name, and not where it is full. It takes
    /// no memory.
    ///
    /// # Errors
    ///
    /// - `NameTaken`: exactly where the list has the name.
    /// - `Full`: exactly where it hasn't, and has 16 tables, 64 predicates or 64 indexes.
    pub fn room(&self, what: What, name: &Text) -> Result<(), RoomFault>
        ensures { result ≡ room_for what name.now self.now }
    {
        match what {
            What::Table => room_in(&self.tables, MOST_TABLES, name),
            What::Predicate => room_in(&self.predicates, MOST_PREDICATES, name),
            What::Index => room_in(&self.indexes, MOST_INDEXES, name),
        }
    }

    /// The number of the one of this name in a list, counted from 0. It takes no memory.
    ///
    /// # Errors
    ///
    /// - `None`: exactly where the list doesn't have the name.
    pub fn find(&self, what: What, name: &Text) -> Option<u8>
        ensures value { result ≡ number_named what name.now self.now }
        ensures within { IfSome result (λ number. number < length (names_of what self.now)) }
    {
        match what {
            What::Table => number_in(&self.tables, name),
            What::Predicate => number_in(&self.predicates, name),
            What::Index => number_in(&self.indexes, name),
        }
    }

    /// Makes a table the last one.
    ///
    /// # Errors
    ///
    /// - `Memory`: at any call; the catalogue stays as it was.
    pub fn add_table(&mut self, name: Text, table: Table) -> Result<(), Memory>
        requires { room_for what.Table name self.old ≡ Ok tt }
        ensures ok { OnOk result (self.new ≡ with_table name table self.old) }
        ensures err { OnErr result (self.new ≡ self.old) }
    {
        // The table's rows are few: that is known where its length is.
        let _ = table.len();
        put_last(&mut self.tables, name, table)
    }

    /// Makes a predicate the last one.
    ///
    /// # Errors
    ///
    /// - `Memory`: at any call; the catalogue stays as it was.
    pub fn add_predicate(&mut self, predicate: Predicate) -> Result<(), Memory>
        requires { room_for what.Predicate predicate.name self.old ≡ Ok tt }
        ensures ok { OnOk result (self.new ≡ with_predicate predicate self.old) }
        ensures err { OnErr result (self.new ≡ self.old) }
    {
        let _ = predicate.max();
        let name = predicate.name().copy()?;
        put_last(&mut self.predicates, name, predicate)
    }

    /// Makes a rank index the last one. The scorer is called once a row, in the order of the rows, up to the first fault.
    /// After a fault nothing joins.
    ///
    /// # Errors
    ///
    /// - `BadScore`: exactly at the first call whose answer lies outside 0 to the predicate's MAX, unless `Probe` or
    ///   `Memory` came before.
    /// - `Probe`: only where the last call that was made failed; the scorer's count of faults rose.
    /// - `Memory`: at any time, but not behind an answer outside that range. Then the calls that were made are the
    ///   first ones, in their order.
    pub fn add_index<S: Scorer>(
        &mut self,
        alloc: Global,
        def: IndexDef,
        scorer: &mut S,
    ) -> Result<(), IndexFault>
        requires room { room_for what.Index def.name self.old ≡ Ok tt }
        requires fits { IsIndex self.old def }
        ensures makes { MakesIndex (making (S.state scorer.old).answer self.old def) def self.old self.new result
            (S.state scorer.old) (S.state scorer.new) }
    {
        let table = self.table(def.table);
        let predicate = self.predicate(def.predicate);
        let ranked = rank_rows(alloc, table, predicate, def.args.items(), scorer)?;
        let name = def.name.copy()?;
        let index = RankIndex {
            def,
            ranking: ranked.ranking,
            scores: ranked.scores,
        };
        match put_last(&mut self.indexes, name, index) {
            Ok(()) => Ok(()),
            Err(Memory) => Err(IndexFault::Memory),
        }
    }

    /// Puts rows behind those of a table, and at their places in each rank index of the table. For each such index, in the
    /// order of making, the scorer is called once a new row, in the order of the rows, up to the first fault. After a fault
    /// nothing has joined. In an index they stand behind the rows of the same score that it had.
    ///
    /// # Errors
    ///
    /// - `BadScore`: exactly at the first call whose answer lies outside 0 to the predicate's MAX, unless `Probe` or
    ///   `Memory` came before.
    /// - `Probe`: only where the last call that was made failed; the scorer's count of faults rose.
    /// - `Memory`: at any time, but not behind an answer outside that range. Then the calls that were made are the
    ///   first ones, in their order.
    pub fn add_rows<S: Scorer>(
        &mut self,
        alloc: Global,
        table: u8,
        rows: Vec<List<Value>>,
        scorer: &mut S,
    ) -> Result<(), GrowFault>
        requires { CanJoin self.old table rows.items }
        ensures { GrowsBy table rows.items self.old self.new result (S.state scorer.old) (S.state scorer.new) }
    {
        let grown = self.grow_indexes(alloc, table, rows.as_slice(), scorer)?;
        make_room(&mut self.indexes, grown.as_slice())?;
        put_rows(&mut self.tables, table as usize, rows)?;
        renew(&mut self.indexes, grown);
        Ok(())
    }

    /// The rows with their scores that each index takes as rows join a table, in the order of making.
    fn grow_indexes<S: Scorer>(
        &self,
        alloc: Global,
        table: u8,
        rows: &[List<Value>],
        scorer: &mut S,
    ) -> Result<Vec<Option<Ranked>>, GrowFault>
        requires { CanJoin self.now table rows.now }
        ensures grows { Inquires GrowFault.Memory (growing (S.state scorer.old).answer self.now table rows.now)
            (as_renewed self.now.indexes result) (S.state scorer.old) (S.state scorer.new) }
        ensures all { IfOk result (λ grown. AreGrown self.now table (length rows.now) self.now.indexes grown.items) }
        ensures len { IfOk result (λ grown. length grown.items ≡ length self.now.indexes) }
    {
        let mut grown = Vec::new(alloc);
        for number in 0..self.indexes.len() {
            let ranked = self.grow_at(alloc, number as u8, table, rows, scorer)?;
            grown.push(ranked)?;
        }
        Ok(grown)
    }

    /// The rows with their scores that the index of this number takes as rows join a table: none where it is of another table.
    fn grow_at<S: Scorer>(
        &self,
        alloc: Global,
        number: u8,
        table: u8,
        rows: &[List<Value>],
        scorer: &mut S,
    ) -> Result<Option<Ranked>, GrowFault>
        requires join { CanJoin self.now table rows.now }
        requires index_in { number < length self.now.indexes }
        ensures grows { (index : Index) → slice_get self.now.indexes number ≡ Some index
            → Inquires GrowFault.Memory (growing_index (S.state scorer.old).answer self.now table rows.now number index)
            (as_renewed_or_same index result) (S.state scorer.old) (S.state scorer.new) }
        ensures all { (index : Index) → slice_get self.now.indexes number ≡ Some index
            → IfOk result (λ grown. IsGrown self.now table (length rows.now) index grown) }
    {
        let index = &self.indexes[number as usize];
        if index.def.table != table {
            return Ok(None);
        }
        let predicate = self.predicate(index.def.predicate);
        Ok(Some(grow_index(alloc, number, index, predicate, rows, scorer)?))
    }

    /// No table has more than 131,072 rows, and no predicate a MAX above 4,294,967,295. It computes nothing; it is called for its
    /// contract.
    pub fn limits_hold(&self)
        ensures rows { AllByRecursion (λ t. length t.table.rows ≤ most_rows) self.now.tables }
        ensures scores { AllByRecursion (λ p. p.max ≤ greatest_max) self.now.predicates }
    {
        // What always holds of a catalogue is known where a field of it is used.
        let _ = &self.tables;
    }

    /// How many rows each table has, in the order of making.
    ///
    /// # Errors
    ///
    /// - `Memory`: at any call.
    pub fn sizes(&self, alloc: Global) -> Result<Vec<u32>, Memory>
        ensures { IfOk result (λ sizes. sizes.items ≡ sizes_in self.now) }
    {
        let mut sizes = Vec::new(alloc);
        for number in 0..self.tables.len() {
            sizes.push(self.table(number as u8).len())?;
        }
        Ok(sizes)
    }

    /// The table of this number.
    pub fn table(&self, number: u8) -> &Table
        requires { number < length self.now.tables }
        ensures { option_map (λ t. t.table) (slice_get self.now.tables number) ≡ Some result.now }
    {
        &self.tables[number as usize]
    }

    /// The name of the table of this number.
    pub fn table_name(&self, number: u8) -> &Text
        requires { number < length self.now.tables }
        ensures { option_map (λ t. t.name) (slice_get self.now.tables number) ≡ Some result.now }
    {
        let (name, _) = self.tables.get_index(number as usize).unwrap();
        name
    }

    /// The predicate of this number.
    pub fn predicate(&self, number: u8) -> &Predicate
        requires { number < length self.now.predicates }
        ensures { slice_get self.now.predicates number ≡ Some result.now }
    {
        &self.predicates[number as usize]
    }

    /// What the index of this number is of. Its ranking has each row of its table once.
    pub fn index(&self, number: u8) -> &IndexDef
        requires { number < length self.now.indexes }
        ensures value { option_map (λ i. i.def) (slice_get self.now.indexes number) ≡ Some result.now }
        ensures fits { IsIndex self.now result.now }
        ensures ranking { IsRanking (length (rows_for self.now result.now)) (predicate_for self.now result.now).max
            (ranking_at self.now number) }
    {
        &self.indexes[number as usize].def
    }

    /// The number of the first index of this table and predicate and these arguments, where a column of FROM entry
    /// `entry` is read as that of entry 1. It takes no memory.
    ///
    /// # Errors
    ///
    /// - `None`: exactly where there is no index of this table and predicate and these arguments.
    pub fn index_for(&self, table: u8, predicate: u8, args: &[BoundArg], entry: u8) -> Option<u8>
        ensures value { result ≡ index_of table predicate args.now entry self.now }
        ensures within { IfSome result (λ number. number < length self.now.indexes) }
    {
        let number = self
            .indexes
            .values()
            .position(|index| index.def.is_for(table, predicate, args, entry))?;
        Some(number as u8)
    }

    /// The score and the row at a place of an index, counted from 1.
    pub fn index_row(&self, index: u8, place: u32) -> (u32, u32)
        requires index_in { index < length self.now.indexes }
        requires some_place { 1 ≤ place }
        requires place_in { place ≤ length (ranking_at self.now index) }
        ensures entry { slice_get (ranking_at self.now index) (place - 1) ≡ Some (record { score = result.0; row = result.1 }) }
        ensures fits { (def : IndexDef) → option_map (λ i. i.def) (slice_get self.now.indexes index) ≡ Some def
            → IsIndexEntry (length (rows_for self.now def)) (predicate_for self.now def).max (record { score = result.0; row = result.1 }) }
    {
        let entry = self.indexes[index as usize].ranking[place as usize - 1];
        (entry.score, entry.row)
    }

    /// The score of a row, counted from 1, in an index. It takes no memory.
    pub fn score_of(&self, index: u8, row: u32) -> u32
        requires index_in { index < length self.now.indexes }
        requires some_row { 1 ≤ row }
        requires row_in { row ≤ length (ranking_at self.now index) }
        ensures { score_in row (ranking_at self.now index) ≡ Some result }
    {
        self.indexes[index as usize].scores[row as usize - 1]
    }

    /// The score and the row of the first entry of an index that comes behind `after`, of those whose rows are among the first
    /// `rows` of the table. Without `after` it is the first such entry. Rows that join later don't move it. It takes no memory.
    ///
    /// # Errors
    ///
    /// - `None`: exactly where no entry of these rows comes behind `after`.
    pub fn index_after(&self, index: u8, after: Option<(u32, u32)>, rows: u32) -> Option<(u32, u32)>
        requires { index < length self.now.indexes }
        ensures { result ≡ entry_after after rows (ranking_at self.now index) }
    {
        let ranking = self.indexes[index as usize].ranking.as_slice();
        first_within(&ranking[place_behind(ranking, after)..], rows)
    }
}

/// Whether one more of this name may join a list of at most this many.
#[tactic(auto, using(crate::proofs::NameFacts::rooms))]
fn room_in<V>(list: &IndexMap<Text, V>, most: usize, name: &Text) -> Result<(), RoomFault>
    ensures { result ≡ room_in name.now most (keys list.now) }
{
    if list.contains_key(name) {
        return Err(RoomFault::NameTaken);
    }
    if list.len() == most {
        return Err(RoomFault::Full);
    }
    Ok(())
}

/// The number of a name in a list.
fn number_in<V>(list: &IndexMap<Text, V>, name: &Text) -> Option<u8>
    requires { index_map_len list.now ≤ 64 }
    ensures value { result ≡ place_of_name name.now (keys list.now) }
    ensures within { IfSome result (λ number. number < index_map_len list.now) }
{
    let number = list.get_index_of(name)?;
    Some(number as u8)
}

/// Puts a value last into a list that doesn't have its name. Where there is no memory, the list stays as it was.
#[tactic(auto, using(crate::proofs::NameFacts::places))]
fn put_last<V: Drop>(list: &mut IndexMap<Text, V>, name: Text, value: V) -> Result<(), Memory>
    requires { has_name name (keys list.old) ≡ false }
    ensures ok { OnOk result (list.new.entries ≡ list.old.entries ++ (name, value) ∷ []) }
    ensures err { OnErr result (list.new.entries ≡ list.old.entries) }
{
    list.insert(name, value)?;
    Ok(())
}

/// Puts rows last in the table at a place. Where there is no memory, the tables stay as they were.
fn put_rows(
    tables: &mut IndexMap<Text, Table>,
    place: usize,
    rows: Vec<List<Value>>,
) -> Result<(), Memory>
    requires { (table : Relation) × ((slice_get (values tables.old) place ≡ Some table)
        × (AllByRecursion (λ row. row_fits table.schema row ≡ true) rows.items × (length table.rows + length rows.items ≤ most_rows))) }
    ensures ok { OnOk result (tables.new.entries ≡ with_rows_at place rows.items tables.old.entries) }
    ensures err { OnErr result (tables.new.entries ≡ tables.old.entries) }
{
    tables[place].add_rows(rows)
}

/// Makes room in each index for the rows that it takes. The indexes stay as they were.
fn make_room(
    indexes: &mut IndexMap<Text, RankIndex>,
    grown: &[Option<Ranked>],
) -> Result<(), Memory>
    requires { length grown.now ≤ index_map_len indexes.old }
    ensures same { map kept_in indexes.new.entries ≡ map kept_in indexes.old.entries }
    ensures room { OnOk result (HaveRoom indexes.new.entries grown.now) }
{
    for place in 0..grown.len() {
        if let Some(ranked) = &grown[place] {
            make_room_at(indexes, place, ranked)?;
        }
    }
    Ok(())
}

/// Makes room for rows in the index at a place. The indexes stay as they were.
fn make_room_at(
    indexes: &mut IndexMap<Text, RankIndex>,
    place: usize,
    ranked: &Ranked,
) -> Result<(), Memory>
    requires { place < index_map_len indexes.old }
    ensures same { map kept_in indexes.new.entries ≡ map kept_in indexes.old.entries }
    ensures others { OthersStay place indexes.old.entries indexes.new.entries }
    ensures room { OnOk result ((stored : Stored) → slice_get (values_of indexes.new.entries) place ≡ Some stored → HasRoom ranked.now stored) }
{
    let index = &mut indexes[place];
    index.ranking.reserve(ranked.ranking.len())?;
    index.scores.reserve(ranked.scores.len())?;
    Ok(())
}

/// Puts the rows that indexes take at their places in them. There is to be room for them, and it takes no memory.
fn renew(indexes: &mut IndexMap<Text, RankIndex>, mut grown: Vec<Option<Ranked>>)
    requires few { length grown.items ≤ index_map_len indexes.old }
    requires room { HaveRoom indexes.old.entries grown.items }
    requires ordered { AllOrdered (map kept_in indexes.old.entries) grown.items }
    ensures { map kept_in indexes.new.entries ≡ all_renewed_kept (map kept_in indexes.old.entries) grown.items }
{
    while let Some(last) = grown.pop() {
        if let Some(ranked) = last {
            renew_at(indexes, grown.len(), &ranked);
        }
    }
}

/// Puts rows at their places in the index at a place, and their scores last. There is to be room for them.
fn renew_at(indexes: &mut IndexMap<Text, RankIndex>, place: usize, ranked: &Ranked)
    requires few { place < index_map_len indexes.old }
    requires room { (stored : Stored) → slice_get (values_of indexes.old.entries) place ≡ Some stored → HasRoom ranked.now stored }
    requires ordered { (stored : Stored) → slice_get (values_of indexes.old.entries) place ≡ Some stored → AreOrdered ranked.now stored.ranking.items }
    ensures renewed { map kept_in indexes.new.entries ≡ renewed_at place (Some ranked.now) (map kept_in indexes.old.entries) }
    ensures others { OthersStay place indexes.old.entries indexes.new.entries }
{
    let index = &mut indexes[place];
    merge_rows(&mut index.ranking, &ranked.ranking);
    // There is room, so this doesn't fail.
    let _ = index.scores.extend_from_slice(&ranked.scores);
}
