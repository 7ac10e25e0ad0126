ghost use Rattle.std.specs.Prelude.{◌≡◌, [], ◌∷◌, ◌-◌, ◌^◌, Some, length, map, min, option_map, slice_get};
ghost use Rattle.rs_ta.specs.Lists.{AreRanked, AreTold, AreUnaccessed, score_of, total};
ghost use Rattle.rs_ta.specs.MemLists.{entry_of, lists_state, scored_lists};

use crate::access_counts::{raise, sum_of};
use crate::lists::{Lists, Lookup};
use std::alloc::Global;
use std::marker::Model;

/// Lists in memory, of scores and rows, for tests. They tell their random accesses; where there is no memory for one, they tell none
/// from then on.
#[derive(Debug, Drop)]
pub struct MemLists {
    lists: Vec<Vec<(u32, u32)>>,
    sorted: [u64; 8],
    random: [u64; 8],
    // The random accesses, while there is memory to tell them.
    told: Option<Vec<Lookup>>,
}

impl Model for MemLists {
    ghost use Rattle.std.specs.Prelude.{option_map};
    ghost use Rattle.rs_ta.specs.Lists.{AreRanked};
    ghost use Rattle.rs_ta.specs.MemLists.{MemListsState, scored_lists};

    ghost Value = { MemListsState };

    ghost view = { λ m. record {
      lists = scored_lists m.lists.items;
      sorted = m.sorted;
      random = m.random;
      told = option_map (λ told. told.items) m.told;
    } };

    ghost invariant = { λ m. AreRanked (scored_lists m.lists.items) };
}

impl MemLists {
    /// The lists, of which none was accessed. It takes no memory.
    pub fn new(alloc: Global, lists: Vec<Vec<(u32, u32)>>) -> MemLists
        requires { AreRanked (scored_lists lists.items) }
        ensures value { result ≡ record {
          lists = scored_lists lists.items;
          sorted = 0 ∷ 0 ∷ 0 ∷ 0 ∷ 0 ∷ 0 ∷ 0 ∷ 0 ∷ [];
          random = 0 ∷ 0 ∷ 0 ∷ 0 ∷ 0 ∷ 0 ∷ 0 ∷ 0 ∷ [];
          told = Some [];
        } }
        ensures unaccessed { AreUnaccessed (lists_state result) }
    {
        MemLists {
            lists,
            sorted: [0; 8],
            random: [0; 8],
            told: Some(Vec::new(alloc)),
        }
    }

    /// The sums of the sorted and of the random accesses of all lists. A sum that passes 2^64 - 1 is given as that.
    pub fn counts(&self) -> (u64, u64)
        ensures sorted { result.0 ≡ min (total (length self.now.lists) (lists_state self.now).sorted_count) (2 ^ 64 - 1) }
        ensures random { result.1 ≡ min (total (length self.now.lists) (lists_state self.now).random_count) (2 ^ 64 - 1) }
    {
        let lists = self.lists.len();
        (sum_of(&self.sorted, lists), sum_of(&self.random, lists))
    }

    /// The random accesses, one after another.
    ///
    /// # Errors
    ///
    /// - `None`: where there was no memory to tell one of them.
    pub fn told(&self) -> Option<&[Lookup]>
        ensures { option_map (λ told. told.now) result ≡ self.now.told }
    {
        match &self.told {
            Some(told) => Some(told),
            None => None,
        }
    }
}

impl Lists for MemLists {
    ghost state = { lists_state };

    fn lists(&self) -> u8 {
        self.lists.len() as u8
    }

    fn sorted(&mut self, list: u8) -> Option<(u32, u32)> {
        let place = self.sorted[usize::from(list - 1)];
        let entry = entry_at(&self.lists[usize::from(list - 1)], place);
        if entry.is_some() {
            raise(&mut self.sorted, list);
        }
        entry
    }

    fn random(&mut self, list: u8, row: u32) -> u32 {
        raise(&mut self.random, list);
        self.told = told_behind(self.told.take(), Lookup { row, list });
        score_in(&self.lists[usize::from(list - 1)], row)
    }
}

/// What is told once this random access is too: nothing any more where there is no memory for it.
fn told_behind(told: Option<Vec<Lookup>>, lookup: Lookup) -> Option<Vec<Lookup>>
    ensures { AreTold (lookup ∷ []) (option_map (λ told. told.items) told) (option_map (λ told. told.items) result) }
{
    let mut told = told?;
    match told.push(lookup) {
        Ok(()) => Some(told),
        Err(_) => None,
    }
}

/// The entry at a place, counted from 0.
fn entry_at(list: &[(u32, u32)], place: u64) -> Option<(u32, u32)>
    ensures { result ≡ slice_get list.now place }
{
    list.get(place as usize).copied()
}

/// The score of a row, or 0 where it isn't there.
#[tactic(auto, using(crate::proofs::MemFacts::score_steps))]
fn score_in(list: &[(u32, u32)], row: u32) -> u32
    ensures { result ≡ score_of row (map entry_of list.now) }
{
    for (score, other) in list {
        if *other == row {
            return *score;
        }
    }
    0
}
