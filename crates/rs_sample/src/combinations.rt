//! Combinations among sampled rows.

ghost use Rattle.std.specs.Prelude.{◌≡◌, ◌≤◌, ◌<◌, ◌+◌, ◌*◌, ◌++◌, [], IfOk, OnOk, get_or, false, length, map, slice_set, true, if◌then◌else◌};
ghost use Rattle.std.specs.List.{AllByRecursion, filter, flat_map};
ghost use Rattle.rs_catalog.specs.Catalog.{CatalogDef};
ghost use Rattle.rs_order.specs.Climbing.{In};
ghost use Rattle.rs_query.specs.Combinations.{satisfies};
ghost use Rattle.rs_query.specs.Meaning.{is_inside};
ghost use Rattle.rs_query.specs.WellFormed.{IsBlock};
ghost use Rattle.rs_sample.specs.Choosing.{sampled_choices};
ghost use Rattle.rs_sample.specs.Estimates.{sampled_combinations};
ghost use Rattle.rs_sample.specs.Finding.{choice_place, truths_by_conjunct};

use crate::lookup::{choice_place, places_of};
use rs_query::{Block, is_inside};
use rs_value::{List, Memory};
use std::alloc::Global;

/// The choices among the samples of the entries in a mask for which every conjunct holds that speaks of these entries alone. The
/// truths are those of each conjunct on the choices among the samples of its entries. The entries are taken from the last one on,
/// and what fails of those that are taken is left out at once.
pub(crate) fn combinations(
    alloc: Global,
    block: &Block,
    samples: &[List<u32>],
    sampled: &[u32; 6],
    truths: &[List<bool>],
    mask: u8,
) -> Result<Vec<[u32; 6]>, Memory>
    requires six { length samples.now ≡ 6 }
    requires few { AllByRecursion (λ sample. length sample ≤ 256) samples.now }
    requires sampled { sampled.now ≡ map length samples.now }
    requires truths { length truths.now ≡ length block.now.conjuncts }
    requires mask { mask < 64 }
    ensures few { IfOk result (λ rows. length rows.items ≤ length (sampled_choices mask samples.now)) }
    ensures value { (catalogue : CatalogDef) → IsBlock catalogue block.now → truths.now ≡ truths_by_conjunct catalogue block.now samples.now
        → IfOk result (λ rows. rows.items ≡ sampled_combinations catalogue block.now samples.now mask) }
{
    let mut found = without_entries(alloc, block, samples, sampled, truths)?;
    let mut taken = 0;
    for behind in 0..6 {
        let place = 5 - behind;
        if (mask >> place) % 2 == 0 {
            continue;
        }
        taken += 1 << place;
        found = with_entry(alloc, block, samples, sampled, truths, taken, place, &found)?;
    }
    Ok(found)
}

/// The choice of no row, where every conjunct holds that speaks of no entry.
fn without_entries(
    alloc: Global,
    block: &Block,
    samples: &[List<u32>],
    sampled: &[u32; 6],
    truths: &[List<bool>],
) -> Result<Vec<[u32; 6]>, Memory>
    requires six { length samples.now ≡ 6 }
    requires few { AllByRecursion (λ sample. length sample ≤ 256) samples.now }
    requires sampled { sampled.now ≡ map length samples.now }
    requires truths { length truths.now ≡ length block.now.conjuncts }
    ensures few { IfOk result (λ all. length all.items ≤ length (sampled_choices 0 samples.now)) }
    ensures value { (catalogue : CatalogDef) → IsBlock catalogue block.now → truths.now ≡ truths_by_conjunct catalogue block.now samples.now
        → IfOk result (λ all. all.items ≡ sampled_combinations catalogue block.now samples.now 0) }
{
    let none = [0; 6];
    if !satisfies(block, samples, sampled, truths, 0, &none) {
        return Ok(Vec::new(alloc));
    }
    Ok(vec![in alloc; none]?)
}

/// These choices with each row of the sample of the entry at a place, where every conjunct holds that speaks of the entries in a
/// mask alone.
fn with_entry(
    alloc: Global,
    block: &Block,
    samples: &[List<u32>],
    sampled: &[u32; 6],
    truths: &[List<bool>],
    mask: u8,
    place: usize,
    choices: &[[u32; 6]],
) -> Result<Vec<[u32; 6]>, Memory>
    requires six { length samples.now ≡ 6 }
    requires few { AllByRecursion (λ sample. length sample ≤ 256) samples.now }
    requires sampled { sampled.now ≡ map length samples.now }
    requires truths { length truths.now ≡ length block.now.conjuncts }
    requires place { place < 6 }
    ensures few { IfOk result (λ all. length all.items ≤ length (get_or samples.now place []) * length choices.now) }
    ensures value { (catalogue : CatalogDef) → IsBlock catalogue block.now → truths.now ≡ truths_by_conjunct catalogue block.now samples.now
        → AllByRecursion (λ row. AllByRecursion (λ rows. In (slice_set rows place row) (sampled_choices mask samples.now)) choices.now) (get_or samples.now place [])
        → IfOk result (λ all. all.items
        ≡ flat_map (λ row. filter (satisfies catalogue block.now mask) (map (λ rows. slice_set rows place row) choices.now)) (get_or samples.now place [])) }
{
    let mut all = Vec::new(alloc);
    for row in samples[place].items() {
        add_holding(
            block, samples, sampled, truths, mask, place, *row, choices, &mut all,
        )?;
    }
    Ok(all)
}

/// Adds these choices with this row at a place, where every conjunct holds that speaks of the entries in a mask alone.
fn add_holding(
    block: &Block,
    samples: &[List<u32>],
    sampled: &[u32; 6],
    truths: &[List<bool>],
    mask: u8,
    place: usize,
    row: u32,
    choices: &[[u32; 6]],
    all: &mut Vec<[u32; 6]>,
) -> Result<(), Memory>
    requires six { length samples.now ≡ 6 }
    requires few { AllByRecursion (λ sample. length sample ≤ 256) samples.now }
    requires sampled { sampled.now ≡ map length samples.now }
    requires truths { length truths.now ≡ length block.now.conjuncts }
    requires place { place < 6 }
    ensures few { OnOk result (length all.new.items ≤ length all.old.items + length choices.now) }
    ensures value { (catalogue : CatalogDef) → IsBlock catalogue block.now → truths.now ≡ truths_by_conjunct catalogue block.now samples.now
        → AllByRecursion (λ rows. In (slice_set rows place row) (sampled_choices mask samples.now)) choices.now
        → OnOk result (all.new.items ≡ all.old.items ++ filter (satisfies catalogue block.now mask) (map (λ rows. slice_set rows place row) choices.now)) }
{
    for rows in choices {
        let mut chosen = *rows;
        chosen[place] = row;
        if satisfies(block, samples, sampled, truths, mask, &chosen) {
            all.push(chosen)?;
        }
    }
    Ok(())
}

/// Whether every conjunct that speaks of the entries in a mask alone holds of a choice among the samples of these entries.
fn satisfies(
    block: &Block,
    samples: &[List<u32>],
    sampled: &[u32; 6],
    truths: &[List<bool>],
    mask: u8,
    rows: &[u32; 6],
) -> bool
    requires six { length samples.now ≡ 6 }
    requires few { AllByRecursion (λ sample. length sample ≤ 256) samples.now }
    requires sampled { sampled.now ≡ map length samples.now }
    requires truths { length truths.now ≡ length block.now.conjuncts }
    ensures { (catalogue : CatalogDef) → IsBlock catalogue block.now → truths.now ≡ truths_by_conjunct catalogue block.now samples.now
        → In rows.now (sampled_choices mask samples.now) → result ≡ satisfies catalogue block.now mask rows.now }
{
    let places = places_of(samples, rows);
    for (place, conjunct) in block.conjuncts.items().iter().enumerate() {
        let truths = truths[place].items();
        if !holds_if_inside(conjunct.entries(), mask, sampled, &places, truths) {
            return false;
        }
    }
    true
}

/// The truth for the choice of rows at these places, where the entries of the truths are in the mask, or else true.
fn holds_if_inside(
    entries: u8,
    mask: u8,
    sampled: &[u32; 6],
    places: &[u32; 6],
    truths: &[bool],
) -> bool
    requires sampled { AllByRecursion (λ size. size ≤ 256) sampled.now }
    requires places { AllByRecursion (λ place. place ≤ 256) places.now }
    ensures { result ≡ (if is_inside entries mask then get_or truths.now (choice_place entries sampled.now places.now) false else true) }
{
    if !is_inside(entries, mask) {
        return true;
    }
    match truths.get(choice_place(entries, sampled, places)) {
        Some(holds) => *holds,
        None => false,
    }
}
