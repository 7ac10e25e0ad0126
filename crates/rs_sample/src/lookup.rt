//! What terms are worth on sampled rows, found by the places of the rows in their samples.

ghost use Rattle.std.specs.Prelude.{ℕ, ◌≡◌, ◌≤◌, List, get_or, length, map, if◌then◌else◌};
ghost use Rattle.std.specs.List.{AllByRecursion};
ghost use Rattle.rs_order.specs.Climbing.{In};
ghost use Rattle.rs_expr.specs.Scoring.{Answering};
ghost use Rattle.rs_catalog.specs.Catalog.{CatalogDef};
ghost use Rattle.rs_query.specs.Answers.{padded};
ghost use Rattle.rs_query.specs.Meaning.{is_inside};
ghost use Rattle.rs_query.specs.WellFormed.{IsBlock};
ghost use Rattle.rs_sample.specs.Choosing.{sampled_choices};
ghost use Rattle.rs_sample.specs.Finding.{choice_place, known_worth, place_in, places_in};
ghost use Rattle.rs_sample.specs.Sampling.{worths_by_term};

use rs_query::{Block, is_inside};
use rs_value::List;

/// What each term is worth for a choice among the samples of the entries in a mask, and 0 for a term of other entries and
/// past the last term. The worths are those of each term on the choices among the samples of its entries.
pub(crate) fn worths_for(
    block: &Block,
    samples: &[List<u32>],
    sampled: &[u32; 6],
    worths: &[List<u32>],
    mask: u8,
    rows: &[u32; 6],
) -> [u32; 8]
    requires terms { length block.now.terms ≤ 8 }
    requires six { length samples.now ≡ 6 }
    requires few { AllByRecursion (λ sample. length sample ≤ 256) samples.now }
    requires sampled { sampled.now ≡ map length samples.now }
    requires worths { length worths.now ≡ length block.now.terms }
    ensures { (answer : Answering) (catalogue : CatalogDef) → IsBlock catalogue block.now
        → worths.now ≡ worths_by_term answer catalogue block.now samples.now
        → In rows.now (sampled_choices mask samples.now)
        → result ≡ padded 8 (map (known_worth answer catalogue block.now mask rows.now) block.now.terms) }
{
    let places = places_of(samples, rows);
    let mut known = [0; 8];
    for (place, term) in block.terms.items().iter().enumerate() {
        known[place] = worth_if_inside(term.entries, mask, sampled, &places, worths[place].items());
    }
    known
}

/// The worth of the choice of rows at these places, where the entries of the worths are in the mask, or else 0.
fn worth_if_inside(
    entries: u8,
    mask: u8,
    sampled: &[u32; 6],
    places: &[u32; 6],
    worths: &[u32],
) -> u32
    requires sampled { AllByRecursion (λ size. size ≤ 256) sampled.now }
    requires places { AllByRecursion (λ place. place ≤ 256) places.now }
    ensures { result ≡ (if is_inside entries mask then get_or worths.now (choice_place entries sampled.now places.now) 0 else 0) }
{
    if !is_inside(entries, mask) {
        return 0;
    }
    match worths.get(choice_place(entries, sampled, places)) {
        Some(worth) => *worth,
        None => 0,
    }
}

/// The place of the choice of rows of the entries in a mask among all such choices, in lexicographic order. The rows stand
/// at these places of samples of these sizes.
pub(crate) fn choice_place(mask: u8, sampled: &[u32; 6], places: &[u32; 6]) -> usize
    requires sampled { AllByRecursion (λ size. size ≤ 256) sampled.now }
    requires places { AllByRecursion (λ place. place ≤ 256) places.now }
    ensures { result ≡ choice_place mask sampled.now places.now }
{
    let mut at = 0;
    let mut choices = 1;
    for behind in 0..6 {
        let place = 5 - behind;
        if (mask >> place) % 2 == 0 {
            continue;
        }
        at += places[place] as usize * choices;
        choices *= sampled[place] as usize;
    }
    at
}

/// The places of rows in the samples of their entries. A row that isn't there stands behind the last one.
pub(crate) fn places_of(samples: &[List<u32>], rows: &[u32; 6]) -> [u32; 6]
    requires six { length samples.now ≡ 6 }
    requires few { AllByRecursion (λ sample. length sample ≤ 256) samples.now }
    ensures value { result ≡ places_in samples.now rows.now }
    ensures few { AllByRecursion (λ place. place ≤ 256) result }
{
    let mut places = [0; 6];
    for place in 0..6 {
        places[place] = place_of(samples[place].items(), rows[place]);
    }
    places
}

/// The place of a row in a sample, or behind the last one.
fn place_of(sample: &[u32], row: u32) -> u32
    requires { length sample.now ≤ 256 }
    ensures { result ≡ place_in row sample.now }
{
    for (place, other) in sample.iter().enumerate() {
        if *other == row {
            return place as u32;
        }
    }
    sample.len() as u32
}
