//! Choices of a sampled row for each of some entries.

ghost use Rattle.std.specs.Prelude.{◌≡◌, ◌<◌, ◌++◌, IfOk, OnOk, length, map, slice_set};
ghost use Rattle.std.specs.List.{AllByRecursion, flat_map};
ghost use Rattle.rs_sample.specs.Choosing.{sampled_choices};

use rs_value::{List, Memory};
use std::alloc::Global;

/// Each choice of a sampled row for each entry in a mask, in lexicographic order; 0 stands at the other entries.
pub(crate) fn choices(
    alloc: Global,
    samples: &[List<u32>],
    mask: u8,
) -> Result<Vec<[u32; 6]>, Memory>
    requires { length samples.now ≡ 6 }
    ensures { IfOk result (λ choices. choices.items ≡ sampled_choices mask samples.now) }
{
    let mut choices = vec![in alloc; [0; 6]]?;
    for behind in 0..6 {
        let place = 5 - behind;
        if (mask >> place) % 2 == 0 {
            continue;
        }
        choices = with_each(alloc, &choices, place, samples[place].items())?;
    }
    Ok(choices)
}

/// For each of these rows the choices with this row at a place.
fn with_each(
    alloc: Global,
    choices: &[[u32; 6]],
    place: usize,
    rows: &[u32],
) -> Result<Vec<[u32; 6]>, Memory>
    requires { place < 6 }
    ensures { IfOk result (λ all. all.items ≡ flat_map (λ row. map (λ rows. slice_set rows place row) choices.now) rows.now) }
{
    let mut all = Vec::new(alloc);
    for row in rows {
        add_each(choices, place, *row, &mut all)?;
    }
    Ok(all)
}

/// Adds the choices with this row at a place.
fn add_each(
    choices: &[[u32; 6]],
    place: usize,
    row: u32,
    all: &mut Vec<[u32; 6]>,
) -> Result<(), Memory>
    requires { place < 6 }
    ensures { OnOk result (all.new.items ≡ all.old.items ++ map (λ rows. slice_set rows place row) choices.now) }
{
    for rows in choices {
        let mut chosen = *rows;
        chosen[place] = row;
        all.push(chosen)?;
    }
    Ok(())
}
