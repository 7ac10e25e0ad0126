//! Questions to the scorer, whose numbers are put into 0 to the greatest score.

ghost use Rattle.std.specs.Prelude.{◌≡◌, ◌≤◌, ◌-◌, [], ◌∷◌, Some, length, map, slice_get};
ghost use Rattle.std.specs.List.{AllByRecursion};
ghost use Rattle.rs_expr.specs.InOrder.{Inquires};
ghost use Rattle.rs_query.specs.Answers.{clamped, worth_of};
ghost use Rattle.rs_query.specs.Questions.{question_of};
ghost use Rattle.rs_query.specs.Tables.{HasRows, sizes_of};
ghost use Rattle.rs_query.specs.WellFormed.{IsBlock};
ghost use Rattle.rs_query.specs.declared.term.Term.{Term as BoundTerm};
ghost use Rattle.rs_sample.specs.Sampling.{asking_all, as_list, block_questions, sampled_worth, worths_by_term};
ghost use Rattle.rs_sample.specs.Samples.{AreBlockSamples};

use crate::choices::choices;
use crate::fault::SampleFault;
use rs_catalog::Snapshot;
use rs_expr::Scorer;
use rs_query::{AskFault, Block, KeptList};
use rs_rank::Ids;
use rs_value::List;
use std::alloc::Global;

/// What each term of the block of this number is worth on each choice among the samples of its entries.
pub(crate) fn ask_terms<S: Scorer>(
    alloc: Global,
    catalog: &Snapshot<'_>,
    block: &Block,
    number: u8,
    samples: &[List<u32>],
    scorer: &mut S,
) -> Result<Vec<List<u32>>, SampleFault>
    requires block { IsBlock catalog.now block.now }
    requires samples { AreBlockSamples (length block.now.from) (sizes_of catalog.now block.now) samples.now }
    ensures { Inquires SampleFault.Memory
        (asking_all catalog.now (block_questions number block.now samples.now)
        (worths_by_term (S.state scorer.old).answer catalog.now block.now samples.now))
        (as_list result) (S.state scorer.old) (S.state scorer.new) }
{
    let mut worths = Vec::new(alloc);
    let mut args = KeptList::new(alloc);
    for (place, term) in block.terms.items().iter().enumerate() {
        let choices = choices(alloc, samples, term.entries)?;
        let asked = ask_choices(
            alloc,
            catalog,
            block,
            number,
            place as u8 + 1,
            &choices,
            &mut args,
            scorer,
        )?;
        worths.push(List::of(asked))?;
    }
    Ok(worths)
}

/// What a term, counted from 1, is worth on each of these choices of rows of its entries. The scorer is called once for each.
fn ask_choices<S: Scorer>(
    alloc: Global,
    catalog: &Snapshot<'_>,
    block: &Block,
    number: u8,
    term: u8,
    choices: &[[u32; 6]],
    args: &mut KeptList,
    scorer: &mut S,
) -> Result<Vec<u32>, SampleFault>
    requires block { IsBlock catalog.now block.now }
    requires least { 1 ≤ term }
    requires most { term ≤ length block.now.terms }
    requires rows { (t : BoundTerm) → slice_get block.now.terms (term - 1) ≡ Some t
        → AllByRecursion (HasRows catalog.now block.now t.entries) choices.now }
    ensures { (t : BoundTerm) → slice_get block.now.terms (term - 1) ≡ Some t
        → Inquires SampleFault.Memory
        (asking_all catalog.now (map (λ rows. question_of number block.now rows t) choices.now)
        (map (λ rows. worth_of (S.state scorer.old).answer catalog.now block.now rows t) choices.now))
        (as_list result) (S.state scorer.old) (S.state scorer.new) }
{
    let mut worths = Vec::new(alloc);
    for rows in choices {
        let ids = Ids {
            block: number,
            mask: block.terms.items()[term as usize - 1].entries,
            rows: *rows,
        };
        worths.push(ask_term(catalog, block, term, &ids, args, scorer)?)?;
    }
    Ok(worths)
}

/// What a term, counted from 1, is worth for the rows of its entries. The scorer is called once, with its arguments in a list
/// that is kept from call to call.
fn ask_term<S: Scorer>(
    catalog: &Snapshot<'_>,
    block: &Block,
    number: u8,
    ids: &Ids,
    args: &mut KeptList,
    scorer: &mut S,
) -> Result<u32, SampleFault>
    requires block { IsBlock catalog.now block.now }
    requires least { 1 ≤ number }
    requires most { number ≤ length block.now.terms }
    requires entries { (term : BoundTerm) → slice_get block.now.terms (number - 1) ≡ Some term → ids.now.mask ≡ term.entries }
    requires rows { HasRows catalog.now block.now ids.now.mask ids.now.rows }
    ensures { (term : BoundTerm) → slice_get block.now.terms (number - 1) ≡ Some term
        → Inquires SampleFault.Memory
        (asking_all catalog.now (question_of ids.now.block block.now ids.now.rows term ∷ [])
        (worth_of (S.state scorer.old).answer catalog.now block.now ids.now.rows term))
        result (S.state scorer.old) (S.state scorer.new) }
{
    sampled_worth(block.ask(catalog, number, ids, args, scorer))
}

/// What is taken of a question to the scorer. A number that is no score is put into 0 to the greatest one.
fn sampled_worth(asked: Result<u32, AskFault>) -> Result<u32, SampleFault>
    ensures { result ≡ sampled_worth asked }
{
    match asked {
        Ok(worth) => Ok(worth),
        Err(AskFault::BadScore { got, max, .. }) => Ok(clamp(got, max)),
        Err(AskFault::Probe { predicate }) => Err(SampleFault::Probe { predicate }),
        Err(AskFault::Memory) => Err(SampleFault::Memory),
    }
}

/// A number put into 0 to `max`.
fn clamp(got: i128, max: u32) -> u32
    ensures { result ≡ clamped max got }
{
    if got < 0 {
        return 0;
    }
    if got > max as i128 {
        return max;
    }
    got as u32
}
