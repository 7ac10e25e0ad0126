ghost use Rattle.std.specs.Prelude.{ℕ, ◌≡◌, ◌≤◌, ◌-◌, ◌^◌, IfErr, IfOk, Some, length, slice_get};
ghost use Rattle.rs_expr.specs.InOrder.{Inquires};
ghost use Rattle.rs_query.specs.Views.{all_rows};
ghost use Rattle.rs_query.specs.WellFormed.{IsQuery};
ghost use Rattle.rs_sample.specs.Cards.{AllSayTheSame, BlockCards, IsEstimated, IsIndexed};
ghost use Rattle.rs_sample.specs.Kept.{cards_of};
ghost use Rattle.rs_sample.specs.Quotients.{most_expected};
ghost use Rattle.rs_sample.specs.Sampling.{NamesPredicate, asking_all, done, done_of, query_cards, questions_of};

use crate::estimates::Estimates;
use crate::fault::SampleFault;
use crate::sample::sample_block;
use rand_core::SeedableRng;
use rand_pcg::Pcg32;
use rs_catalog::{Catalog, Snapshot};
use rs_expr::Scorer;
use rs_query::Query;
use std::alloc::Global;

/// What planning knows of a query: how many rows are expected of each part of a plan.
///
/// It keeps all numbers that can be asked for: at most 64 times 256 numbers of 16 bytes for each block.
#[derive(Drop)]
pub struct Cards {
    pub(crate) blocks: Vec<Estimates>,
}

impl Cards {
    /// Takes a sample of each table of a query by a seed, and asks the scorer for each term on each choice among the
    /// samples of its entries: block after block, term after term. A number outside 0 to the greatest score is put into
    /// that range. The number of calls is at most 46,656 for each term of a block of six entries, and 256 for a block of
    /// one.
    ///
    /// # Errors
    ///
    /// - `Probe`: only where the last call that was made failed; the scorer's count of faults rose.
    /// - `Memory`: at any time. Then the calls that were made are the first ones, in their order.
    pub fn take<S: Scorer>(
        alloc: Global,
        catalog: &Catalog,
        query: &Query,
        seed: u64,
        scorer: &mut S,
    ) -> Result<Cards, SampleFault>
        requires { IsQuery catalog.now query.now }
        ensures asks { Inquires SampleFault.Memory
            (asking_all catalog.now (questions_of query.now (all_rows catalog.now query.now) seed) done)
            (done_of result) (S.state scorer.old) (S.state scorer.new) }
        ensures cards { IfOk result (λ cards. AllSayTheSame (cards_of cards)
            (query_cards (S.state scorer.old).answer catalog.now query.now (all_rows catalog.now query.now) seed)) }
        ensures names_predicate { IfErr result (NamesPredicate catalog.now) }
    {
        Cards::take_over(alloc, &Snapshot::current(catalog), query, seed, scorer)
    }

    /// Takes a sample of each table of a query, of the rows that are seen of it.
    fn take_over<S: Scorer>(
        alloc: Global,
        catalog: &Snapshot<'_>,
        query: &Query,
        seed: u64,
        scorer: &mut S,
    ) -> Result<Cards, SampleFault>
        requires { IsQuery catalog.now query.now }
        ensures asks { Inquires SampleFault.Memory
            (asking_all catalog.now (questions_of query.now (all_rows catalog.now query.now) seed) done)
            (done_of result) (S.state scorer.old) (S.state scorer.new) }
        ensures cards { IfOk result (λ cards. AllSayTheSame (cards_of cards)
            (query_cards (S.state scorer.old).answer catalog.now query.now (all_rows catalog.now query.now) seed)) }
        ensures names_predicate { IfErr result (NamesPredicate catalog.now) }
    {
        let mut words = Pcg32::seed_from_u64(seed);
        let mut blocks = Vec::new(alloc);
        match query {
            Query::One(block, limit) => {
                let first = sample_block(alloc, catalog, block, 1, *limit, &mut words, scorer)?;
                blocks.push(first)?;
            }
            Query::Set(_, left, right, limit) => {
                let first = sample_block(alloc, catalog, left, 1, *limit, &mut words, scorer)?;
                blocks.push(first)?;
                let second = sample_block(alloc, catalog, right, 2, *limit, &mut words, scorer)?;
                blocks.push(second)?;
            }
        }
        Ok(Cards { blocks })
    }

    /// How many combinations of the entries in a mask are expected to reach the cutoff of a block, counted from 1, under a
    /// mask of its terms that read these entries alone. It takes no memory.
    pub fn est(&self, block: u8, entries: u8, terms: u8) -> u128
        requires least { 1 ≤ block }
        requires most { block ≤ length (cards_of self.now) }
        requires masks { (cards : BlockCards) → slice_get (cards_of self.now) (block - 1) ≡ Some cards → IsEstimated cards entries terms }
        ensures value { (cards : BlockCards) → slice_get (cards_of self.now) (block - 1) ≡ Some cards → result ≡ cards.estimate entries terms }
        ensures limit { result ≤ most_expected entries }
    {
        self.blocks[block as usize - 1].est(entries, terms)
    }

    /// How many rows of an entry, counted from 1, are expected to reach the cutoff of a block under one term that reads this
    /// entry alone, whether conjuncts hold or not. It takes no memory.
    pub fn est_index(&self, block: u8, entry: u8, term: u8) -> u128
        requires least { 1 ≤ block }
        requires most { block ≤ length (cards_of self.now) }
        requires numbers { (cards : BlockCards) → slice_get (cards_of self.now) (block - 1) ≡ Some cards → IsIndexed cards entry term }
        ensures value { (cards : BlockCards) → slice_get (cards_of self.now) (block - 1) ≡ Some cards → result ≡ cards.index_estimate entry term }
        ensures limit { result ≤ 131072 }
    {
        self.blocks[block as usize - 1].est_index(term)
    }
}
