//! One question to the scorer.

ghost use Rattle.std.specs.Prelude.{◌≡◌, ◌≤◌, ◌-◌, Some, length, slice_get, true};
ghost use Rattle.rs_expr.specs.InOrder.{Inquires};
ghost use Rattle.rs_query.specs.Asking.{ask_faults, asking_worth, worth_for};
ghost use Rattle.rs_query.specs.Meaning.{is_inside};
ghost use Rattle.rs_query.specs.Tables.{HasRows};
ghost use Rattle.rs_query.specs.WellFormed.{IsBlock};
ghost use Rattle.rs_query.specs.declared.term.Term.{Term as BoundTerm};

use crate::block::Block;
use crate::kept::KeptList;
use crate::term::Term;
use rs_catalog::Snapshot;
use rs_expr::{Scorer, ScorerFault, score_within};
use rs_rank::Ids;
use rs_value::Memory;

/// Why a term has no worth for some rows.
#[derive(Clone, Copy, Debug, PartialEq, Eq)]
pub enum AskFault {
    /// The number that the scorer answered is no score: it lies outside 0 to `max`, which is the predicate's MAX. The predicate's
    /// number counts from 0; the rows are those of the term's entries.
    BadScore {
        predicate: u8,
        ids: Ids,
        got: i128,
        max: u32,
    },
    /// The call of the scorer for the predicate of this number failed.
    Probe {
        predicate: u8,
    },
    Memory,
}

impl From<Memory> for AskFault {
    ghost use Rattle.std.specs.Prelude.{◌≡◌};
    ghost use Rattle.rs_query.specs.declared.ask.AskFault.TheVariants.{Memory};

    ghost from_gives = { λ _ fault. fault ≡ Memory };

    fn from(_: Memory) -> AskFault {
        AskFault::Memory
    }
}

impl Block {
    /// What a term, counted from 1, is worth for rows that have all entries of the term. The scorer is called once, with its
    /// arguments in a list that is kept from call to call.
    ///
    /// # Errors
    ///
    /// - `BadScore`: exactly where the answer lies outside 0 to the predicate's MAX.
    /// - `Probe`: only where the call failed; the scorer's count of faults rose.
    /// - `Memory`: at any time, but not behind an answer outside that range. The scorer was called once or not at all.
    pub fn ask<S: Scorer>(
        &self,
        catalog: &Snapshot<'_>,
        number: u8,
        ids: &Ids,
        args: &mut KeptList,
        scorer: &mut S,
    ) -> Result<u32, AskFault>
        requires block { IsBlock catalog.now self.now }
        requires least { 1 ≤ number }
        requires most { number ≤ length self.now.terms }
        requires inside { (term : BoundTerm) → slice_get self.now.terms (number - 1) ≡ Some term → is_inside term.entries ids.now.mask ≡ true }
        requires rows { HasRows catalog.now self.now ids.now.mask ids.now.rows }
        ensures { (term : BoundTerm) → slice_get self.now.terms (number - 1) ≡ Some term
            → Inquires AskFault.Memory (asking_worth ask_faults (S.state scorer.old).answer catalog.now self.now ids.now term)
            result (S.state scorer.old) (S.state scorer.new) }
    {
        let values = args.list();
        self.args(catalog, number, ids, values)?;
        let term = &self.terms.items()[number as usize - 1];
        let predicate = catalog.predicate(term.predicate);
        match scorer.score(predicate, values) {
            Ok(got) => worth_for(term, ids, predicate.max(), got),
            Err(ScorerFault::Failed) => Err(AskFault::Probe {
                predicate: term.predicate,
            }),
            Err(ScorerFault::Memory) => Err(AskFault::Memory),
        }
    }
}

/// A number that the scorer answered, as a worth. It is a fault where it lies outside 0 to `max`.
fn worth_for(term: &Term, ids: &Ids, max: u32, got: i128) -> Result<u32, AskFault>
    ensures { result ≡ worth_for ask_faults term.now ids.now max got }
{
    match score_within(got, max) {
        Some(worth) => Ok(worth),
        None => Err(AskFault::BadScore {
            predicate: term.predicate,
            ids: ids.inside(term.entries),
            got,
            max,
        }),
    }
}
